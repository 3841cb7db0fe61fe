// Numbers of options.
ghost use Rattle.std.specs.Prelude.{◌≡◌, ◌≢◌, ◌≤◌, ℕ, MatchOption};
ghost use Rattle.std.specs.Fmt.{decimal};

use lists::decimal_up_to;

/// The number that is written so, in digits without a leading zero; none where it is another text or passes the limit.
pub fn number_up_to(digits: &[u8], limit: u32) -> Option<u32>
    ensures { MatchOption result ((n : ℕ) → n ≤ limit → digits.now ≢ decimal n) (λ n. (digits.now ≡ decimal n) × (n ≤ limit)) }
{
    let number = decimal_up_to(digits, u64::from(limit))?;
    Some(number as u32)
}
