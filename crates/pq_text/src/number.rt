// Numbers, as digits.
ghost use Rattle.std.specs.Prelude.{◌≡◌, ◌≢◌, ◌<◌, ◌≤◌, ◌^◌, ◌++◌, ℕ, OnOk, MatchOption, min};
ghost use Rattle.std.specs.Fmt.{decimal};
ghost use Rattle.pq_text.specs.Numbers.{value_of};

use lists::{Text, decimal_up_to};
use std::alloc::AllocError;

/// The number that some digits stand for, or the limit where it passes the limit.
pub fn value_up_to(digits: &Text, limit: u64) -> u64
    requires { limit < 2 ^ 59 }
    ensures { result ≡ min (value_of digits.now) limit }
{
    let mut value = 0;
    let mut left = digits.as_bytes();
    while let [digit, after @ ..] = left {
        value = (value * 10 + digit.saturating_sub(b'0') as u64).min(limit);
        left = after;
    }
    value
}

/// The number that is written so: in digits alone, without leading zeros, and below 2^32.
pub fn plain_number(digits: &Text) -> Option<u32>
    ensures { MatchOption result ((n : ℕ) → n < 2 ^ 32 → digits.now ≢ decimal n) (λ n. digits.now ≡ decimal n) }
{
    let number = decimal_up_to(digits.as_bytes(), u64::from(u32::MAX))?;
    Some(number as u32)
}

/// Writes a number in digits, without leading zeros.
pub fn print_number(out: &mut Vec<u8>, number: u64) -> Result<(), AllocError>
    ensures { OnOk result (out.new.items ≡ out.old.items ++ decimal number) }
{
    if number < 10 {
        out.push(b'0' + number as u8)?;
        return Ok(());
    }
    print_number(out, number / 10)?;
    out.push(b'0' + (number % 10) as u8)?;
    Ok(())
}
