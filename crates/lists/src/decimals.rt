// Numbers that are written in digits.
ghost use Rattle.std.specs.Prelude.{◌≡◌, ◌≢◌, ◌<◌, ◌≤◌, ◌+◌, ◌-◌, ◌*◌, ℕ, true, MatchOption};
ghost use Rattle.std.specs.Char.{is_ascii_digit};
ghost use Rattle.std.specs.Fmt.{decimal};
ghost use Rattle.std.specs.Str.{all_ascii_digits};
ghost use Rattle.lists.specs.Digits.{value_from, begins_plain};

/// The number that is written so, in digits without a leading zero; none where it is another text or passes the limit.
/// Takes no memory.
pub fn decimal_up_to(digits: &[u8], limit: u64) -> Option<u64>
    ensures { MatchOption result ((n : ℕ) → n ≤ limit → digits.now ≢ decimal n) (λ n. (digits.now ≡ decimal n) × (n ≤ limit)) }
{
    if begins_plain(digits) {
        value_within(digits, limit)
    } else {
        None
    }
}

// Whether there is a first byte, and it is a zero only where it is the only one.
fn begins_plain(digits: &[u8]) -> bool
    ensures { result ≡ begins_plain digits.now }
{
    match digits {
        [] => false,
        [_] => true,
        [first, ..] => *first != b'0',
    }
}

// What the digits stand for; none where a byte is no digit or the number passes the limit.
fn value_within(digits: &[u8], limit: u64) -> Option<u64>
    ensures { MatchOption result (all_ascii_digits digits.now ≡ true → limit < value_from 0 digits.now)
        (λ n. (all_ascii_digits digits.now ≡ true) × (value_from 0 digits.now ≡ n) × (n ≤ limit)) }
{
    let mut value = 0;
    let mut left = digits;
    while let [digit, after @ ..] = left {
        value = with_digit(value, *digit, limit)?;
        left = after;
    }
    Some(value)
}

// The number with one more digit behind; none where the byte is no digit or the number passes the limit.
fn with_digit(value: u64, digit: u8, limit: u64) -> Option<u64>
    ensures { MatchOption result (is_ascii_digit digit ≡ true → limit < value * 10 + (digit - 48))
        (λ next. (is_ascii_digit digit ≡ true) × (next ≡ value * 10 + (digit - 48)) × (next ≤ limit)) }
{
    if !digit.is_ascii_digit() {
        return None;
    }
    let next = value.checked_mul(10)?.checked_add(u64::from(digit - b'0'))?;
    if next <= limit { Some(next) } else { None }
}
