// Integers of 64 bits as values.
ghost use Rattle.std.specs.Prelude.{◌↔◌, IsTrue};
ghost use Rattle.meaning.specs.Integers.{IsInteger};

use lists::decimal_up_to;

/// The greatest integer.
const GREATEST: u64 = 9_223_372_036_854_775_807;

/// The digits of the least integer, as a number.
const LEAST: u64 = 9_223_372_036_854_775_808;

/// Whether the value is an integer of 64 bits, spelled without a plus sign, leading zeros or spaces. Takes no memory.
pub fn is_integer(text: &[u8]) -> bool
    ensures { IsTrue result ↔ IsInteger text.now }
{
    match text {
        [b'-', digits @ ..] => match decimal_up_to(digits, LEAST) {
            Some(number) => number != 0,
            None => false,
        },
        digits => decimal_up_to(digits, GREATEST).is_some(),
    }
}
