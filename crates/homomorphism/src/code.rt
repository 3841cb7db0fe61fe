// Codes of keys: numbers that tell nearly all of them apart.
ghost use Rattle.std.specs.Prelude.{◌≡◌};
ghost use Rattle.homomorphism.specs.Codes.{mixed, val_code, place_code, key_code};

use crate::key::Key;
use lists::mix;
use meaning::types::Val;

/// A code of the value: of a text a hash, and of a label its number. Takes no memory.
fn val_code(val: &Val) -> u64
    ensures { result ≡ val_code val.now }
{
    match val {
        Val::Const(text) => mix(14695981039346656037, text.as_bytes()),
        Val::Label(label) => u64::from(*label),
    }
}

/// A code with a number mixed in. Takes no memory.
fn mixed(code: u64, number: u64) -> u64
    ensures { result ≡ mixed code number }
{
    code.wrapping_mul(11400714819323198485).wrapping_add(number)
}

/// A code of the position of the relation. Takes no memory.
pub fn place_code(rel: u32, position: usize) -> u64
    ensures { result ≡ place_code rel position }
{
    mixed(mixed(1, u64::from(rel)), position as u64)
}

/// A code of the key. Takes no memory.
#[tactic(auto, unfolding(crate::specs::Codes::key_code))]
pub fn key_code(key: &Key) -> u64
    ensures { result ≡ key_code key.now }
{
    match key {
        Key::Relation(rel) => u64::from(*rel),
        Key::Value { rel, position, val } => { mixed(place_code(*rel, *position), val_code(val)) }
    }
}
