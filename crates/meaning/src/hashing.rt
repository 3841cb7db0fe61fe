// Labelled facts as the keys of a set: what they feed a hasher.
ghost use Rattle.meaning.specs.Feeding.{val_input, fact_input, val_alike, fact_alike};

use crate::types::{Ground, Val};
use std::hash::{Hash, Hasher};

/// What stands behind a text up to the next whole word: a byte that no text has, and zeros.
const PADDING: [u8; 8] = [255, 0, 0, 0, 0, 0, 0, 0];

impl Hash for Val {
    ghost hash_input = { val_input };

    ghost respects_eq = { val_alike.fed };

    fn hash<H: Hasher>(&self, state: &mut H) {
        match self {
            Val::Const(text) => {
                let bytes = text.as_bytes();
                state.write(bytes);
                state.write(&PADDING[..8 - bytes.len() % 8]);
            }
            Val::Label(label) => state.write_u64(u64::MAX - u64::from(*label)),
        }
    }
}

impl Hash for Ground {
    ghost hash_input = { fact_input };

    ghost respects_eq = { fact_alike.fed };

    fn hash<H: Hasher>(&self, state: &mut H) {
        state.write_u64(u64::from(self.rel));
        self.vals.as_slice().hash(state);
    }
}
