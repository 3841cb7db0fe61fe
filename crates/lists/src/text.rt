// A name or a value.
ghost use Rattle.std.specs.Prelude.{◌≡◌, ◌↔◌, List, ℕ, IfOk, string_bytes, Some, refl, IsTrue, nat_eq};
ghost use Rattle.std.specs.Arc.{arc_str_bytes};
ghost use Rattle.std.specs.Cmp;
ghost use Rattle.std.specs.Cmp.Lexicographic.{pointwise, slice_cmp, nat_list_eq_equiv, nat_list_cmp_total, texts_ties, texts_po};
ghost use Rattle.std.specs.Ordering.{nat_cmp};

use crate::copies::Copies;
use crate::exact::Exact;
use std::alloc::{AllocError, Global};
use std::cmp::Ordering;
use std::fmt;
use std::marker::Model;
use std::sync::ArcStr;

/// A UTF-8 text that contracts see as its bytes. Texts are compared byte by byte.
///
/// A text never changes, so all its copies share its bytes: a copy takes no memory, however long the text is.
#[derive(Drop)]
pub struct Text {
    inner: ArcStr,
}

impl Model for Text {
    ghost use Rattle.std.specs.Prelude.{List, ℕ};
    ghost use Rattle.std.specs.Arc.{arc_str_bytes};

    ghost Value = { List ℕ };

    ghost view = { λ t. arc_str_bytes t.inner };
}

impl Text {
    /// The text of a string, which is taken over.
    pub fn from_string(text: String) -> Result<Text, AllocError>
        ensures { IfOk result (λ t. t ≡ string_bytes text) }
    {
        Ok(Text {
            inner: ArcStr::from_string(text)?,
        })
    }

    /// A text with a copy of these characters.
    pub fn from_str(alloc: Global, text: &str) -> Result<Text, AllocError>
        ensures { IfOk result (λ t. t ≡ text.now) }
    {
        Ok(Text {
            inner: ArcStr::from_str(alloc, text)?,
        })
    }

    /// The characters, lent. Takes no memory.
    pub fn as_str(&self) -> &str
        ensures { result.now ≡ self.now }
    {
        self.inner.as_str()
    }

    /// The bytes, lent. Takes no memory.
    pub fn as_bytes(&self) -> &[u8]
        ensures { result.now ≡ self.now }
    {
        self.as_str().as_bytes()
    }
}

impl Copies for Text {
    fn copy(&self, _alloc: Global) -> Result<Text, AllocError> {
        Ok(Text {
            inner: self.inner.clone()?,
        })
    }
}

impl Exact for Text {
    fn same(&self, other: &Text) -> bool {
        self.as_str() == other.as_str()
    }
}

impl PartialEq for Text {
    ghost eq = { pointwise nat_eq };

    ghost laws = { Cmp.partial_equiv_from_equiv nat_list_eq_equiv };

    fn eq(&self, other: &Text) -> bool {
        self.as_str() == other.as_str()
    }
}

impl Eq for Text {
    ghost laws = { nat_list_eq_equiv };
}

impl PartialOrd for Text {
    ghost partial_cmp = { λ x y. Some (slice_cmp nat_cmp x y) };

    ghost laws = { texts_po };

    fn partial_cmp(&self, other: &Text) -> Option<Ordering> {
        Some(self.cmp(other))
    }
}

impl Ord for Text {
    ghost cmp = { slice_cmp nat_cmp };

    ghost total = { nat_list_cmp_total };

    ghost matches_partial_cmp = { λ x y. refl };

    ghost matches_eq = { texts_ties };

    fn cmp(&self, other: &Text) -> Ordering {
        self.as_str().cmp(other.as_str())
    }
}

impl fmt::Debug for Text {
    fn fmt<W: fmt::Write>(&self, f: &mut fmt::Formatter<W>) -> fmt::Result {
        self.as_str().fmt(f)
    }
}
