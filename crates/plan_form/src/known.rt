// The known constants, among which a text is found by bisection where they ascend.
ghost use Rattle.std.specs.Prelude.{◌≡◌};
ghost use Rattle.plan_form.specs.Judging.{has_text};

use lists::Text;
use std::marker::Model;

/// Constants, and whether they ascend. Contracts see the list of the constants.
#[derive(Drop)]
pub struct Known<'a> {
    texts: &'a [Text],
    ascending: bool,
}

impl<'a> Model for Known<'a> {
    ghost use Rattle.std.specs.Prelude.{◌≡◌, List, ℕ, true};
    ghost use Rattle.plan_form.specs.Judging.{Ascend};

    ghost Value = { List (List ℕ) };

    ghost view = { λ k. k.texts.now };

    ghost invariant = { λ k. k.ascending ≡ true → Ascend k.texts.now };
}

impl<'a> Known<'a> {
    /// These constants. Whether they ascend is tested in one pass.
    pub fn new(texts: &'a [Text]) -> Known<'a>
        ensures { result ≡ texts.now }
    {
        Known {
            texts,
            ascending: texts.is_sorted(),
        }
    }

    /// Whether the text is one of them.
    pub fn has(&self, text: &Text) -> bool
        ensures { result ≡ has_text self.now text.now }
    {
        if !self.ascending {
            return is_one_of(self.texts, text);
        }
        match self.texts.binary_search(text) {
            Ok(_) => true,
            Err(_) => false,
        }
    }
}

// Whether the text is one of these, in any order.
fn is_one_of(texts: &[Text], text: &Text) -> bool
    ensures { result ≡ has_text texts.now text.now }
{
    let mut left = texts;
    while let [first, rest @ ..] = left {
        if *first == *text {
            return true;
        }
        left = rest;
    }
    false
}
