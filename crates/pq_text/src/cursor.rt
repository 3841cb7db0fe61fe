// A reader over the tokens that are left of a line.
ghost use Rattle.std.specs.Prelude.{◌≡◌, true, false, IsTrue, None, Some, [], length};
ghost use Rattle.pq_text.specs.Lexemes.{word_at, symbol_at, name_at, value_at, text_at, number_at, name_next, word_next, end_at, members, names_at, values_at, Gives, GivesRest};
ghost use Rattle.pq_text.specs.declared.cursor.Misfit.TheVariants.{NoMemory};

use crate::form::{Form, NameForm, ValueForm};
use crate::lexeme::Lexeme;
use lists::{Copies, Seq, Text, Texts};
use std::alloc::{AllocError, AllocFailed, Global};
use std::marker::Model;

/// Why tokens are not read: they do not fit the form.
#[derive(Clone, Copy, Debug, PartialEq, Eq)]
pub enum Misfit {
    NoMemory,
    NoFit,
}

impl From<AllocError> for Misfit {
    ghost from_gives = { λ _ e. e ≡ NoMemory };

    fn from(_: AllocError) -> Self {
        Misfit::NoMemory
    }
}

impl<T: Drop> From<AllocFailed<T>> for Misfit {
    ghost from_gives = { λ _ e. e ≡ NoMemory };

    fn from(_: AllocFailed<T>) -> Self {
        Misfit::NoMemory
    }
}

/// A reader over the tokens of a line. Contracts see it as the tokens that are left.
///
/// After a refusal nothing is said of what is left.
#[derive(Drop)]
pub struct Cursor<'a> {
    rest: &'a [Lexeme],
}

impl<'a> Model for Cursor<'a> {
    ghost use Rattle.std.specs.Prelude.{List};
    ghost use Rattle.pq_text.specs.declared.lexeme.Lexeme.{Lexeme};

    ghost Value = { List Lexeme };

    ghost view = { λ c. c.rest.now };
}

impl<'a> Cursor<'a> {
    /// A reader over these tokens.
    pub fn new(rest: &'a [Lexeme]) -> Cursor<'a>
        ensures { result ≡ rest.now }
    {
        Cursor { rest }
    }

    /// Whether the symbol stands next. It is then taken.
    pub fn accept(&mut self, text: &[u8]) -> bool
        ensures taken { IsTrue result → symbol_at text.now self.old ≡ Some self.new }
        ensures other { result ≡ false → symbol_at text.now self.old ≡ None }
        ensures stays { result ≡ false → self.new ≡ self.old }
    {
        if let [token, after @ ..] = self.rest {
            if token.is_symbol(text) {
                self.rest = after;
                return true;
            }
        }
        false
    }

    /// Takes the symbol.
    pub fn symbol(&mut self, text: &[u8]) -> Result<(), Misfit>
        ensures { GivesRest self.new result (symbol_at text.now self.old) }
    {
        match self.rest {
            [token, after @ ..] if token.is_symbol(text) => {
                self.rest = after;
                Ok(())
            }
            _ => Err(Misfit::NoFit),
        }
    }

    /// Takes the word.
    pub fn word(&mut self, text: &[u8]) -> Result<(), Misfit>
        ensures { GivesRest self.new result (word_at text.now self.old) }
    {
        match self.rest {
            [token, after @ ..] if token.is_word(text) => {
                self.rest = after;
                Ok(())
            }
            _ => Err(Misfit::NoFit),
        }
    }

    /// Takes a name.
    pub fn name(&mut self, alloc: Global) -> Result<Text, Misfit>
        ensures { Gives self.new result (name_at self.old) }
    {
        match self.rest {
            [token, after @ ..] if token.is_name() => {
                self.rest = after;
                Ok(token.text.copy(alloc)?)
            }
            _ => Err(Misfit::NoFit),
        }
    }

    /// Takes a value.
    pub fn value(&mut self, alloc: Global) -> Result<Text, Misfit>
        ensures { Gives self.new result (value_at self.old) }
    {
        match self.rest {
            [token, after @ ..] if token.is_value() => {
                self.rest = after;
                Ok(token.text.copy(alloc)?)
            }
            _ => Err(Misfit::NoFit),
        }
    }

    /// Takes a text in single quotes.
    pub fn text(&mut self, alloc: Global) -> Result<Text, Misfit>
        ensures { Gives self.new result (text_at self.old) }
    {
        match self.rest {
            [token, after @ ..] if token.is_text() => {
                self.rest = after;
                Ok(token.text.copy(alloc)?)
            }
            _ => Err(Misfit::NoFit),
        }
    }

    /// Takes a number, as its digits.
    pub fn number(&mut self, alloc: Global) -> Result<Text, Misfit>
        ensures { Gives self.new result (number_at self.old) }
    {
        match self.rest {
            [token, after @ ..] if token.is_number() => {
                self.rest = after;
                Ok(token.text.copy(alloc)?)
            }
            _ => Err(Misfit::NoFit),
        }
    }

    /// Takes members of a form with a comma between two: one or more.
    pub fn members<F: Form>(&mut self, alloc: Global, form: &F) -> Result<Seq<F::Member>, Misfit>
        ensures { Gives self.new result (members (F.at form.now) (length self.old) [] self.old) }
    {
        let mut list = Seq::new(alloc);
        for _ in 0..self.len() {
            list.push(form.take(alloc, self)?)?;
            if !self.accept(b",") {
                return Ok(list);
            }
        }
        Err(Misfit::NoFit)
    }

    /// Takes names with a comma between two: one or more.
    pub fn names(&mut self, alloc: Global) -> Result<Texts, Misfit>
        ensures { Gives self.new result (names_at self.old) }
    {
        self.members(alloc, &NameForm)
    }

    /// Takes values with a comma between two: one or more.
    pub fn values(&mut self, alloc: Global) -> Result<Texts, Misfit>
        ensures { Gives self.new result (values_at self.old) }
    {
        self.members(alloc, &ValueForm)
    }

    /// Whether the word stands next.
    pub fn is_word(&self, text: &[u8]) -> bool
        ensures { result ≡ word_next text.now self.now }
    {
        match self.rest {
            [] => false,
            [token, ..] => token.is_word(text),
        }
    }

    /// Whether a name stands next.
    pub fn is_name(&self) -> bool
        ensures { result ≡ name_next self.now }
    {
        match self.rest {
            [] => false,
            [token, ..] => token.is_name(),
        }
    }

    /// How many tokens are left.
    pub fn len(&self) -> usize
        ensures { result ≡ length self.now }
    {
        self.rest.len()
    }

    /// Refuses where a token is left.
    pub fn end(&self) -> Result<(), Misfit>
        ensures { GivesRest self.now result (end_at self.now) }
    {
        if self.rest.is_empty() {
            Ok(())
        } else {
            Err(Misfit::NoFit)
        }
    }
}
