// Forms of members, which stand in a list with a comma between two.
ghost use Rattle.std.specs.Prelude.{List, Option};
ghost use Rattle.pq_text.specs.Lexemes.{Gives, name_at, value_at};
ghost use Rattle.pq_text.specs.declared.lexeme.Lexeme.{Lexeme};

use crate::cursor::{Cursor, Misfit};
use lists::Text;
use std::alloc::Global;

/// A form of members.
pub trait Form {
    /// What a member is read as.
    type Member: Drop;

    /// what is read at tokens, with the tokens behind it
    ghost at: { Self → List Lexeme → Option (Self.Member × List Lexeme) };

    /// Takes a member.
    fn take(&self, alloc: Global, cursor: &mut Cursor<'_>) -> Result<Self::Member, Misfit>
        ensures { Gives cursor.new result (at self.now cursor.old) };
}

/// The form of a name.
pub(crate) struct NameForm;

impl Form for NameForm {
    type Member = Text;

    ghost at = { λ form. name_at };

    fn take(&self, alloc: Global, cursor: &mut Cursor<'_>) -> Result<Text, Misfit> {
        cursor.name(alloc)
    }
}

/// The form of a value.
pub(crate) struct ValueForm;

impl Form for ValueForm {
    type Member = Text;

    ghost at = { λ form. value_at };

    fn take(&self, alloc: Global, cursor: &mut Cursor<'_>) -> Result<Text, Misfit> {
        cursor.value(alloc)
    }
}
