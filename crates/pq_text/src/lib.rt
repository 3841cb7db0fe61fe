//! Tokens of a text, what they stand for, its lines, the reader over them, and the printing of names and values.
//!
//! Crates above use this: the tokens of a text are exactly those of its grammar, with the fault at the first place that
//! begins none, and a printed name or value is lexed as itself. Begin at `specs/Tokens.antt`.
#![tactic(auto)]

mod cursor;
mod cut;
mod form;
mod laws;
mod lexeme;
mod listed;
mod number;
mod print;
mod scan;
mod stand;
mod token;
mod utf8;

pub use cursor::{Cursor, Misfit};
pub use cut::{next_line, text_lines};
pub use form::Form;
pub use laws::{printed_lines_are_read, printed_names_are_read, printed_values_are_read};
pub use lexeme::{Lexeme, Lexemes, Line, Lines, TextLines};
pub use listed::{Prints, print_listed, print_values};
pub use number::{plain_number, print_number, value_up_to};
pub use print::{print_name, print_value};
pub use scan::{Found, front_tokens, tokens};
pub use stand::{lexeme_of, lexemes, written};
pub use token::{LexFault, Lexed, Stop, Style, Token, TokenKind, Tokens};
pub use utf8::read_utf8;
