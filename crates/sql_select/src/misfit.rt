// The fault at the token where a text stops being a query.
ghost use Rattle.std.specs.Prelude.{◌<◌, ◌^◌, length};
ghost use Rattle.std.specs.List.{AllByRecursion};
ghost use Rattle.pq_text.specs.Spans.{IsSpan};
ghost use Rattle.sql_select.specs.Misfits.{IsMisfitFault, IsTokenFault};

use crate::fault::SqlFault;
use crate::words::is_refused;
use lists::Text;
use pq_text::{Token, written};
use std::alloc::Global;

/// The fault where these tokens are left: of an unsupported word or symbol, or else of syntax.
pub fn misfit(alloc: Global, text: &str, after: &[Token]) -> SqlFault
    requires short { length text.now < 2 ^ 32 }
    requires spans { AllByRecursion (IsSpan text.now) after.now }
    ensures { IsMisfitFault text.now after.now result }
{
    match after {
        [] => SqlFault::Syntax {
            offset: text.len() as u32,
        },
        [token, ..] => token_fault(alloc, text, *token),
    }
}

fn token_fault(alloc: Global, text: &str, token: Token) -> SqlFault
    requires { IsSpan text.now token }
    ensures { IsTokenFault text.now token result }
{
    let offset = token.start;
    let bytes = written(text, token);
    if !is_refused(token.kind, bytes.as_bytes()) {
        return SqlFault::Syntax { offset };
    }
    match Text::from_str(alloc, bytes) {
        Ok(word) => SqlFault::Unsupported { word, offset },
        Err(_) => SqlFault::NoMemory,
    }
}
