// The version of a text.
ghost use Rattle.std.specs.Prelude.{◌≡◌, Some, None, option_map, if◌then◌else◌};
ghost use Rattle.tgd_reader.specs.Version.{is_two, says_version, behind_version, told_version};

use pq_text::{Lexeme, Line};

// Whether the lines are of version 2, and the lines of declarations: those behind the line that names it, or all.
pub fn version_and_rest(lines: &[Line]) -> (bool, &[Line])
    ensures sorts { result.0 ≡ (told_version lines.now).0 }
    ensures lines { result.1.now ≡ (told_version lines.now).1 }
{
    match lines_behind(lines) {
        Some(behind) => (true, behind),
        None => (false, lines),
    }
}

// The lines behind the first that has tokens, where that is the line `schema 2`.
fn lines_behind(lines: &[Line]) -> Option<&[Line]>
    ensures { option_map (λ behind. behind.now) result ≡ behind_version lines.now }
{
    let mut left = lines;
    while let [line, behind @ ..] = left {
        if let [_, ..] = line.tokens.as_slice() {
            return behind_if(names_version(line.tokens.as_slice()), behind);
        }
        left = behind;
    }
    None
}

fn behind_if(named: bool, behind: &[Line]) -> Option<&[Line]>
    ensures { option_map (λ behind. behind.now) result ≡ if named then Some behind.now else None }
{
    if named { Some(behind) } else { None }
}

fn names_version(tokens: &[Lexeme]) -> bool
    ensures { result ≡ says_version tokens.now }
{
    match tokens {
        [word, number @ ..] => word.is_word(b"schema") && is_number_two(number),
        [] => false,
    }
}

fn is_number_two(tokens: &[Lexeme]) -> bool
    ensures { result ≡ is_two tokens.now }
{
    let two: &[u8] = b"2";
    match tokens {
        [number, rest @ ..] => number.is_number()
            && number.text.as_bytes() == two
            && rest.is_empty(),
        [] => false,
    }
}
