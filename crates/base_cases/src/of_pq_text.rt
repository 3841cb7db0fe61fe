// Texts cut into tokens, and the first fault of others.
use lists::NoMemory;
use pq_text::{LexFault, Lexeme, Style, TokenKind, lexemes, tokens};
use std::alloc::Global;
use std::test::*;

fn letter(kind: TokenKind) -> &'static str {
    match kind {
        TokenKind::Word => "w ",
        TokenKind::Quoted => "q ",
        TokenKind::Text => "t ",
        TokenKind::Number => "n ",
        TokenKind::Symbol => "s ",
        TokenKind::Eol => "e ",
    }
}

/// What the tokens stand for, each behind the first letter of its kind, and with a bar behind it.
fn spell(alloc: Global, lexemes: &[Lexeme]) -> Result<String, NoMemory> {
    let mut made = String::new(alloc);
    for lexeme in lexemes {
        made.push_str(letter(lexeme.kind))?;
        made.push_str(lexeme.text.as_str())?;
        made.push('|')?;
    }
    Ok(made)
}

fn spelled(alloc: Global, text: &str, style: Style) -> Result<String, NoMemory> {
    if text.len() > 1000 {
        return Err(NoMemory);
    }
    match tokens(alloc, text, style) {
        Ok(tokens) => spell(alloc, lexemes(alloc, text, tokens.as_slice())?.as_slice()),
        Err(_) => Ok(String::new(alloc)),
    }
}

#[test]
fn texts_are_cut_into_tokens(rt: HostRuntime) -> Result<(), Fail> {
    let cases = [
        (
            "Relation r_1 _x 007 9a\r\t",
            Style::Lines,
            "w relation|w r_1|w _x|n 007|n 9|w a|",
        ),
        ("SELECT\n", Style::Sql, "w select|"),
        (
            "'it''s' '' \"A \"\"b\"\"\" 'é\n'",
            Style::Lines,
            "t it's|t |q A \"b\"|t é\n|",
        ),
        (
            "<=<>!=->>=-<*+/|$.:;=(),>",
            Style::Sql,
            "s <=|s <>|s !=|s ->|s >=|s -|s <|s *|s +|s /|s ||s $|s .|s :|s ;|s =|s (|s )|s ,|s >|",
        ),
        ("a # ' \" %\nb", Style::Lines, "w a|e \n|w b|"),
        ("a -- ' \" %\nb-c", Style::Sql, "w a|w b|s -|w c|"),
        ("a--b", Style::Lines, "w a|s -|s -|w b|"),
    ];
    for (text, style, wanted) in cases {
        assert_eq!(rt; spelled(rt.alloc(), text, style)?.as_str(), wanted);
    }
    Ok(())
}

/// The first fault of the lines of a text.
fn fault(alloc: Global, text: &str) -> Option<LexFault> {
    if text.len() > 1000 {
        return None;
    }
    tokens(alloc, text, Style::Lines).err()
}

#[test]
fn the_longest_token_comes_before_an_open_quote(rt: HostRuntime) {
    let table = [
        ("'a''", LexFault::OpenQuote { offset: 3 }),
        ("'''", LexFault::OpenQuote { offset: 2 }),
        ("\"a\"\" b", LexFault::OpenQuote { offset: 3 }),
        ("\"\"\"a\"\" b", LexFault::OpenQuote { offset: 5 }),
        ("x \"\" y", LexFault::BadByte { offset: 2 }),
        ("\"\"\"", LexFault::BadByte { offset: 0 }),
        ("r('x", LexFault::OpenQuote { offset: 2 }),
        ("a %'", LexFault::BadByte { offset: 2 }),
        ("é", LexFault::BadByte { offset: 0 }),
        ("!", LexFault::BadByte { offset: 0 }),
    ];
    for (text, wanted) in table {
        assert_eq!(rt; fault(rt.alloc(), text), Some(wanted), "{text}");
    }
}
