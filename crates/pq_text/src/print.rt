// Names and values as text.
ghost use Rattle.std.specs.Prelude.{◌≡◌, ◌++◌, OnOk};
ghost use Rattle.pq_text.specs.Tokens.{is_digit};
ghost use Rattle.pq_text.specs.Utf8.{KeepsUtf8};
ghost use Rattle.pq_text.specs.Printing.{is_small, all_small, is_bare, doubled, between, printed_name, printed_value};

use lists::Text;
use std::alloc::AllocError;

fn is_small(b: u8) -> bool
    ensures { result ≡ is_small b }
{
    (b >= b'a' && b <= b'z') || b == b'_'
}

fn is_digit(b: u8) -> bool
    ensures { result ≡ is_digit b }
{
    b >= b'0' && b <= b'9'
}

fn all_small(bytes: &[u8]) -> bool
    ensures { result ≡ all_small bytes.now }
{
    let mut left = bytes;
    while let [b, after @ ..] = left {
        if !is_small(*b) && !is_digit(*b) {
            return false;
        }
        left = after;
    }
    true
}

fn is_bare(name: &[u8]) -> bool
    ensures { result ≡ is_bare name.now }
{
    match name {
        [] => false,
        [b, after @ ..] => is_small(*b) && all_small(after),
    }
}

fn push_doubled(out: &mut Vec<u8>, quote: u8, bytes: &[u8]) -> Result<(), AllocError>
    ensures { OnOk result (out.new.items ≡ out.old.items ++ doubled quote bytes.now) }
{
    let mut left = bytes;
    while let [b, after @ ..] = left {
        out.push(*b)?;
        if *b == quote {
            out.push(quote)?;
        }
        left = after;
    }
    Ok(())
}

fn push_between(out: &mut Vec<u8>, quote: u8, bytes: &[u8]) -> Result<(), AllocError>
    ensures { OnOk result (out.new.items ≡ out.old.items ++ between quote bytes.now) }
{
    out.push(quote)?;
    push_doubled(out, quote, bytes)?;
    out.push(quote)?;
    Ok(())
}

/// Writes a name: bare where it has the form of a word without capitals, and in double quotes otherwise.
pub fn print_name(out: &mut Vec<u8>, name: &Text) -> Result<(), AllocError>
    ensures written { OnOk result (out.new.items ≡ out.old.items ++ printed_name name.now) }
    ensures utf8 { OnOk result (KeepsUtf8 out.old.items out.new.items) }
{
    push_name(out, name.as_str())
}

fn push_name(out: &mut Vec<u8>, name: &str) -> Result<(), AllocError>
    ensures { OnOk result (out.new.items ≡ out.old.items ++ printed_name name.now) }
{
    let bytes = name.as_bytes();
    if is_bare(bytes) {
        out.extend_from_slice(bytes)?;
        Ok(())
    } else {
        push_between(out, b'"', bytes)
    }
}

/// Writes a value in single quotes.
pub fn print_value(out: &mut Vec<u8>, value: &Text) -> Result<(), AllocError>
    ensures written { OnOk result (out.new.items ≡ out.old.items ++ printed_value value.now) }
    ensures utf8 { OnOk result (KeepsUtf8 out.old.items out.new.items) }
{
    let text = value.as_str();
    push_between(out, b'\'', text.as_bytes())
}
