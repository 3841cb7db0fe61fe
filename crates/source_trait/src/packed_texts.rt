// Texts that lie one after another in one buffer.
ghost use Rattle.std.specs.Prelude.{◌≡◌, ◌≤◌, ◌-◌, ◌++◌, [], length, take, drop, IfOk, IsUtf8, OnOk, OnErr};
ghost use Rattle.csv.specs.Records.{AllText, Rising, cut_from};
ghost use Rattle.source_trait.specs.RequestLog.{ArePacked};

use lists::{Row, Text};
use std::alloc::{AllocError, Global};
use std::marker::Model;
use std::str;

/// Texts, whose bytes lie in one buffer. A text has no memory of its own.
#[derive(Drop)]
pub struct PackedTexts {
    // the bytes of all texts, one after another
    bytes: Vec<u8>,
    // how many bytes there are up to the end of each text
    ends: Vec<usize>,
}

impl Model for PackedTexts {
    ghost use Rattle.std.specs.Prelude.{List, ℕ};
    ghost use Rattle.csv.specs.Records.{cut_from};
    ghost use Rattle.source_trait.specs.RequestLog.{ArePacked};

    ghost Value = { List (List ℕ) };

    ghost view = { λ p. cut_from 0 p.ends.items p.bytes.items };

    ghost invariant = { λ p. ArePacked p.ends.items p.bytes.items (cut_from 0 p.ends.items p.bytes.items) };
}

impl PackedTexts {
    /// No texts. Takes no memory.
    pub(crate) fn new(alloc: Global) -> PackedTexts
        ensures { result ≡ [] }
    {
        PackedTexts {
            bytes: Vec::new(alloc),
            ends: Vec::new(alloc),
        }
    }

    /// Adds copies of all these texts, or where memory is refused of none.
    pub(crate) fn push_all(&mut self, texts: &[Text]) -> Result<(), AllocError>
        ensures added { OnOk result (self.new ≡ self.old ++ texts.now) }
        ensures stays { OnErr result (self.new ≡ self.old) }
    {
        let size = self.bytes.len();
        let count = self.ends.len();
        match add_texts(&mut self.bytes, &mut self.ends, texts) {
            Ok(()) => Ok(()),
            Err(_) => {
                self.bytes.truncate(size);
                self.ends.truncate(count);
                Err(AllocError)
            }
        }
    }

    /// Copies of the texts, in order.
    pub(crate) fn texts(&self, alloc: Global) -> Result<Row, AllocError>
        ensures { IfOk result (λ texts. texts ≡ self.now) }
    {
        let texts = copies(alloc, self.bytes.as_slice(), self.ends.as_slice())?;
        Ok(Row::from_vec(texts))
    }
}

// Adds texts behind those that are there. Where memory is refused, some of them may be added.
fn add_texts(bytes: &mut Vec<u8>, ends: &mut Vec<usize>, texts: &[Text]) -> Result<(), AllocError>
    requires { ArePacked ends.old.items bytes.old.items (cut_from 0 ends.old.items bytes.old.items) }
    ensures added { OnOk result (ArePacked ends.new.items bytes.new.items (cut_from 0 ends.old.items bytes.old.items ++ texts.now)) }
    ensures bytes { take (length bytes.old.items) bytes.new.items ≡ bytes.old.items }
    ensures ends { take (length ends.old.items) ends.new.items ≡ ends.old.items }
{
    for text in texts {
        bytes.extend_from_slice(text.as_str().as_bytes())?;
        ends.push(bytes.len())?;
    }
    Ok(())
}

// Copies of the texts that lie in these bytes and end at these ends.
fn copies(alloc: Global, bytes: &[u8], ends: &[usize]) -> Result<Vec<Text>, AllocError>
    requires rising { Rising 0 ends.now (length bytes.now) }
    requires text { AllText (cut_from 0 ends.now bytes.now) }
    ensures { IfOk result (λ texts. texts.items ≡ cut_from 0 ends.now bytes.now) }
{
    let mut texts = Vec::with_capacity(alloc, ends.len())?;
    let mut start = 0;
    let mut left = ends;
    while let [end, rest @ ..] = left {
        texts.push(text_between(alloc, bytes, start, *end)?)?;
        start = *end;
        left = rest;
    }
    Ok(texts)
}

// The text from one byte up to another.
fn text_between(alloc: Global, bytes: &[u8], start: usize, end: usize) -> Result<Text, AllocError>
    requires order { start ≤ end }
    requires within { end ≤ length bytes.now }
    requires text { IsUtf8 (take (end - start) (drop start bytes.now)) }
    ensures { IfOk result (λ text. text ≡ take (end - start) (drop start bytes.now)) }
{
    match str::from_utf8(&bytes[start..end]) {
        Ok(text) => Text::from_str(alloc, text),
        Err(_) => unreachable!(),
    }
}
