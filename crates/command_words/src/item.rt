// The items of a command line: positionals, options with the texts of their numbers, and flags.
ghost use Rattle.std.specs.Prelude.{◌≡◌, ◌≢◌, ◌<◌, ◌≤◌, ◌++◌, ◌∷◌, List, ℕ, length, codes, IfSome, IfNone, option_map};
ghost use Rattle.command_words.specs.Splits.{Item as PlainItem, Begins, item_of};
ghost use Rattle.command_words.specs.Cuts.{before_equals, behind_equals};
ghost use Rattle.command_words.specs.Table.{flag_word};
ghost use Rattle.command_words.specs.declared.table.FlagName as flags;

use crate::table::{CommandName, FlagName, OptionName, flag_named, option_named};
use lists::Text;

/// A positional, an option with the text of its number, or a flag.
#[derive(Clone, Copy)]
pub enum Item<'a> {
    Positional(&'a Text),
    Given(OptionName, &'a [u8]),
    Raised(FlagName),
}

/// The item that the words begin with, and the words behind it; none where they begin with none.
pub fn next_item<'a>(name: CommandName, words: &'a [Text]) -> Option<(Item<'a>, &'a [Text])>
    ensures some { IfSome result (λ next. Begins name words.now (item_of next.0) next.1.now) }
    ensures shorter { IfSome result (λ next. length next.1.now < length words.now) }
    ensures none { IfNone result ((item : PlainItem) (rest : List (List ℕ)) → Begins name words.now item rest → ⊥) }
{
    let [word, rest @ ..] = words else {
        return None;
    };
    let [first, dashed @ ..] = word.as_bytes() else {
        return None;
    };
    if *first != b'-' {
        return Some((Item::Positional(word), rest));
    }
    let [second, dashed @ ..] = dashed else {
        return None;
    };
    if *second != b'-' {
        return None;
    }
    next_dashed(name, dashed, rest)
}

// The flag or the option whose word goes on so behind its dashes, and the words behind it.
#[tactic(auto, using(crate::proofs::Splitting::refused_flag))]
fn next_dashed<'a>(
    name: CommandName,
    dashed: &'a [u8],
    rest: &'a [Text],
) -> Option<(Item<'a>, &'a [Text])>
    ensures some { IfSome result (λ next. Begins name ((codes "--" ++ dashed.now) ∷ rest.now) (item_of next.0) next.1.now) }
    ensures shorter { IfSome result (λ next. length next.1.now ≤ length rest.now) }
    ensures none { IfNone result ((item : PlainItem) (after : List (List ℕ)) → Begins name ((codes "--" ++ dashed.now) ∷ rest.now) item after → ⊥) }
{
    let Some(flag) = flag_named(dashed) else {
        return next_option(name, dashed, rest);
    };
    if name.takes_flag(flag) {
        Some((Item::Raised(flag), rest))
    } else {
        None
    }
}

// The option whose word goes on so behind its dashes, and the words behind it. No flag has that word.
fn next_option<'a>(
    name: CommandName,
    option: &'a [u8],
    rest: &'a [Text],
) -> Option<(Item<'a>, &'a [Text])>
    requires { (flag : flags.FlagName) → option.now ≢ flag_word flag }
    ensures some { IfSome result (λ next. Begins name ((codes "--" ++ option.now) ∷ rest.now) (item_of next.0) next.1.now) }
    ensures shorter { IfSome result (λ next. length next.1.now ≤ length rest.now) }
    ensures none { IfNone result ((item : PlainItem) (after : List (List ℕ)) → Begins name ((codes "--" ++ option.now) ∷ rest.now) item after → ⊥) }
{
    let (word, text) = cut_at_equals(option);
    let option = option_named(word)?;
    if !name.takes(option) {
        return None;
    }
    match (text, rest) {
        (Some(text), _) => Some((Item::Given(option, text), rest)),
        (None, [text, after @ ..]) => Some((Item::Given(option, text.as_bytes()), after)),
        (None, []) => None,
    }
}

// What stands before the first `=`, or all, and what stands behind it.
fn cut_at_equals(text: &[u8]) -> (&[u8], Option<&[u8]>)
    ensures before { result.0.now ≡ before_equals text.now }
    ensures behind { option_map (λ behind. behind.now) result.1 ≡ behind_equals text.now }
{
    for (place, byte) in text.iter().enumerate() {
        if *byte == b'=' {
            return (&text[..place], Some(&text[place + 1..]));
        }
    }
    (text, None)
}
