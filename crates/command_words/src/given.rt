// What the words behind a command's name give.
ghost use Rattle.std.specs.Prelude.{◌≡◌, ◌≢◌, ◌++◌, ◌∷◌, [], List, ℕ, length, Option, None, Some, IsSome, IfSome, IfNone, MatchOption, if◌then◌else◌, true, false};
ghost use Rattle.std.specs.Fmt.{decimal};
ghost use Rattle.command_words.specs.Table.{same_option, same_flag, InRange};
ghost use Rattle.command_words.specs.Splits.{Item as PlainItem, Splits, item_of};
ghost use Rattle.command_words.specs.Arguments.{words_of, given_number, number_of, given_flag, Give, AreArguments, MayBe};
ghost use Rattle.command_words.specs.declared.table.OptionName as options;
ghost use Rattle.command_words.specs.declared.table.FlagName as flags;

use crate::item::{Item, next_item};
use crate::number::number_up_to;
use crate::table::{CommandName, FlagName, OptionName};
use lists::Text;

/// Positionals, in their order. No command has more than three.
#[derive(Clone, Copy)]
pub enum Positionals<'a> {
    Zero,
    One(&'a Text),
    Two(&'a Text, &'a Text),
    Three(&'a Text, &'a Text, &'a Text),
}

/// The positionals, the number of each option that is given, and whether each flag is.
#[derive(Clone, Copy)]
pub struct Arguments<'a> {
    pub positionals: Positionals<'a>,
    pub firings: Option<u32>,
    pub search: Option<u32>,
    pub workers: Option<u32>,
    pub calls: Option<u32>,
    pub verify: bool,
}

/// The arguments that the words behind a command's name give; none where they can be no command's.
pub fn read_arguments<'a>(name: CommandName, words: &'a [Text]) -> Option<Arguments<'a>>
    ensures some { IfSome result (AreArguments name words.now) }
    ensures none { IfNone result ((items : List PlainItem) → Splits name words.now items → MayBe items → ⊥) }
{
    let mut arguments = Arguments {
        positionals: Positionals::Zero,
        firings: None,
        search: None,
        workers: None,
        calls: None,
        verify: false,
    };
    let mut left = words;
    while !left.is_empty() {
        let (item, after) = next_item(name, left)?;
        arguments = arguments.with(item)?;
        left = after;
    }
    Some(arguments)
}

impl<'a> Positionals<'a> {
    // One more positional.
    fn with(self, word: &'a Text) -> Option<Positionals<'a>>
        ensures { MatchOption result (length (words_of self.entry) ≡ 3) (λ more. words_of more ≡ words_of self.entry ++ word.now ∷ []) }
    {
        match self {
            Positionals::Zero => Some(Positionals::One(word)),
            Positionals::One(first) => Some(Positionals::Two(first, word)),
            Positionals::Two(first, second) => Some(Positionals::Three(first, second, word)),
            Positionals::Three(_, _, _) => None,
        }
    }
}

impl<'a> Arguments<'a> {
    /// The number of an option, which is its default where it is not given.
    pub fn number_of(self, option: OptionName) -> u32
        ensures { result ≡ number_of option self.entry }
    {
        self.given_number(option).unwrap_or(option.default_number())
    }

    // The number that is given for an option.
    fn given_number(self, option: OptionName) -> Option<u32>
        ensures { result ≡ given_number option self.entry }
    {
        match option {
            OptionName::Firings => self.firings,
            OptionName::Search => self.search,
            OptionName::Workers => self.workers,
            OptionName::Calls => self.calls,
        }
    }

    // One more item; none where no command has such items.
    fn with(self, item: Item<'a>) -> Option<Arguments<'a>>
        ensures some { IfSome result (λ more. (items : List PlainItem) → Give items self.entry → Give (items ++ item_of item.entry ∷ []) more) }
        ensures none { IfNone result ((items rest : List PlainItem) → Give items self.entry → MayBe (items ++ item_of item.entry ∷ rest) → ⊥) }
    {
        match item {
            Item::Positional(word) => Some(Arguments {
                positionals: self.positionals.with(word)?,
                ..self
            }),
            Item::Given(option, text) => self.with_number(option, number_in_range(option, text)?),
            Item::Raised(flag) => self.with_flag(flag),
        }
    }

    // An option with its number; none where it is given already.
    fn with_number(self, option: OptionName, number: u32) -> Option<Arguments<'a>>
        ensures given { MatchOption result (IsSome (given_number option self.entry)) (λ more. given_number option self.entry ≡ None) }
        ensures positionals { IfSome result (λ more. more.positionals ≡ self.entry.positionals) }
        ensures numbers { IfSome result (λ more. (other : options.OptionName) →
            given_number other more ≡ (if same_option other option then Some number else given_number other self.entry)) }
        ensures flags { IfSome result (λ more. (flag : flags.FlagName) → given_flag flag more ≡ given_flag flag self.entry) }
    {
        match (option, self.given_number(option)) {
            (OptionName::Firings, None) => Some(Arguments {
                firings: Some(number),
                ..self
            }),
            (OptionName::Search, None) => Some(Arguments {
                search: Some(number),
                ..self
            }),
            (OptionName::Workers, None) => Some(Arguments {
                workers: Some(number),
                ..self
            }),
            (OptionName::Calls, None) => Some(Arguments {
                calls: Some(number),
                ..self
            }),
            _ => None,
        }
    }

    // One more flag; none where it is given already.
    fn with_flag(self, flag: FlagName) -> Option<Arguments<'a>>
        ensures given { MatchOption result (given_flag flag self.entry ≡ true) (λ more. given_flag flag self.entry ≡ false) }
        ensures positionals { IfSome result (λ more. more.positionals ≡ self.entry.positionals) }
        ensures numbers { IfSome result (λ more. (option : options.OptionName) → given_number option more ≡ given_number option self.entry) }
        ensures flags { IfSome result (λ more. (other : flags.FlagName) →
            given_flag other more ≡ (if same_flag other flag then true else given_flag other self.entry)) }
    {
        match (flag, self.verify) {
            (FlagName::Verify, false) => Some(Arguments {
                verify: true,
                ..self
            }),
            _ => None,
        }
    }
}

// The number in the option's range that is written so.
fn number_in_range(option: OptionName, text: &[u8]) -> Option<u32>
    ensures { MatchOption result ((n : ℕ) → InRange option n → text.now ≢ decimal n) (λ n. (text.now ≡ decimal n) × InRange option n) }
{
    let number = number_up_to(text, option.limit())?;
    if number < option.least() {
        None
    } else {
        Some(number)
    }
}
