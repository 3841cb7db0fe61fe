// The commands, the options and the flags: a command's word and what it takes; an option's word, limit and default; a flag's word.
ghost use Rattle.std.specs.Prelude.{◌≡◌, ◌≢◌, ◌≤◌, ℕ, MatchOption};
ghost use Rattle.command_words.specs.Table.{command_word, option_word, takes, least, limit, default_number, flag_word, takes_flag};
ghost use Rattle.command_words.specs.declared.table.CommandName as commands;
ghost use Rattle.command_words.specs.declared.table.OptionName as options;
ghost use Rattle.command_words.specs.declared.table.FlagName as flags;

/// A command without what it is given.
#[derive(Clone, Copy)]
pub enum CommandName {
    Help,
    Schema,
    Explain,
    Run,
    Batch,
    Exec,
    Check,
    Verify,
    Crawl,
    Reach,
    World,
}

/// An option that takes a number.
#[derive(Clone, Copy)]
pub enum OptionName {
    Firings,
    Search,
    Workers,
    Calls,
}

/// An option without a number: its word is there, or it is not.
#[derive(Clone, Copy)]
pub enum FlagName {
    Verify,
}

/// The command with this word.
pub fn command_named(word: &str) -> Option<CommandName>
    ensures { MatchOption result ((name : commands.CommandName) → word.now ≢ command_word name) (λ name. word.now ≡ command_word name) }
{
    match word {
        "help" => Some(CommandName::Help),
        "schema" => Some(CommandName::Schema),
        "explain" => Some(CommandName::Explain),
        "run" => Some(CommandName::Run),
        "batch" => Some(CommandName::Batch),
        "exec" => Some(CommandName::Exec),
        "check" => Some(CommandName::Check),
        "verify" => Some(CommandName::Verify),
        "crawl" => Some(CommandName::Crawl),
        "reach" => Some(CommandName::Reach),
        "world" => Some(CommandName::World),
        _ => None,
    }
}

/// The option with this word, which stands behind two dashes.
pub fn option_named(word: &[u8]) -> Option<OptionName>
    ensures { MatchOption result ((option : options.OptionName) → word.now ≢ option_word option) (λ option. word.now ≡ option_word option) }
{
    match word {
        b"firings" => Some(OptionName::Firings),
        b"search" => Some(OptionName::Search),
        b"workers" => Some(OptionName::Workers),
        b"calls" => Some(OptionName::Calls),
        _ => None,
    }
}

/// The flag with this word, which stands behind two dashes.
pub fn flag_named(word: &[u8]) -> Option<FlagName>
    ensures { MatchOption result ((flag : flags.FlagName) → word.now ≢ flag_word flag) (λ flag. word.now ≡ flag_word flag) }
{
    match word {
        b"verify" => Some(FlagName::Verify),
        _ => None,
    }
}

impl CommandName {
    /// Whether the command takes the option.
    pub fn takes(self, option: OptionName) -> bool
        ensures { result ≡ takes self option }
    {
        match self {
            CommandName::Help | CommandName::Schema | CommandName::Verify => false,
            CommandName::Explain => matches!(option, OptionName::Firings | OptionName::Search),
            CommandName::Run | CommandName::Batch => true,
            CommandName::Exec => matches!(option, OptionName::Workers | OptionName::Calls),
            CommandName::Check => matches!(option, OptionName::Firings),
            CommandName::Crawl => matches!(option, OptionName::Workers | OptionName::Calls),
            CommandName::Reach => matches!(option, OptionName::Workers | OptionName::Calls),
            CommandName::World => matches!(option, OptionName::Workers),
        }
    }

    /// Whether the command takes the flag.
    pub fn takes_flag(self, flag: FlagName) -> bool
        ensures { result ≡ takes_flag self flag }
    {
        match (self, flag) {
            (CommandName::Run, FlagName::Verify) => true,
            _ => false,
        }
    }
}

impl OptionName {
    /// The least number that the option takes.
    pub fn least(self) -> u32
        ensures { result ≡ least self }
    {
        match self {
            OptionName::Firings | OptionName::Search | OptionName::Calls => 0,
            OptionName::Workers => 1,
        }
    }

    /// The greatest number that the option takes.
    pub fn limit(self) -> u32
        ensures { result ≡ limit self }
    {
        match self {
            OptionName::Firings => 100_000,
            OptionName::Search | OptionName::Calls => 1_000_000,
            OptionName::Workers => 8,
        }
    }

    /// The number of the option where it is not given.
    pub fn default_number(self) -> u32
        ensures { result ≡ default_number self }
    {
        match self {
            OptionName::Firings | OptionName::Search => 10_000,
            OptionName::Workers => 1,
            OptionName::Calls => 100_000,
        }
    }
}
