// The words of a command line.
ghost use Rattle.std.specs.Prelude.{◌≡◌, IfSome, IfNone, option_map};
ghost use Rattle.command_words.specs.Words.{Command as Plain, IsCommand, seen_as, task_seen_as};
ghost use Rattle.command_words.specs.Words.Command.{World};
ghost use Rattle.command_words.specs.Arguments.{made, made_task, words_of, number_of, size_of};
ghost use Rattle.command_words.specs.declared.table.OptionName.TheVariants.{Firings as TheFirings, Search as TheSearch};
ghost use Rattle.command_words.specs.declared.table.OptionName.TheVariants.{Workers as TheWorkers, Calls as TheCalls};

use crate::given::{Arguments, Positionals, read_arguments};
use crate::number::number_up_to;
use crate::table::{CommandName, OptionName, command_named};
use lists::Text;

/// What the words ask for. Names are those of files.
#[derive(Clone, Copy)]
pub enum Command<'a> {
    Help,
    Schema {
        schema: &'a Text,
    },
    Explain {
        schema: &'a Text,
        query: &'a Text,
        firings: u32,
        search: u32,
    },
    Check {
        schema: &'a Text,
        query: &'a Text,
        plan: &'a Text,
        firings: u32,
    },
    Verify {
        schema: &'a Text,
    },
    Calling {
        task: Task<'a>,
        workers: u32,
        calls: u32,
    },
    World {
        size: u32,
        workers: u32,
    },
}

/// A command that takes a number of workers and one of calls.
#[derive(Clone, Copy)]
pub enum Task<'a> {
    Run {
        schema: &'a Text,
        query: &'a Text,
        firings: u32,
        search: u32,
        verify: bool,
    },
    Batch {
        schema: &'a Text,
        queries: &'a Text,
        firings: u32,
        search: u32,
    },
    Exec {
        schema: &'a Text,
        plan: &'a Text,
    },
    Crawl {
        schema: &'a Text,
    },
    Reach {
        schema: &'a Text,
        query: &'a Text,
    },
}

/// The command that the words are; none where they are no command. Takes no memory.
pub fn read_words(words: &[Text]) -> Option<Command<'_>>
    ensures some { IfSome result (λ command. IsCommand words.now (seen_as command)) }
    ensures none { IfNone result ((command : Plain) → IsCommand words.now command → ⊥) }
{
    let [word, behind @ ..] = words else {
        return None;
    };
    let name = command_named(word.as_str())?;
    let arguments = read_arguments(name, behind)?;
    command_with(name, arguments)
}

// The command with these arguments; none where it has another number of positionals.
fn command_with<'a>(name: CommandName, arguments: Arguments<'a>) -> Option<Command<'a>>
    ensures { option_map seen_as result ≡ made name (words_of arguments.entry.positionals)
        (number_of TheFirings arguments.entry) (number_of TheSearch arguments.entry)
        (number_of TheWorkers arguments.entry) (number_of TheCalls arguments.entry) arguments.entry.verify }
{
    if let Some(task) = task_with(name, arguments) {
        return Some(Command::Calling {
            task,
            workers: arguments.number_of(OptionName::Workers),
            calls: arguments.number_of(OptionName::Calls),
        });
    }
    match (name, arguments.positionals) {
        (CommandName::Help, Positionals::Zero) => Some(Command::Help),
        (CommandName::Schema, Positionals::One(schema)) => Some(Command::Schema { schema }),
        (CommandName::Explain, Positionals::Two(schema, query)) => Some(Command::Explain {
            schema,
            query,
            firings: arguments.number_of(OptionName::Firings),
            search: arguments.number_of(OptionName::Search),
        }),
        (CommandName::Check, Positionals::Three(schema, query, plan)) => Some(Command::Check {
            schema,
            query,
            plan,
            firings: arguments.number_of(OptionName::Firings),
        }),
        (CommandName::Verify, Positionals::One(schema)) => Some(Command::Verify { schema }),
        (CommandName::World, Positionals::One(number)) => world_with(number, arguments),
        _ => None,
    }
}

// The task with these arguments; none where the command is no task, or has another number of positionals.
fn task_with<'a>(name: CommandName, arguments: Arguments<'a>) -> Option<Task<'a>>
    ensures { option_map (task_seen_as (number_of TheWorkers arguments.entry) (number_of TheCalls arguments.entry)) result
        ≡ made_task name (words_of arguments.entry.positionals)
        (number_of TheFirings arguments.entry) (number_of TheSearch arguments.entry)
        (number_of TheWorkers arguments.entry) (number_of TheCalls arguments.entry) arguments.entry.verify }
{
    match (name, arguments.positionals) {
        (CommandName::Run, Positionals::Two(schema, query)) => Some(Task::Run {
            schema,
            query,
            firings: arguments.number_of(OptionName::Firings),
            search: arguments.number_of(OptionName::Search),
            verify: arguments.verify,
        }),
        (CommandName::Batch, Positionals::Two(schema, queries)) => Some(Task::Batch {
            schema,
            queries,
            firings: arguments.number_of(OptionName::Firings),
            search: arguments.number_of(OptionName::Search),
        }),
        (CommandName::Exec, Positionals::Two(schema, plan)) => Some(Task::Exec { schema, plan }),
        (CommandName::Crawl, Positionals::One(schema)) => Some(Task::Crawl { schema }),
        (CommandName::Reach, Positionals::Two(schema, query)) => Some(Task::Reach {
            schema,
            query,
        }),
        _ => None,
    }
}

// The world of the size that the text says; none where it says none.
fn world_with<'a>(text: &'a Text, arguments: Arguments<'a>) -> Option<Command<'a>>
    ensures { option_map seen_as result ≡ option_map (λ size. World size (number_of TheWorkers arguments.entry)) (size_of text.now) }
{
    match size_of(text) {
        Some(size) => Some(Command::World {
            size,
            workers: arguments.number_of(OptionName::Workers),
        }),
        None => None,
    }
}

// The size of a world: the number of 1 to 10,000 that is written so.
fn size_of(text: &Text) -> Option<u32>
    ensures { result ≡ size_of text.now }
{
    let size = number_up_to(text.as_bytes(), 10_000)?;
    if size == 0 { None } else { Some(size) }
}
