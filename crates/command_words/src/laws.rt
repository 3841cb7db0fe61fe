// What holds of every list of words: a law on the definitions alone, as a function that does nothing.
ghost use Rattle.std.specs.Prelude.{◌≡◌, ℕ, List};
ghost use Rattle.command_words.specs.Words.{Command, IsCommand};

/// Words are at most one command.
pub fn words_are_one_command()
    ensures { (words : List (List ℕ)) (command other : Command) → IsCommand words command → IsCommand words other → command ≡ other }
{}
