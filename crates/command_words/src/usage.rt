// The text that `help` prints.
ghost use Rattle.std.specs.Prelude.{◌≡◌};
ghost use Rattle.command_words.specs.Usage.{usage};

/// The commands and what each takes, a line for each.
pub fn usage_text() -> &'static [u8]
    ensures { result.now ≡ usage }
{
    b"usage: pdq COMMAND\n  help\n  schema SCHEMA\n  explain SCHEMA QUERY [--firings N] [--search N]\n  run SCHEMA QUERY [--firings N] [--search N] [--workers N] [--calls N] [--verify]\n  batch SCHEMA QUERIES [--firings N] [--search N] [--workers N] [--calls N]\n  exec SCHEMA PLAN [--workers N] [--calls N]\n  check SCHEMA QUERY PLAN [--firings N]\n  verify SCHEMA\n  crawl SCHEMA [--workers N] [--calls N]\n  reach SCHEMA QUERY [--workers N] [--calls N]\n  world N [--workers N]\n"
}
