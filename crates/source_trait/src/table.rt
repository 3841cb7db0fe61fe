// A table of a source in memory.
ghost use Rattle.std.specs.Prelude.{◌<◌, ◌^◌, length};

use lists::{Rows, Seq, Text};

/// Rows under a locator, fewer than 4,294,967,296 of them, so that each row's number is a `u32`.
#[derive(Drop)]
pub struct Table {
    pub locator: Text,
    pub rows: Rows,
    ghost few: { length rows < 2 ^ 32 },
}

/// Tables of a source in memory.
pub type Tables = Seq<Table>;
