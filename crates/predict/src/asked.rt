// What is asked for.
ghost use Rattle.std.specs.Prelude.{◌≤◌};
ghost use Rattle.instr.specs.Stands.{Short};

use crate::Row;
use args::Args;
use ids::ColumnId;
use instr::Entries;

// A row, by its key.
#[derive(Clone, Copy)]
pub struct Keyed {
    pub row: Row,
    pub key: Args,
    ghost short: { Short row.vals },
    ghost few: { key.count ≤ 16 },
}

// What a lane asks for: a row by the key that entries stand for, and the column that dst takes.
#[derive(Clone, Copy)]
pub struct Asking {
    pub row: Row,
    pub key: Entries,
    pub col: ColumnId,
    ghost short: { Short row.vals },
    ghost few: { Short key },
}
