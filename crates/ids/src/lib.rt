// Numbers that name something in a book, each of a type of its own, so that one never stands for another.
#![tactic(auto)]

ghost use Rattle.std.specs.Prelude.{◌≡◌};

// The stale mark: what a variable has in a lane that got no word. No word of a book that is a value may be it.
pub const STALE: u32 = 4294967295;

// A table, counted from 0 among the tables of a book.
#[derive(Clone, Copy)]
pub struct TableId(pub u32);

// A counter, counted from 0 among the counters of a book.
#[derive(Clone, Copy)]
pub struct CounterId(pub u32);

// A variable of a rule, 0 to 31.
#[derive(Clone, Copy, PartialEq, Eq)]
pub struct Variable(pub u32);

// A function, 0 to 7.
#[derive(Clone, Copy)]
pub struct ExternalFunctionId(pub u32);

// A column of a table, counted from 0: key columns first, then values.
#[derive(Clone, Copy)]
pub struct ColumnId(pub u32);

// A lane of a batch, 0 to 255.
#[derive(Clone, Copy)]
pub struct Lane(pub usize);

// What they name is counted from 0, so that each is a place. Each type has an impl of its own, since one that a macro writes cannot say what it gives.
impl From<TableId> for usize {
    ghost from_gives = { λ id at. at ≡ id.0 };

    fn from(id: TableId) -> usize {
        id.0 as usize
    }
}

impl From<CounterId> for usize {
    ghost from_gives = { λ id at. at ≡ id.0 };

    fn from(id: CounterId) -> usize {
        id.0 as usize
    }
}

impl From<Variable> for usize {
    ghost from_gives = { λ id at. at ≡ id.0 };

    fn from(id: Variable) -> usize {
        id.0 as usize
    }
}

impl From<ColumnId> for usize {
    ghost from_gives = { λ id at. at ≡ id.0 };

    fn from(id: ColumnId) -> usize {
        id.0 as usize
    }
}
