// Instructions as values, read from a book's words. A list stays in the words: a value holds its place.
#![tactic(auto)]

pub mod layout;

ghost use Rattle.std.specs.Prelude.{◌≡◌, ◌+◌, ◌*◌, ◌^◌, ◌≤◌, ◌<◌};
ghost use Rattle.model.specs.Book.Decode as decode;
ghost use Rattle.instr.specs.Instr as specs;
ghost use Rattle.instr.specs.Stands.{binds_of, variable_of};

use crate::layout::Part;
use ids::{ColumnId, CounterId, ExternalFunctionId, TableId, Variable};

// A variable or a constant.
#[derive(Clone, Copy)]
pub enum QueryEntry {
    Var(Variable),
    Const(u32),
}

// An entry, a counter's next number, or what the row being built has at a place.
#[derive(Clone, Copy)]
pub enum WriteVal {
    QueryEntry(QueryEntry),
    IncCounter(CounterId),
    CurrentVal(usize),
}

// A list in the words: where its first tag stands, and how many entries or write values it has, of two words each.
#[derive(Clone, Copy)]
pub struct Entries {
    pub at: usize,
    pub count: usize,
}

impl Entries {
    // Where the tag of entry k stands.
    pub fn place(self, k: usize) -> usize
        requires { self.at + 2 * k < 2 ^ 64 }
        ensures { result ≡ self.at + 2 * k }
    {
        self.at + 2 * k
    }
}

#[derive(Clone, Copy)]
pub enum Instr {
    LookupOrInsertDefault {
        table: TableId,
        args: Entries,
        default: Entries,
        dst_col: ColumnId,
        dst_var: Variable,
    },
    LookupWithDefault {
        table: TableId,
        args: Entries,
        dst_col: ColumnId,
        dst_var: Variable,
        default: QueryEntry,
    },
    Lookup {
        table: TableId,
        args: Entries,
        dst_col: ColumnId,
        dst_var: Variable,
    },
    LookupWithFallback {
        table: TableId,
        table_key: Entries,
        func: ExternalFunctionId,
        func_args: Entries,
        dst_col: ColumnId,
        dst_var: Variable,
    },
    Insert {
        table: TableId,
        vals: Entries,
    },
    InsertIfEq {
        table: TableId,
        l: QueryEntry,
        r: QueryEntry,
        vals: Entries,
    },
    Remove {
        table: TableId,
        args: Entries,
    },
    External {
        func: ExternalFunctionId,
        args: Entries,
        dst: Variable,
    },
    ExternalWithFallback {
        f1: ExternalFunctionId,
        args1: Entries,
        f2: ExternalFunctionId,
        args2: Entries,
        dst: Variable,
    },
    AssertEq(QueryEntry, QueryEntry),
    AssertNe(QueryEntry, QueryEntry),
    AssertAnyNe {
        ops: Entries,
        divider: usize,
    },
    ReadCounter {
        counter: CounterId,
        dst: Variable,
    },
}

impl Instr {
    pub fn dst(self) -> Option<Variable>
        ensures { variable_of result ≡ binds_of self }
    {
        match self {
            Instr::LookupOrInsertDefault { dst_var, .. }
            | Instr::LookupWithDefault { dst_var, .. }
            | Instr::Lookup { dst_var, .. }
            | Instr::LookupWithFallback { dst_var, .. } => Some(dst_var),
            Instr::External { dst, .. }
            | Instr::ExternalWithFallback { dst, .. }
            | Instr::ReadCounter { dst, .. } => Some(dst),
            Instr::Insert { .. }
            | Instr::InsertIfEq { .. }
            | Instr::Remove { .. }
            | Instr::AssertEq(..)
            | Instr::AssertNe(..)
            | Instr::AssertAnyNe { .. } => None,
        }
    }
}

// The entry x by its tag.
#[tactic(auto, unfolding(crate::specs::Instr::entry_by))]
fn entry_of(tag: u32, x: u32) -> QueryEntry
    ensures { result ≡ specs.entry_by tag x }
{
    match tag {
        0 => QueryEntry::Var(Variable(x)),
        _ => QueryEntry::Const(x),
    }
}

// The entry whose tag stands at p.
pub fn entry_at(words: &[u32], p: usize) -> QueryEntry
    requires { p ≤ 1099511627776 }
    ensures { result ≡ specs.entry_at words.now p }
{
    entry_of(words::word(words, p), words::word(words, p + 1))
}

// The write value whose tag stands at p.
#[tactic(auto, using(crate::specs::InstrLaws::write_entry), unfolding(crate::specs::Instr::write_by))]
pub fn write_at(words: &[u32], p: usize) -> WriteVal
    requires { p ≤ 1099511627776 }
    ensures { result ≡ specs.write_at words.now p }
{
    let tag = words::word(words, p);
    let x = words::word(words, p + 1);
    match tag {
        0 | 1 => WriteVal::QueryEntry(entry_of(tag, x)),
        2 => WriteVal::IncCounter(CounterId(x)),
        _ => WriteVal::CurrentVal(x as usize),
    }
}

// The list whose count stands at p.
pub fn list_at(words: &[u32], p: usize) -> Entries
    requires { p ≤ 1099511627776 }
    ensures is { result ≡ specs.list_at words.now p }
    ensures small { (result.at ≡ p + 1) × (result.count < 4294967296) }
{
    Entries {
        at: p + 1,
        count: words::size_at(words, p),
    }
}

impl Part {
    // The field as a list.
    fn list(self) -> Entries
        ensures { result ≡ specs.list_in self }
    {
        Entries {
            at: self.rest,
            count: self.first as usize,
        }
    }

    // The field as an entry.
    fn entry(self) -> QueryEntry
        ensures { result ≡ specs.entry_in self }
    {
        entry_of(self.first, self.second)
    }
}

// The instruction of an opcode by its fields. Opcodes are matched as numbers, as functions are by theirs. A book that can be read has no other than these; the last arm is what the definitions give for another.
#[tactic(auto, unfolding(crate::specs::Instr::instr_by))]
fn instr_of(op: u32, fields: [Part; 6]) -> Instr
    ensures { result ≡ specs.instr_by fields op }
{
    let [f0, f1, f2, f3, f4, f5] = fields;
    match op {
        1 => Instr::LookupOrInsertDefault {
            table: TableId(f0.first),
            args: f1.list(),
            default: f2.list(),
            dst_col: ColumnId(f3.first),
            dst_var: Variable(f4.first),
        },
        2 => Instr::LookupWithDefault {
            table: TableId(f0.first),
            args: f1.list(),
            dst_col: ColumnId(f2.first),
            dst_var: Variable(f3.first),
            default: f4.entry(),
        },
        3 => Instr::Lookup {
            table: TableId(f0.first),
            args: f1.list(),
            dst_col: ColumnId(f2.first),
            dst_var: Variable(f3.first),
        },
        4 => Instr::LookupWithFallback {
            table: TableId(f0.first),
            table_key: f1.list(),
            func: ExternalFunctionId(f2.first),
            func_args: f3.list(),
            dst_col: ColumnId(f4.first),
            dst_var: Variable(f5.first),
        },
        5 => Instr::Insert {
            table: TableId(f0.first),
            vals: f1.list(),
        },
        6 => Instr::InsertIfEq {
            table: TableId(f0.first),
            l: f1.entry(),
            r: f2.entry(),
            vals: f3.list(),
        },
        7 => Instr::Remove {
            table: TableId(f0.first),
            args: f1.list(),
        },
        8 => Instr::External {
            func: ExternalFunctionId(f0.first),
            args: f1.list(),
            dst: Variable(f2.first),
        },
        9 => Instr::ExternalWithFallback {
            f1: ExternalFunctionId(f0.first),
            args1: f1.list(),
            f2: ExternalFunctionId(f2.first),
            args2: f3.list(),
            dst: Variable(f4.first),
        },
        10 => Instr::AssertEq(f0.entry(), f1.entry()),
        11 => Instr::AssertNe(f0.entry(), f1.entry()),
        12 => Instr::AssertAnyNe {
            ops: f1.list(),
            divider: f0.first as usize,
        },
        13 => Instr::ReadCounter {
            counter: CounterId(f0.first),
            dst: Variable(f1.first),
        },
        _ => Instr::ReadCounter {
            counter: CounterId(0),
            dst: Variable(0),
        },
    }
}

// The instruction whose opcode stands at p.
pub fn instr_at(words: &[u32], p: usize) -> Instr
    requires { p ≤ 16384 }
    ensures { result ≡ specs.instr_at words.now p }
{
    instr_of(words::word(words, p), layout::parts_at(words, p).fields)
}

// The word past the instruction whose opcode stands at p.
pub fn next(words: &[u32], p: usize) -> usize
    requires { p ≤ 16384 }
    ensures { result ≡ decode.next words.now p }
{
    layout::parts_at(words, p).next
}
