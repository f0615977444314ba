// The fields of each instruction, and where they stand.
ghost use Rattle.std.specs.Prelude.{◌≡◌, ◌+◌, ◌≤◌, length, take};
ghost use Rattle.model.specs.Basics.{tab};
ghost use Rattle.model.specs.Book.Layout as layout;
ghost use Rattle.model.specs.Book.Decode as decode;
ghost use Rattle.instr.specs.Fields.{fields_of, past_field, part_at};

use Field::*;

// What a field of an instruction holds.
#[derive(Clone, Copy)]
pub enum Field {
    Table,
    Counter,
    Function,
    Dst,
    Column,
    Divider,
    Entry,
    Entries,
    Writes,
}

// The first two words of a field, and where the second of them stands.
#[derive(Clone, Copy)]
pub struct Part {
    pub first: u32,
    pub second: u32,
    pub rest: usize,
}

// The fields of an instruction, and the word past it.
#[derive(Clone, Copy)]
pub struct Parts {
    pub fields: [Part; 6],
    pub next: usize,
}

// The fields of an instruction by its opcode. Opcodes are matched as numbers, as functions are by theirs.
#[tactic(auto, unfolding(model::specs::Book::Layout::form_of, model::specs::Basics::tab))]
pub fn fields(op: u32) -> &'static [Field]
    ensures all { fields_of result.now ≡ (layout.form_of op).fields }
    ensures most { length result.now ≤ 6 }
{
    match op {
        1 => &[Table, Entries, Writes, Column, Dst],
        2 => &[Table, Entries, Column, Dst, Entry],
        3 => &[Table, Entries, Column, Dst],
        4 => &[Table, Entries, Function, Entries, Column, Dst],
        5 => &[Table, Entries],
        6 => &[Table, Entry, Entry, Entries],
        7 => &[Table, Entries],
        8 => &[Function, Entries, Dst],
        9 => &[Function, Entries, Function, Entries, Dst],
        10 => &[Entry, Entry],
        11 => &[Entry, Entry],
        12 => &[Divider, Entries],
        13 => &[Counter, Dst],
        _ => &[],
    }
}

// The word past a field that stands at p.
#[tactic(auto, unfolding(model::specs::Book::Decode::after))]
fn past_field(words: &[u32], f: Field, p: usize) -> usize
    requires { p ≤ 1099511627776 }
    ensures { (result ≡ past_field words.now f p) × (result ≤ p + 8589934591) }
{
    match f {
        Table | Counter | Function | Dst | Column | Divider => p + 1,
        Entry => p + 2,
        Entries | Writes => p + 1 + 2 * words::size_at(words, p),
    }
}

// The field that stands at p.
fn part_at(words: &[u32], p: usize) -> Part
    requires { p ≤ 1099511627776 }
    ensures { result ≡ part_at words.now p }
{
    Part {
        first: words::word(words, p),
        second: words::word(words, p + 1),
        rest: p + 1,
    }
}

// The fields of the instruction whose opcode stands at p. Those past its last stand where the next instruction does.
#[tactic(auto, unfolding(model::specs::Book::Decode::past, model::specs::Book::Decode::next, model::specs::Basics::tab))]
pub fn parts_at(words: &[u32], p: usize) -> Parts
    requires { p ≤ 16384 }
    ensures all { result.fields ≡ tab (λ k. part_at words.now (decode.field_place words.now p k)) 6 }
    ensures past { result.next ≡ decode.next words.now p }
{
    let fields = fields(words::word(words, p));
    let mut parts = [Part {
        first: 0,
        second: 0,
        rest: 0,
    }; 6];
    let mut q = p + 1;
    for (k, field) in fields.iter().enumerate() {
        parts[k] = part_at(words, q);
        q = past_field(words, *field, q);
    }
    parts[fields.len()..].fill(part_at(words, q));
    Parts {
        fields: parts,
        next: q,
    }
}
