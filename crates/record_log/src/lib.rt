// The log: records of kind, table and words, one after the other, appended up to the end of the words that are lent for it; and where each ends.
#![tactic(auto)]

mod places;

ghost use Rattle.std.specs.Prelude.{◌≡◌, ◌≤◌, length, get_or};
ghost use Rattle.record_log.specs.Log.{record_of};
ghost use Rattle.record_log.specs.Walk.{change_by, end_of};

use ids::TableId;
pub use places::Places;

// The words lent for the log, and how many of them are used.
#[derive(Drop)]
pub struct Log<'a> {
    pub words: &'a mut [u32],
    pub used: usize,
    ghost fits: { used ≤ length words.now },
}

impl Log<'_> {
    ghost use Rattle.record_log.specs.Append.{Appends};

    // A record of these words, past those that are used; whether it had room. Nothing is written where it has none. The kind is any number, as the definitions have it; `RecordKind` names those in use.
    pub fn append(&mut self, kind: u32, table: TableId, row: &[u32]) -> bool
        requires { length row.now ≤ 16 }
        ensures { Appends self.old (record_of kind table.0 row.now (length row.now)) result self.new }
    {
        let used = self.used;
        // a slice of its own, so that its place and its length are read once
        let words = &mut *self.words;
        let end = used + 2 + row.len();
        if words.len() < end {
            return false;
        }
        words[used] = kind;
        words[used + 1] = table.0;
        words::copy(row, words, used + 2);
        self.used = end;
        true
    }
}

// The kinds of records, by their numbers: a row goes in, the row with a key goes out, and a row that was predicted goes in.
#[derive(Clone, Copy, PartialEq, Eq)]
pub enum RecordKind {
    Insert = 0,
    Remove = 1,
    Predicted = 2,
}

// What a record does to its table.
#[derive(Clone, Copy, PartialEq, Eq)]
pub enum Change {
    Insert,
    Remove,
}

// What the record at p does, by its kind: a predicted row goes in as an insert does.
pub fn change_at(log: &[u32], p: usize) -> Change
    ensures { result ≡ change_by (get_or log.now p 0) }
{
    match words::word(log, p) {
        1 => Change::Remove,
        _ => Change::Insert,
    }
}

// The word past the record at p: its kind and its table, then a key if it is a removal, else a row.
#[tactic(auto, unfolding(crate::specs::Walk::end_of))]
pub fn end_of(words: &[u32], log: &[u32], p: usize) -> usize
    requires { p ≤ length log.now }
    ensures { result ≡ end_of words.now log.now p }
{
    let info = tables::info_of(words, TableId(words::word(log, p + 1)));
    match change_at(log, p) {
        Change::Remove => p + 2 + info.keys,
        Change::Insert => p + 2 + info.width,
    }
}
