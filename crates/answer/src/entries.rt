// The contents of the answer: for each body its kind, its first word and its length.
ghost use Rattle.std.specs.Prelude.{◌≡◌, ◌+◌, ◌*◌, ◌^◌, ◌<◌, ◌≤◌};
ghost use Rattle.model.specs.Book.Contents.{kind_of};
ghost use Rattle.contents.specs.BodyKinds.{kind_number};
ghost use Rattle.contents.specs.Contents.{ContentsOf};
ghost use Rattle.step_bodies.specs.Page.{Appends, Room};
ghost use Rattle.answer.specs.Layout.{step_kind, as_entry, rows_length, first_of_steps, Small, body_count, entry_at, entry_words, bodies_length, entries_words};

use contents::{BodyKind, Contents, Kind};
use ids::TableId;
use step_bodies::Page;

// What the bodies and their entries are made of: the book's words and contents, how many rows each table has, how many words each step's body has, and how many the log.
#[derive(Clone, Copy)]
pub struct Sizes<'a> {
    pub words: &'a [u32],
    pub contents: Contents,
    pub counts: &'a [u32],
    pub lengths: &'a [u32],
    pub used: usize,
    ghost contained: { ContentsOf words.now contents },
    ghost small: { Small words.now counts.now lengths.now used contents },
}

// A body's kind, and how many words it has.
#[derive(Clone, Copy)]
pub struct Entry {
    pub kind: BodyKind,
    pub length: usize,
}

// The three words of an entry, of a body that begins at the word `first`.
fn write_entry(e: Entry, first: usize, page: &mut Page)
    requires { (e.length < 2 ^ 32) × (first < 2 ^ 32) × Room page.old 3 }
    ensures { Appends page.old page.new (entry_words (as_entry e) first) }
{
    page.push(u32::from(e.kind));
    page.push(first as u32);
    page.push(e.length as u32);
}

impl<'a> Sizes<'a> {
    // How many bodies there are: one more than tables, counters and steps, for the log.
    pub fn bodies(self) -> usize
        ensures { result ≡ body_count self.entry.contents }
    {
        let c = self.contents;
        c.table_count() + c.counter_count() + c.step_count() + 1
    }

    // How many words the rows of a table have.
    pub fn rows_length(self, table: TableId) -> usize
        requires { table.0 < self.contents.tables }
        ensures { result ≡ rows_length self.entry.words.now self.entry.counts.now table.0 }
    {
        let t = usize::from(table);
        let info = tables::info_of(self.words, table);
        let n = words::size_at(self.counts, t);
        n * info.width
    }

    // The kind of step k's body.
    fn step_kind(self, k: usize) -> BodyKind
        requires { k < self.contents.steps }
        ensures { kind_number result ≡ step_kind
            (kind_of self.entry.words.now (first_of_steps self.entry.contents + k)) }
    {
        let i = self.contents.first_step() + k;
        if contents::body_kind(self.words, i) == Some(Kind::Batch) {
            BodyKind::Batch
        } else {
            BodyKind::Prediction
        }
    }

    // Body i: tables, counters, steps, then the log.
    #[tactic(auto, unfolding(crate::specs::Layout::entry_at))]
    fn entry_at(self, i: usize) -> Entry
        ensures { as_entry result ≡ entry_at self.entry.words.now self.entry.counts.now self.entry.lengths.now
            self.entry.used self.entry.contents i }
    {
        let counters = self.contents.table_count();
        let steps = counters + self.contents.counter_count();
        let log = steps + self.contents.step_count();
        if i < counters {
            let n = self.rows_length(TableId(i as u32));
            return Entry {
                kind: BodyKind::Table,
                length: 4 + n,
            };
        }
        if i < steps {
            return Entry {
                kind: BodyKind::Counter,
                length: 1,
            };
        }
        if i < log {
            let k = i - steps;
            let kind = self.step_kind(k);
            let length = words::size_at(self.lengths, k);
            return Entry { kind, length };
        }
        Entry {
            kind: BodyKind::Log,
            length: 1 + self.used,
        }
    }

    // How many words the first n bodies have.
    pub fn length_of(self, n: usize) -> usize
        requires { n ≤ body_count self.contents }
        ensures { result ≡ bodies_length self.entry.words.now self.entry.counts.now self.entry.lengths.now
            self.entry.used self.entry.contents n }
    {
        (0..n).map(|i| self.entry_at(i).length).sum()
    }

    // The entries of the first n bodies; the first body begins at `start`.
    pub fn write_entries(self, n: usize, start: usize, page: &mut Page)
        requires { (n ≤ body_count self.contents) × (start ≤ 1024) × Room page.old (3 * n) }
        ensures { Appends page.old page.new
            (entries_words self.entry.words.now self.entry.counts.now self.entry.lengths.now
            self.entry.used self.entry.contents start n) }
    {
        let mut first = start;
        for i in 0..n {
            let e = self.entry_at(i);
            write_entry(e, first, page);
            first += e.length;
        }
    }
}
