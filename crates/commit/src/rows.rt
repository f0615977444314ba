// A table's rows among the words that are lent for all: a row is appended, or merged into one that is there.
ghost use Rattle.std.specs.Prelude.{◌≡◌, ◌+◌, ◌≤◌, length, replicate, Some};
ghost use Rattle.commit.specs.Rows.{Sound, Stand, new_info, has_room, appended, merged_at, as_rows};
ghost use Rattle.commit.specs.Indexed.{IndexedRows};

use crate::merge::{self, MergeRule};
use hash_index::INDEX_WORDS;
use tables::{Rows, TableInfo};

// How many rows a table has, how many words are used up to their end, and the word at which they begin; or a row had no room (`over`), which is no `Err`, since later records are still merged then.
#[derive(Clone, Copy)]
pub struct Part {
    pub count: usize,
    pub used: usize,
    pub from: usize,
    pub over: bool,
}

// The words that are lent for the rows of all tables, a table's sizes in the book, and its part of the words.
#[derive(Drop)]
pub struct TableRows<'a> {
    pub words: &'a mut [u32],
    pub info: TableInfo,
    pub part: Part,
    ghost sound: { Sound info },
    ghost stand: { Stand info.width (as_rows words.now part) },
    ghost few: { length words.now ≤ 16384 },
}

impl TableRows<'_> {
    ghost use Rattle.commit.specs.TableRows.{rows_of, Leaves};

    // One row more, past the used words; whether it had room. Where a row has none, neither it nor any after it is added.
    #[tactic(auto, unfolding(crate::specs::Rows::appended))]
    pub fn append(&mut self, row: &[u32]) -> bool
        requires { length row.now ≡ self.old.info.width }
        ensures { Leaves self.old self.new (appended row.now (rows_of self.old)) × (result ≡ has_room row.now (rows_of self.old)) }
    {
        if self.part.over {
            return false;
        }
        if self.words.len() < self.part.used + row.len() {
            self.part.over = true;
            return false;
        }
        words::copy(row, self.words, self.part.used);
        self.part.count += 1;
        self.part.used += row.len();
        true
    }

    // The table as it stands among the rows.
    pub fn table(&self) -> Rows<'_>
        ensures { (result.words.now ≡ self.now.words.now) × (result.info ≡ new_info self.now.info self.now.part) }
    {
        Rows {
            words: self.words,
            info: TableInfo {
                rows: self.part.count,
                at: self.part.from,
                ..self.info
            },
        }
    }

    // All rows, into an index that is zero.
    pub fn build(&self, index: &mut [u32; INDEX_WORDS])
        requires { index.old ≡ replicate 18432 0 }
        ensures { IndexedRows self.now.info (rows_of self.now) (Some index.new) }
    {
        hash_index::build(self.table(), index)
    }

    // The values of the row at p, merged with those of a new row.
    pub fn merge(&mut self, p: usize, row: &[u32])
        requires { (p + self.old.info.width ≤ length self.old.words.now) × (length row.now ≡ self.old.info.width) }
        ensures { Leaves self.old self.new (merged_at self.old.info row.now p (rows_of self.old)) }
    {
        let k = self.info.keys;
        let rule = MergeRule::from(self.info.merge);
        merge::merge_words(self.words, p + k, &row[k..], rule)
    }
}
