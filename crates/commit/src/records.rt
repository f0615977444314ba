// The log's records, one after the other: whether one is a removal, and the rows that they put into a table.
ghost use Rattle.std.specs.Prelude.{◌≡◌, true, false, ◌+◌, ◌≤◌, length, MatchOption, option_copied};
ghost use Rattle.model.specs.Book.Decode.{part};
ghost use Rattle.tables.specs.Tables.{info_of};
ghost use Rattle.record_log.specs.Walk.{is_insertion};
ghost use Rattle.commit.specs.Walk.{is_change, any_removal, insert_row, inserted};
ghost use Rattle.commit.specs.TableRows.{rows_of};
ghost use Rattle.commit.specs.NotedRows.{LeavesNoted};

use crate::noted::NotedRows;
use ids::TableId;
use record_log::{Change, Places};

// The log, with the book's words, which tell where each record ends; and whether a record may be a removal.
#[derive(Clone, Copy)]
pub struct Changes<'a> {
    pub words: &'a [u32],
    pub log: &'a [u32],
    pub removes: bool,
    ghost none: { removes ≡ false → any_removal words.now log.now ≡ false },
}

// Whether some record is a removal.
pub fn any_removal(words: &[u32], log: &[u32]) -> bool
    ensures { result ≡ any_removal words.now log.now }
{
    Places::of(words, log).any(|p| record_log::change_at(log, p) == Change::Remove)
}

// The words of the record at p past its kind and its table, if it is such a change of table t.
pub fn words_of(log: &[u32], p: usize, t: TableId, change: Change, width: usize) -> Option<&[u32]>
    requires { (p ≤ length log.now) × (is_change log.now t.0 change p ≡ true → p + 2 + width ≤ length log.now) }
    ensures { MatchOption (option_copied result) (is_change log.now t.0 change p ≡ false)
        (λ words. (is_change log.now t.0 change p ≡ true) × (words ≡ part log.now (p + 2) width)) }
{
    if words::word(log, p + 1) != t.0 || record_log::change_at(log, p) != change {
        return None;
    }
    Some(&log[p + 2..p + 2 + width])
}

// The row of the record at p, if it is one of table t.
#[tactic(auto, unfolding(crate::specs::Walk::insert_row))]
fn insert(log: &[u32], p: usize, t: TableId, rows: &mut NotedRows)
    requires { (p ≤ length log.now) × (is_insertion log.now t.0 p ≡ true → p + 2 + rows.old.rows.now.info.width ≤ length log.now) }
    ensures { LeavesNoted rows.old rows.new (insert_row log.now t.0 rows.old.rows.now.info p (rows_of rows.old.rows.now)) }
{
    let width = rows.rows.info.width;
    if let Some(row) = words_of(log, p, t, Change::Insert, width) {
        rows.put(row)
    }
}

impl Changes<'_> {
    // The rows of all records that are some of table t, in the log's order.
    pub fn insert_all(self, t: TableId, rows: &mut NotedRows)
        requires { rows.old.rows.now.info ≡ info_of self.words.now t.0 }
        ensures { LeavesNoted rows.old rows.new (inserted self.entry.words.now self.entry.log.now t.0 rows.old.rows.now.info
            (rows_of rows.old.rows.now)) }
    {
        for p in Places::of(self.words, self.log) {
            insert(self.log, p, t, rows);
        }
    }
}
