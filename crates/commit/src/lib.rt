// The commit: after a run the log's records go into the tables. The rows that come of it are written into words that are lent for them: table 0's, then table 1's, and so on, without gaps.
#![tactic(auto)]

mod inserts;
mod keys;
mod merge;
mod noted;
mod records;
mod removals;
mod rows;

ghost use Rattle.std.specs.Prelude.{◌≡◌, ◌||◌, ℕ, ◌<◌, ◌≤◌, leb, length};
ghost use Rattle.tables.specs.Tables.{info_of, RowsStand};
ghost use Rattle.commit.specs.Walk.{any_removal, gone_after};
ghost use Rattle.commit.specs.Commit.{table_committed, committed_rows, as_left};

use crate::records::Changes;
use crate::rows::{Part, TableRows};
use ids::TableId;

// How many rows each table has, and how many words they use in all; or a row had no room (`over`). Later records are merged then all the same, so it is no `Err`.
#[derive(Clone, Copy)]
pub struct Committed {
    pub counts: [u32; 16],
    pub used: usize,
    pub over: bool,
}

// Table t, past the rows of the tables before it: first what the removals leave of its old rows, then the log's rows.
fn commit_table(
    changes: Changes,
    t: TableId,
    gone: &mut [u32],
    rows: &mut [u32],
    done: &mut Committed,
)
    requires { (t.0 < 16) × RowsStand changes.words.now (info_of changes.words.now t.0)
        × (length changes.log.now ≤ length gone.old) × (length changes.log.now ≤ 16384)
        × (done.old.used ≤ length rows.old) × (length rows.old ≤ 16384) }
    ensures rows { as_left rows.new done.new ≡ table_committed changes.entry.words.now changes.entry.log.now t.0
        (as_left rows.old done.old) }
    ensures gone { gone.new ≡ gone_after changes.entry.words.now changes.entry.log.now t.0 gone.old }
{
    let mut table = TableRows {
        words: rows,
        info: tables::info_of(changes.words, t),
        part: Part {
            count: 0,
            used: done.used,
            from: done.used,
            over: done.over,
        },
    };
    removals::keep(changes, t, gone, &mut table);
    inserts::insert_rows(changes, t, &mut table);
    let part = table.part;
    done.counts[usize::from(t)] = part.count as u32;
    done.used = part.used;
    done.over = part.over;
}

// Whether the log may have a removal. One table finds out by its own walk; several are spared theirs.
fn may_remove(words: &[u32], tables: usize, log: &[u32]) -> bool
    ensures { result ≡ (leb tables 1 || any_removal words.now log.now) }
{
    tables <= 1 || records::any_removal(words, log)
}

// All tables of the book, with the words of the log's records. Where `over` says that a row had no room, the rows are not whole. The keys of removals go into an array of N words.
fn commit_all<const N: usize>(
    words: &[u32],
    tables: usize,
    log: &[u32],
    rows: &mut [u32],
) -> Committed
    requires { (tables ≤ 16) × (length log.now ≤ N) × (N ≤ 16384) × (length rows.old ≤ 16384)
        × ((t : ℕ) → t < tables → RowsStand words.now (info_of words.now t)) }
    ensures { as_left rows.new result ≡ committed_rows words.now tables log.now rows.old }
{
    let changes = Changes {
        words,
        log,
        removes: may_remove(words, tables, log),
    };
    let mut gone = [0u32; N];
    let mut done = Committed {
        counts: [0u32; 16],
        used: 0,
        over: false,
    };
    for t in 0..tables {
        commit_table(changes, TableId(t as u32), &mut gone, rows, &mut done);
    }
    done
}

// The same, with a small array for a small log, since clearing it takes less time.
pub fn commit(words: &[u32], tables: usize, log: &[u32], rows: &mut [u32]) -> Committed
    requires { (tables ≤ 16) × (length log.now ≤ 16384) × (length rows.old ≤ 16384)
        × ((t : ℕ) → t < tables → RowsStand words.now (info_of words.now t)) }
    ensures { as_left rows.new result ≡ committed_rows words.now tables log.now rows.old }
{
    if log.len() <= 1024 {
        commit_all::<1024>(words, tables, log, rows)
    } else {
        commit_all::<16384>(words, tables, log, rows)
    }
}
