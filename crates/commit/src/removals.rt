// A table's old rows that no removal of the log names. The keys that are removed are gathered once, as the rows of a table of their own, and each old row's key is looked up there: by an index, where that is sooner made than the keys are looked at.
ghost use Rattle.std.specs.Prelude.{◌≡◌, true, ◌&&◌, ◌+◌, ◌*◌, ◌/◌, ◌≤◌, leb, length, take};
ghost use Rattle.tables.specs.Tables.{info_of, RowsStand};
ghost use Rattle.record_log.specs.Walk.{is_removal};
ghost use Rattle.commit.specs.Walk.{store_turn, removed_keys, laid_onto, gone_after, key_table};
ghost use Rattle.commit.specs.Commit.{kept, spare_row, spared};
ghost use Rattle.commit.specs.Keys.{Room};
ghost use Rattle.commit.specs.KeysLeft.{keys_of, LeavesKeys};
ghost use Rattle.commit.specs.TableRows.{rows_of, Leaves};

use crate::keys::Keys;
use crate::records::{self, Changes};
use crate::rows::TableRows;
use hash_index::{INDEX_WORDS, Indexed};
use ids::TableId;
use record_log::{Change, Places};

// The key of the record at p, if it is a removal of table t.
fn gather(log: &[u32], p: usize, t: TableId, keys: &mut Keys)
    requires { Room keys.old.width keys.old.count p × (p ≤ length log.now) × (length log.now ≤ length keys.old.words.now)
        × (length log.now ≤ 16384) × (is_removal log.now t.0 p ≡ true → p + 2 + keys.old.width ≤ length log.now) }
    ensures { LeavesKeys keys.old keys.new (store_turn log.now t.0 keys.old.width p (keys_of keys.old)) }
{
    let width = keys.width;
    if let Some(key) = records::words_of(log, p, t, Change::Remove, width) {
        keys.push(key)
    }
}

// The keys of all removals of table t, in the log's order.
fn gather_all(words: &[u32], log: &[u32], t: TableId, keys: &mut Keys)
    requires { (keys.old.width ≡ (info_of words.now t.0).keys) × (keys.old.count ≡ 0)
        × (length log.now ≤ length keys.old.words.now) × (length log.now ≤ 16384) }
    ensures { LeavesKeys keys.old keys.new (laid_onto keys.old.words.now (removed_keys words.now log.now t.0 keys.old.width)) }
{
    for p in Places::of(words, log) {
        gather(log, p, t, keys);
    }
}

// The same, where it may be known that there is no removal at all, as in most logs.
fn gather_if(changes: Changes, t: TableId, keys: &mut Keys)
    requires { (keys.old.width ≡ (info_of changes.words.now t.0).keys) × (keys.old.count ≡ 0)
        × (length changes.log.now ≤ length keys.old.words.now) × (length changes.log.now ≤ 16384) }
    ensures { LeavesKeys keys.old keys.new (laid_onto keys.old.words.now
        (removed_keys changes.entry.words.now changes.entry.log.now t.0 keys.old.width)) }
{
    if changes.removes {
        gather_all(changes.words, changes.log, t, keys)
    }
}

// An old row, unless its key is one of those removed, which are the rows of a table of their own.
#[tactic(auto, using(tables::specs::TablesLaws::found_taken), unfolding(crate::specs::Commit::spare_row))]
fn keep_row(removed: Indexed, row: &[u32], rows: &mut TableRows)
    requires { (removed.rows.info.keys ≤ length row.now) × (length row.now ≡ rows.old.info.width) }
    ensures { Leaves rows.old rows.new (spare_row removed.entry.rows.words.now removed.entry.rows.info row.now (rows_of rows.old)) }
{
    if removed.look_up(&row[..removed.rows.info.keys]).is_none() {
        rows.append(row);
    }
}

// The same of all old rows.
fn keep_all(removed: Indexed, old: &[u32], rows: &mut TableRows)
    requires { removed.rows.info.keys ≤ rows.old.info.width }
    ensures { Leaves rows.old rows.new (spared removed.entry.rows.words.now removed.entry.rows.info old.now 0 rows.old.info.width
        (length old.now / rows.old.info.width) (rows_of rows.old)) }
{
    for row in old.chunks_exact(rows.info.width) {
        keep_row(removed, row, rows);
    }
}

// Whether there are keys and rows enough: each row is compared with each key where there is no index.
fn serves(keys: usize, rows: usize) -> bool
    ensures { result ≡ (leb 16 keys && leb (4096 / keys) rows) }
{
    16 <= keys && 4096 / keys <= rows
}

// The rows of a table in the book's words whose keys are none of those removed.
fn spare(keys: &Keys, words: &[u32], rows: &mut TableRows)
    requires { RowsStand words.now rows.old.info × (keys.now.width ≡ rows.old.info.keys) }
    ensures { Leaves rows.old rows.new (spared (take (keys.now.count * keys.now.width) keys.now.words.now)
        (key_table keys.now.width keys.now.count) words.now rows.old.info.at rows.old.info.width rows.old.info.rows
        (rows_of rows.old)) }
{
    let removed = keys.table();
    let info = rows.info;
    let old = &words[info.at..info.at + info.rows * info.width];
    if serves(keys.count, info.rows) {
        let mut index = [0u32; INDEX_WORDS];
        hash_index::build(removed, &mut index);
        keep_all(Indexed::alone(removed, Some(&index)), old, rows)
    } else {
        keep_all(Indexed::alone(removed, None), old, rows)
    }
}

// A table's old rows that no removal names. `gone` is lent for the removed keys.
pub fn keep(changes: Changes, t: TableId, gone: &mut [u32], rows: &mut TableRows)
    requires { (rows.old.info ≡ info_of changes.words.now t.0) × RowsStand changes.words.now rows.old.info
        × (length changes.log.now ≤ length gone.old) × (length changes.log.now ≤ 16384) }
    ensures rows { Leaves rows.old rows.new (kept changes.entry.words.now changes.entry.log.now t.0 rows.old.info rows.old.info.rows
        (rows_of rows.old)) }
    ensures gone { gone.new ≡ gone_after changes.entry.words.now changes.entry.log.now t.0 gone.old }
{
    let mut keys = Keys {
        words: gone,
        width: rows.info.keys,
        count: 0,
    };
    gather_if(changes, t, &mut keys);
    spare(&keys, changes.words, rows)
}
