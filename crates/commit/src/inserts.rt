// The log's rows put into a table: by an index of its rows, where that is sooner made than the rows are looked at.
ghost use Rattle.std.specs.Prelude.{◌≡◌, ◌&&◌, ◌||◌, leb};
ghost use Rattle.std.specs.Option.{option_copied_mut};
ghost use Rattle.tables.specs.Tables.{info_of};
ghost use Rattle.commit.specs.Indexed.{IndexedRows};
ghost use Rattle.commit.specs.TableRows.{rows_of, Leaves};
ghost use Rattle.commit.specs.Walk.{inserted};

use crate::noted::NotedRows;
use crate::records::Changes;
use crate::rows::TableRows;
use hash_index::INDEX_WORDS;
use ids::TableId;

// Whether there are rows enough, in a log of so many words and in a table that has `count`.
fn serves(log: usize, count: usize) -> bool
    ensures { result ≡ (leb 512 log || (leb 128 log && leb 64 count)) }
{
    512 <= log || (128 <= log && 64 <= count)
}

// The rows of all records that are some of table t, by an index of its rows if there is one.
fn insert_by(
    changes: Changes,
    t: TableId,
    rows: &mut TableRows,
    mut index: Option<&mut [u32; INDEX_WORDS]>,
)
    requires { (rows.old.info ≡ info_of changes.words.now t.0) × IndexedRows rows.old.info (rows_of rows.old) (option_copied_mut index) }
    ensures { Leaves rows.old rows.new (inserted changes.entry.words.now changes.entry.log.now t.0 rows.old.info (rows_of rows.old)) }
{
    let mut noted = NotedRows {
        rows,
        index: &mut index,
    };
    changes.insert_all(t, &mut noted)
}

// The same, in the log's order, with an index where it serves.
pub fn insert_rows(changes: Changes, t: TableId, rows: &mut TableRows)
    requires { rows.old.info ≡ info_of changes.words.now t.0 }
    ensures { Leaves rows.old rows.new (inserted changes.entry.words.now changes.entry.log.now t.0 rows.old.info (rows_of rows.old)) }
{
    if serves(changes.log.len(), rows.part.count) {
        let mut index = [0u32; INDEX_WORDS];
        rows.build(&mut index);
        insert_by(changes, t, rows, Some(&mut index))
    } else {
        insert_by(changes, t, rows, None)
    }
}
