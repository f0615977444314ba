// A table's rows with an index that has them all, or with none: the rows of the log are put into these.
ghost use Rattle.std.specs.Prelude.{◌≡◌, ◌≤◌, length};
ghost use Rattle.std.specs.Option.{option_copied_mut};
ghost use Rattle.std.proofs.Props.{props};
ghost use Rattle.tables.specs.Tables.{found_row};
ghost use Rattle.commit.specs.Rows.{new_info, appended, put_row};
ghost use Rattle.commit.specs.Indexed.{IndexedRows};
ghost use Rattle.commit.specs.TableRows.{rows_of};

use crate::rows::TableRows;
use hash_index::{INDEX_WORDS, Indexed};

// The rows, and the words of their index, if there is one. Without one all rows are looked at.
#[derive(Drop)]
pub struct NotedRows<'r, 'a, 'b, 'i> {
    pub rows: &'r mut TableRows<'a>,
    pub index: &'b mut Option<&'i mut [u32; INDEX_WORDS]>,
    ghost indexed: { IndexedRows rows.now.info (rows_of rows.now) (option_copied_mut index.now) } by { Prim.hlevel props },
}

impl NotedRows<'_, '_, '_, '_> {
    ghost use Rattle.commit.specs.NotedRows.{LeavesNoted};

    // The row with the key.
    fn find(&self, key: &[u32]) -> Option<usize>
        requires { self.now.rows.now.info.keys ≤ length key.now }
        ensures { result ≡ found_row self.now.rows.now.words.now (new_info self.now.rows.now.info self.now.rows.now.part) key.now }
    {
        let index = self.index.as_deref().map(|index| &index[..]);
        Indexed::alone(self.rows.table(), index).look_up(key)
    }

    // A row appended, and noted in the index.
    fn append(&mut self, row: &[u32])
        requires { length row.now ≡ self.old.rows.now.info.width }
        ensures { LeavesNoted self.old self.new (appended row.now (rows_of self.old.rows.now)) }
    {
        let count = self.rows.part.count;
        if !self.rows.append(row) {
            return;
        }
        if let Some(index) = &mut *self.index {
            hash_index::add(index, count, hash_index::home(&row[..self.rows.info.keys]));
        }
    }

    // A row of the log. Its values are merged into the row that has its key; else it is appended.
    pub fn put(&mut self, row: &[u32])
        requires { length row.now ≡ self.old.rows.now.info.width }
        ensures { LeavesNoted self.old self.new (put_row self.old.rows.now.info row.now (rows_of self.old.rows.now)) }
    {
        match self.find(&row[..self.rows.info.keys]) {
            Some(p) => self.rows.merge(p, row),
            None => self.append(row),
        }
    }
}
