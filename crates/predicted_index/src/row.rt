// The row of a key, as a part of the words that hold it: of the book's where it is committed, of the log's where it is predicted.
ghost use Rattle.std.specs.Prelude.{◌≡◌, ◌≤◌, length, option_copied};
ghost use Rattle.tables.specs.Tables.{found_row};
ghost use Rattle.predicted_index.specs.Home.{home_of};
ghost use Rattle.predicted_index.specs.Index.{slot_of};
ghost use Rattle.predicted_index.specs.Row.{sought_in, Searchable, predicted_part, row_of};

use crate::Slot;
use hash_index::Indexed;
use ids::TableId;
use tables::{Rows, TableInfo};

// The table in which a row is sought: its number, its sizes, and the number of its first row among the committed rows of all tables.
#[derive(Clone, Copy)]
pub struct Sought {
    pub table: TableId,
    pub info: TableInfo,
    pub first: usize,
}

impl Sought {
    // The table with a number.
    pub fn of(words: &[u32], table: TableId) -> Self
        ensures { result ≡ sought_in words.now table }
    {
        Sought {
            table,
            info: tables::info_of(words, table),
            first: hash_index::rows_before(words, usize::from(table)),
        }
    }
}

// The predicted row with the key, or no words: who reads a row does so when it is there.
#[tactic(auto, using(crate::specs::IndexLaws::slot_of_taken, crate::specs::RowLaws::none_sought))]
fn in_log<'a>(log: &'a [u32], index: &[u32], of: Sought, key: &[u32]) -> &'a [u32]
    requires { (of.info.keys ≤ 16) × (of.info.keys ≤ length key.now) }
    ensures { result.now ≡ predicted_part log.now of.info.width
        (slot_of home_of index.now log.now of.table.0 key.now
        of.info.keys) }
{
    // No home is worked out for an index that has no rows.
    if index.is_empty() {
        return &log[..0];
    }
    match crate::get(index, log, of.table, &key[..of.info.keys]) {
        Slot::Hit(p) => words::part(log, p + 2, of.info.width),
        Slot::Free(_) | Slot::Full => &log[..0],
    }
}

// Where the committed row with the key stands, by an index of the committed rows if there is one.
pub fn committed(words: &[u32], chains: Option<&[u32]>, of: Sought, key: &[u32]) -> Option<usize>
    requires { Searchable words.now (option_copied chains) of × (of.info.keys ≤ length key.now) }
    ensures { result ≡ found_row words.now of.info key.now }
{
    let rows = Rows {
        words,
        info: of.info,
    };
    let table = Indexed {
        rows,
        index: chains,
        first: of.first,
    };
    table.look_up(key)
}

// The committed row with the key, else the predicted one, else no words. An empty index of the predicted rows finds none.
#[tactic(auto, unfolding(crate::specs::Row::row_of))]
pub fn row_of<'a>(
    words: &'a [u32],
    log: &'a [u32],
    chains: Option<&[u32]>,
    index: &[u32],
    of: Sought,
    key: &[u32],
) -> &'a [u32]
    requires { Searchable words.now (option_copied chains) of × (of.info.keys ≤ length key.now) }
    ensures { result.now ≡ row_of home_of words.now log.now index.now of key.now }
{
    match committed(words, chains, of, key) {
        Some(p) => words::part(words, p, of.info.width),
        None => in_log(log, index, of, key),
    }
}
