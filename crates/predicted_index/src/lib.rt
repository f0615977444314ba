// What PredictedVals is made of: an index of 8192 words over the predicted rows of the log, by table and key.
// A slot is 0 where it is free, else the place of a record in the log plus 1. A row stands at the first slot, from its key's home on, that was free when it came.
#![tactic(auto)]

mod row;

ghost use Rattle.std.specs.Prelude.{◌≡◌, ◌+◌, ◌≤◌, ◌<◌, length, set};
ghost use Rattle.predicted_index.specs.Home.{home_of};
ghost use Rattle.predicted_index.specs.Index.{answers, slot_of, Small};

pub use row::{Sought, committed, row_of};

// The place of the record that has the key; or the free slot where it belongs; or neither, after all slots.
#[derive(Clone, Copy)]
pub enum Slot {
    Hit(usize),
    Free(usize),
    Full,
}

// The slot from which a key of a table is looked for: the high 13 bits of the table's number and the key's words, folded. The laws of the index hold for any other.
fn home_of(table: ids::TableId, key: &[u32]) -> usize
    ensures { (result ≡ home_of table.0 key.now) × (result < 8192) }
{
    let h = key
        .iter()
        .fold(hash_index::mix(0, table.0), |h, x| hash_index::mix(h, *x));
    (h / 524288) as usize
}

// Whether v, a place plus 1, stands for a record of this table whose words begin with the key.
#[tactic(auto, unfolding(crate::specs::Index::answers))]
fn matches(log: &[u32], table: ids::TableId, key: &[u32], v: usize) -> bool
    requires { (length key.now ≤ 16) × (v < 4294967296) }
    ensures { result ≡ answers log.now table.0 key.now (length key.now) v }
{
    v + 1 + key.len() <= log.len() && log[v] == table.0 && tables::same_words(log, v + 1, key)
}

// Where the predicted row of a key stands in the log, or would stand in the index; past the end of an index there are free slots.
#[tactic(auto, using(crate::specs::IndexLaws::probing, tables::specs::TablesLaws::front_all), unfolding(crate::specs::Index::slot_of))]
pub fn get(index: &[u32], log: &[u32], table: ids::TableId, key: &[u32]) -> Slot
    requires { length key.now ≤ 16 }
    ensures is { result ≡ slot_of home_of index.now log.now table.0 key.now (length key.now) }
    ensures small { Small result }
{
    let home = home_of(table, key);
    for j in 0..8192 {
        let s = (home + j) % 8192;
        let v = words::size_at(index, s);
        if v == 0 {
            return Slot::Free(s);
        }
        if matches(log, table, key, v) {
            return Slot::Hit(v - 1);
        }
    }
    Slot::Full
}

// A new row's place, at the free slot that `get` found.
pub fn insert(index: &mut [u32], slot: usize, place: usize)
    requires { (slot < length index.old) × (place < 4294967295) }
    ensures { index.new ≡ set index.old slot (place + 1) }
{
    index[slot] = (place + 1) as u32;
}
