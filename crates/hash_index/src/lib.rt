// An index over the rows of one or more tables, by key: 1024 heads and 1024 tails of chains, then a link for each row. A word of it is a row's number plus 1, or 0 for none. A chain has the rows whose keys have one home, ascending. The rows of a table are numbered on end, from the number of its first row on.
#![tactic(auto)]

mod all_tables;

ghost use Rattle.std.specs.Prelude.{◌≡◌, ◌+◌, ◌-◌, ◌<◌, ◌≤◌, false, true, length, replicate, slice_index, MatchOption, option_copied};
ghost use Rattle.tables.specs.Tables.{row_at, found_row};
ghost use Rattle.hash_index.specs.Fold.{mixed};
ghost use Rattle.hash_index.specs.Index.{home_of, home_in, end_of, added, rows_added, indexed, TailsBelow, Has, is_row, IndexAmong, IndexOf, serves};

pub use all_tables::{IndexedBook, build_all, rows_before};
use tables::Rows;

// How many words an index has: the heads, the tails and 16384 links.
pub const INDEX_WORDS: usize = 18432;

// A product by an odd number, wrapping at 32 bits: its high bits depend on all bits of the sum.
pub fn mix(h: u32, x: u32) -> u32
    ensures { result ≡ mixed h x }
{
    h.wrapping_add(x).wrapping_mul(2654435761)
}

// The home of a key: the high 10 bits of its words, folded.
pub fn home(key: &[u32]) -> usize
    ensures { (result ≡ home_of key.now) × (result < 1024) }
{
    let h = key.iter().fold(0, |h, x| mix(h, *x));
    (h / 4194304) as usize
}

// The word that tells the row after the last of a chain: its link, or the head of a chain that is empty.
fn end_of(last: usize, h: usize) -> usize
    requires { (last ≤ 16384) × (h < 1024) }
    ensures { (result ≡ end_of last h) × (result < 18432) }
{
    if last == 0 { h } else { 2047 + last }
}

// One row more, of number n and home h, at the end of its chain.
#[tactic(auto, unfolding(crate::specs::Index::added))]
pub fn add(index: &mut [u32; INDEX_WORDS], n: usize, h: usize)
    requires { (n < 16384) × (h < 1024) × (slice_index index.old (1024 + h) ≤ n) }
    ensures { index.new ≡ added n h index.old }
{
    let row = (n + 1) as u32;
    let last = index[1024 + h] as usize;
    index[1024 + h] = row;
    index[end_of(last, h)] = row;
}

// All rows of a table, numbered from `first` on.
#[tactic(auto, unfolding(crate::specs::Index::rows_added))]
pub fn add_rows(rows: Rows, first: usize, index: &mut [u32; INDEX_WORDS])
    requires { (first + rows.info.rows ≤ 16384) × TailsBelow first index.old }
    ensures { index.new ≡ rows_added rows.entry.words.now rows.entry.info first rows.entry.info.rows index.old }
{
    let info = rows.info;
    for i in 0..info.rows {
        let at = info.row_at(i);
        add(index, first + i, home(&rows.words[at..at + info.keys]));
    }
}

// All rows of a table alone, into an index that is zero.
pub fn build(rows: Rows, index: &mut [u32; INDEX_WORDS])
    requires { (rows.info.rows ≤ 16384) × (index.old ≡ replicate 18432 0) }
    ensures { index.new ≡ indexed (home_in rows.entry.words.now rows.entry.info) rows.entry.info.rows }
{
    add_rows(rows, 0, index)
}

// The first word of row p - 1 of all rows, if it is one of the table and has the key.
#[tactic(auto, using(tables::specs::TablesLaws::row_within, tables::specs::TablesLaws::same_taken), unfolding(crate::specs::Index::is_row))]
fn its_row(rows: Rows, first: usize, p: usize, key: &[u32]) -> Option<usize>
    requires { (first + rows.info.rows ≤ 16384) × (rows.info.keys ≤ length key.now) }
    ensures { MatchOption result (is_row rows.entry.words.now rows.entry.info key.now first p ≡ false)
        (λ at. (is_row rows.entry.words.now rows.entry.info key.now first p ≡ true)
        × (at ≡ row_at rows.entry.info (p - 1 - first))) }
{
    let info = rows.info;
    if p <= first || first + info.rows < p {
        return None;
    }
    let at = info.row_at(p - 1 - first);
    tables::same_words(rows.words, at, &key[..info.keys]).then_some(at)
}

// A table's rows with an index that has them, numbered from `first` on; or with none, and all rows are looked at.
#[derive(Clone, Copy)]
pub struct Indexed<'a, 'i> {
    pub rows: Rows<'a>,
    pub index: Option<&'i [u32]>,
    pub first: usize,
    ghost indexed: { ∥ IndexAmong rows.words.now rows.info first (option_copied index) ∥₁ },
}

// The row with the key, as `Rows::find` finds it. A chain is followed by a `while`: the library's `successors` says nothing of how many rows it gives, which `find_map` would ask.
fn find(rows: Rows, index: &[u32], first: usize, key: &[u32]) -> Option<usize>
    requires { ∥ Has rows.words.now rows.info first index.now ∥₁ × (rows.info.keys ≤ length key.now) }
    ensures { result ≡ found_row rows.entry.words.now rows.entry.info key.now }
{
    let mut p = index[home(&key[..rows.info.keys])] as usize;
    while p != 0 {
        if let Some(at) = its_row(rows, first, p, key) {
            return Some(at);
        }
        p = index[2047 + p] as usize;
    }
    None
}

impl<'a, 'i> Indexed<'a, 'i> {
    // The rows with an index that has no others.
    #[tactic(auto, using(crate::specs::BookLaws::among_alone))]
    pub fn alone(rows: Rows<'a>, index: Option<&'i [u32]>) -> Self
        requires { IndexOf rows.words.now rows.info (option_copied index) }
        ensures { (result.rows.words.now ≡ rows.entry.words.now) × (result.rows.info ≡ rows.entry.info)
            × (option_copied result.index ≡ option_copied index.entry) × (result.first ≡ 0) }
    {
        Indexed {
            rows,
            index,
            first: 0,
        }
    }

    // The row with the key, as `Rows::find` finds it.
    pub fn look_up(self, key: &[u32]) -> Option<usize>
        requires { self.rows.info.keys ≤ length key.now }
        ensures { result ≡ found_row self.entry.rows.words.now self.entry.rows.info key.now }
    {
        match self.index {
            Some(index) => find(self.rows, index, self.first, key),
            None => self.rows.find(key),
        }
    }
}

// Whether so many rows are enough for an index to be of use, and no more than it has links for.
pub fn serves(rows: usize) -> bool
    ensures { result ≡ serves rows }
{
    (32..=16384).contains(&rows)
}
