// The rows of all tables of a book in one index: those of a table are numbered past those of the tables before it.
ghost use Rattle.std.specs.Prelude.{◌≡◌, ℕ, ◌<◌, ◌≤◌, replicate, option_copied};
ghost use Rattle.std.proofs.Props.{props};
ghost use Rattle.model.specs.Book.Contents.{table_count};
ghost use Rattle.tables.specs.Tables.{info_of, Stands};
ghost use Rattle.hash_index.specs.Book.{rows_before, book_indexed, BookIndex};

use crate::INDEX_WORDS;
use contents::Book;
use ids::TableId;
use tables::Rows;

// How many rows the first n tables have: the number of the first row of the next.
#[tactic(auto, unfolding(crate::specs::Book::rows_before))]
pub fn rows_before(words: &[u32], n: usize) -> usize
    requires { n ≤ 4294967296 }
    ensures { result ≡ rows_before words.now n }
{
    (0..n)
        .map(|t| tables::rows_of(words, TableId(t as u32)))
        .sum()
}

// All rows of the first n tables, into an index that is zero.
#[tactic(auto, using(crate::specs::BookLaws::before_within), unfolding(crate::specs::Book::rows_before, crate::specs::Book::book_indexed))]
pub fn build_all(words: &[u32], n: usize, index: &mut [u32; INDEX_WORDS])
    requires { (n ≤ 16) × ((t : ℕ) → t < n → Stands words.now (info_of words.now t)) × (rows_before words.now n ≤ 16384)
        × (index.old ≡ replicate 18432 0) }
    ensures { index.new ≡ book_indexed words.now n }
{
    let mut first = 0;
    for t in 0..n {
        let info = tables::info_of(words, TableId(t as u32));
        crate::add_rows(Rows { words, info }, first, index);
        first += info.rows;
    }
}

// A book with an index of the rows of all its tables, or with none.
#[derive(Clone, Copy)]
pub struct IndexedBook<'a, 'i> {
    pub book: Book<'a>,
    pub chains: Option<&'i [u32]>,
    ghost indexed: { BookIndex book.words.now (table_count book.words.now) (option_copied chains) } by { Prim.hlevel props },
}
