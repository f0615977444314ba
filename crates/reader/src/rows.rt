// Rows whose key stands earlier in their table: refusal 5. A row is one if the first row with its key is another.
ghost use Rattle.std.specs.Prelude.{◌≡◌, ℕ, ◌+◌, ◌<◌, ◌≤◌, length};
ghost use Rattle.model.specs.Book.Read.{is_repeat, rows_refusal};
ghost use Rattle.tables.specs.Tables.{info_at, RowsStand};
ghost use Rattle.refusal.specs.Refusal.{refusal_of};
ghost use Rattle.reader.specs.Places.{rows_of, RowAt};

use hash_index::Indexed;
use refusal::Refusal;
use tables::Rows;

// Whether the row that begins at `own` has the key of an earlier row.
fn is_repeat(table: Indexed, own: usize) -> bool
    requires { (0 < table.rows.info.width) × (own + table.rows.info.width ≤ length table.rows.words.now) }
    ensures { (i : ℕ) → RowAt table.entry.rows.info i own
        → result ≡ is_repeat table.entry.rows.info.keys
        (rows_of table.entry.rows.words.now table.entry.rows.info) i }
{
    let rows = table.rows;
    table
        .look_up(&rows.words[own..own + rows.info.keys])
        .is_some_and(|p| p < own)
}

// The first row of a table that repeats a key.
fn first_repeat(table: Indexed) -> Result<(), Refusal>
    requires { 0 < table.rows.info.width }
    ensures { (at : ℕ) → table.entry.rows.info ≡ info_at table.entry.rows.words.now at
        → refusal_of result ≡ rows_refusal table.entry.rows.words.now at }
{
    let info = table.rows.info;
    for i in 0..info.rows {
        let own = info.row_at(i);
        if is_repeat(table, own) {
            return Err(Refusal::Repeat(own));
        }
    }
    Ok(())
}

// The same, by an index that is made for it.
fn first_indexed(rows: Rows) -> Result<(), Refusal>
    requires { (0 < rows.info.width) × (rows.info.rows ≤ 16384) }
    ensures { (at : ℕ) → rows.entry.info ≡ info_at rows.entry.words.now at
        → refusal_of result ≡ rows_refusal rows.entry.words.now at }
{
    let mut index = [0u32; hash_index::INDEX_WORDS];
    hash_index::build(rows, &mut index);
    first_repeat(Indexed::alone(rows, Some(&index)))
}

// Refusal 5 of the table at `at`.
pub fn repeated(words: &[u32], at: usize) -> Result<(), Refusal>
    requires { RowsStand words.now (info_at words.now at) }
    ensures { refusal_of result ≡ rows_refusal words.now at }
{
    let rows = Rows {
        words,
        info: tables::info_at(words, at),
    };
    if hash_index::serves(rows.info.rows) {
        return first_indexed(rows);
    }
    first_repeat(Indexed::alone(rows, None))
}
