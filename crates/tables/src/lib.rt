// The tables of a book: their sizes, and their rows by key.
#![tactic(auto)]

ghost use Rattle.std.specs.Prelude.{◌≡◌, ◌+◌, ◌^◌, ◌≤◌, ◌<◌, length};
ghost use Rattle.tables.specs.Tables.{info_at, info_of, row_at, same_words, Stands, found_row};

// A table's key count, the words of a row, its merge rule, its row count, and the word of its first row.
#[derive(Clone, Copy)]
pub struct TableInfo {
    pub keys: usize,
    pub width: usize,
    pub merge: u32,
    pub rows: usize,
    pub at: usize,
}

impl TableInfo {
    // The first word of row i.
    pub fn row_at(self, i: usize) -> usize
        requires { row_at self i < 2 ^ 64 }
        ensures { result ≡ row_at self i }
    {
        self.at + i * self.width
    }
}

// Read from the book's words, where the table's body begins; where no table stands, the numbers mean nothing.
pub fn info_at(words: &[u32], body: usize) -> TableInfo
    requires { body + 4 < 2 ^ 64 }
    ensures { result ≡ info_at words.now body }
{
    let keys = words::size_at(words, body);
    TableInfo {
        keys,
        width: keys + words::size_at(words, body + 1),
        merge: words::word(words, body + 2),
        rows: words::size_at(words, body + 3),
        at: body + 4,
    }
}

// The same as `info_at`, of the table with a number.
pub fn info_of(words: &[u32], t: ids::TableId) -> TableInfo
    ensures { result ≡ info_of words.now t.0 }
{
    info_at(words, contents::first_of(words, usize::from(t)))
}

// How many rows it has.
pub fn rows_of(words: &[u32], t: ids::TableId) -> usize
    ensures { (result ≡ (info_of words.now t.0).rows) × (result < 4294967296) }
{
    words::size_at(words, contents::first_of(words, usize::from(t)) + 3)
}

// Whether the words from `at` on are the key. Compared by place: `starts_with` and `==` of slices take more instructions for the few words of a key.
pub fn same_words(rows: &[u32], at: usize, key: &[u32]) -> bool
    requires { at + length key.now ≤ length rows.now }
    ensures { result ≡ same_words rows.now at key.now (length key.now) }
{
    (0..key.len()).all(|i| rows[at + i] == key[i])
}

// A table's rows, where they stand in the words.
#[derive(Clone, Copy)]
pub struct Rows<'a> {
    pub words: &'a [u32],
    pub info: TableInfo,
    ghost stands: { Stands words.now info },
}

impl Rows<'_> {
    // The row with the key: the first words of it, as many as the table's keys have. Each row's place is added to the one before: worked out by `row_at`, it is a multiplication for every row that is passed.
    #[tactic(auto, using(crate::specs::TablesLaws::found_nothing))]
    pub fn find(self, key: &[u32]) -> Option<usize>
        requires { self.info.keys ≤ length key.now }
        ensures { result ≡ found_row self.entry.words.now self.entry.info key.now }
    {
        let info = self.info;
        let key = &key[..info.keys];
        let mut at = info.at;
        for i in 0..info.rows {
            if same_words(self.words, at, key) {
                return Some(at);
            }
            at += info.width;
        }
        None
    }
}
