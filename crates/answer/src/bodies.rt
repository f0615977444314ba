// The bodies of tables and of the log.
ghost use Rattle.std.specs.Prelude.{◌≡◌, ◌∷◌, ◌+◌, ◌<◌, ◌≤◌, length, take};
ghost use Rattle.std.proofs.lemmas.List.Edits.{sets};
ghost use Rattle.model.specs.Answer as model;
ghost use Rattle.step_bodies.specs.Page.{Appends, Room};
ghost use Rattle.answer.specs.Sums.{sum};
ghost use Rattle.answer.specs.Layout.{rows_length, table_words, tables_words};

use crate::entries::Sizes;
use ids::TableId;
use step_bodies::Page;

// The first n words go d words to the right, the last one first. A loop: the library's `copy_within` is memmove, which whoever links the archive would have to have.
pub fn shift(answer: &mut [u32], n: usize, d: usize)
    requires { d + n ≤ length answer.old }
    ensures { answer.new ≡ sets answer.old d (take n answer.old) }
{
    for i in 0..n {
        let j = n - 1 - i;
        answer[d + j] = answer[j];
    }
}

impl Sizes<'_> {
    // A table, whose rows stand at the word `from` of `rows`.
    fn write_table(self, rows: &[u32], from: usize, table: TableId, page: &mut Page)
        requires { (table.0 < self.contents.tables)
            × (from + rows_length self.words.now self.counts.now table.0 ≤ length rows.now)
            × Room page.old (length (table_words self.words.now self.counts.now rows.now from table.0)) }
        ensures { Appends page.old page.new
            (table_words self.entry.words.now self.entry.counts.now rows.now from table.0) }
    {
        let t = usize::from(table);
        let body = contents::first_of(self.words, t);
        let n = self.rows_length(table);
        page.push(words::word(self.words, body));
        page.push(words::word(self.words, body + 1));
        page.push(words::word(self.words, body + 2));
        page.push(words::word(self.counts, t));
        page.write(&rows[from..from + n]);
    }

    // The tables, whose rows stand in `rows` one table after the other.
    pub fn write_tables(self, rows: &[u32], page: &mut Page)
        requires { (sum (rows_length self.words.now self.counts.now) self.contents.tables ≤ length rows.now)
            × Room page.old (length (tables_words self.words.now self.counts.now rows.now self.contents.tables)) }
        ensures { Appends page.old page.new
            (tables_words self.entry.words.now self.entry.counts.now rows.now self.entry.contents.tables) }
    {
        let mut from = 0;
        for t in 0..self.contents.table_count() {
            let table = TableId(t as u32);
            self.write_table(rows, from, table, page);
            from += self.rows_length(table);
        }
    }
}

// The changed flag and the words of the log's records.
pub fn write_log(changed: bool, log: &[u32], page: &mut Page)
    requires { Room page.old (1 + length log.now) }
    ensures { Appends page.old page.new (model.flag changed ∷ log.now) }
{
    page.push(u32::from(changed));
    page.write(log);
}
