// The answer book: contents, then tables, counters, a body for each step in step order, and the log.
#![tactic(auto)]

mod bodies;
mod entries;

ghost use Rattle.std.specs.Prelude.{◌≡◌, ◌≤◌, length, take};
ghost use Rattle.model.specs.Laws.Book.{Readable};
ghost use Rattle.execution.specs.Execution.{left_state};
ghost use Rattle.step_bodies.specs.Page.{SamePage};
ghost use Rattle.answer.specs.Layout.{whole_length, answered, assembled, assembled_length, place_after, results_of, left_by, Enough};

use crate::entries::Sizes;
use commit::Committed;
use execution::Left;
use refusal::Refusal;
use step_bodies::Page;

// The step bodies go from the front to their place, and the rest around them.
fn fill(sizes: Sizes, rows: &[u32], next: &[u32], log: &[u32], changed: bool, page: &mut Page)
    requires { (sizes.used ≡ length log.now)
        × (sizes.contents.counters ≤ length next.now)
        × Enough
        (results_of sizes.words.now sizes.counts.now rows.now next.now sizes.lengths.now
        (take page.old.at page.old.words.now) changed log.now) page.old.at page.old.words.now
        × (whole_length
        (results_of sizes.words.now sizes.counts.now rows.now next.now sizes.lengths.now
        (take page.old.at page.old.words.now) changed log.now)
        ≤ length page.old.words.now) }
    ensures same { SamePage page.old page.new }
    ensures words { page.new.words.now ≡ answered
        (results_of sizes.entry.words.now sizes.entry.counts.now rows.now next.now sizes.entry.lengths.now
        (take page.old.at page.old.words.now) changed log.now) (length page.old.words.now) }
    ensures place { page.new.at ≡ whole_length
        (results_of sizes.entry.words.now sizes.entry.counts.now rows.now next.now sizes.entry.lengths.now
        (take page.old.at page.old.words.now) changed log.now) }
{
    let tables = sizes.contents.table_count();
    let counters = sizes.contents.counter_count();
    let n = sizes.bodies();
    let first = 1 + 3 * n;
    let before = sizes.length_of(tables + counters);
    let steps = page.at;
    bodies::shift(page.words, steps, first + before);
    page.at = 0;
    page.push(n as u32);
    sizes.write_entries(n, first, page);
    sizes.write_tables(rows, page);
    page.write(&next[..counters]);
    // past the step bodies
    page.at += steps;
    bodies::write_log(changed, log, page);
}

// Puts the answer of a run together in the page's words and answers how many it has. The page has the step bodies at its front; `tables` has the rows that the commit left. Where the answer has no room the words and the place stay as they are.
pub fn assemble(
    words: &[u32],
    tables: &[u32],
    done: Committed,
    left: Left,
    lengths: &[u32],
    page: &mut Page,
) -> Result<usize, Refusal>
    requires { Readable words.now
        × Enough (left_by words.now tables.now left.log.now lengths.now page.old.at page.old.words.now done
        (left_state left))
        page.old.at page.old.words.now }
    ensures same { SamePage page.old page.new }
    ensures words { page.new.words.now ≡ assembled
        (left_by words.now tables.now left.entry.log.now lengths.now page.old.at page.old.words.now done
        (left_state left.entry))
        page.old.words.now }
    ensures length { result ≡ assembled_length
        (left_by words.now tables.now left.entry.log.now lengths.now page.old.at page.old.words.now done
        (left_state left.entry))
        (length page.old.words.now) }
    ensures place { page.new.at ≡ place_after result page.old.at }
{
    let counts = done.counts;
    let sizes = Sizes {
        words,
        contents: contents::of(words),
        counts: &counts,
        lengths,
        used: left.log.len(),
    };
    let n = sizes.bodies();
    let total = 1 + 3 * n + sizes.length_of(n);
    if page.words.len() < total {
        return Err(Refusal::AnswerFull);
    }
    fill(
        sizes,
        tables,
        &left.counters.next,
        left.log,
        left.changed,
        page,
    );
    Ok(total)
}
