// The end of a run: refusals 12 and 13 where it stopped; else the commit, refusal 15, the answer, and refusal 16.
#![tactic(auto)]

ghost use Rattle.std.specs.Prelude.{◌≡◌, ◌≤◌, length};
ghost use Rattle.execution.specs.Execution.{left_state};
ghost use Rattle.answer.specs.Layout.{place_after};
ghost use Rattle.run.specs.Progress.{SameAnswer, as_progress};
ghost use Rattle.conclude.specs.End.{Settles, RanOn, refused, settled, concluded, as_settling};

use contents::Book;
use execution::{Left, Stop};
use refusal::Refusal;
use run::Answered;

// The commit into `tables`, and the answer.
fn settle(book: Book, p: &mut Answered, left: Left, tables: &mut [u32]) -> Result<usize, Refusal>
    requires { (length tables.old ≤ 16384)
        × Settles book.words.now (as_progress p.old (left_state left)) left.log.now p.old.page.now.words.now }
    ensures is { as_settling result tables.new p.new.page.now.words.now
        ≡ settled book.entry.words.now (as_progress p.old (left_state left.entry)) left.entry.log.now tables.old p.old.page.now.words.now }
    ensures same { SameAnswer p.old p.new }
    ensures kept { (p.new.done ≡ p.old.done) × (p.new.lengths ≡ p.old.lengths) }
    ensures place { p.new.page.now.at ≡ place_after result p.old.page.now.at }
{
    let words = book.words;
    let done = commit::commit(words, book.contents.table_count(), left.log, tables);
    if done.over {
        return Err(Refusal::RowsFull);
    }
    answer::assemble(words, tables, done, left, &p.lengths, p.page)
}

// The refusal of a run that stopped at a step.
fn refused(why: Stop, step: usize) -> Refusal
    ensures { result ≡ refused why step }
{
    match why {
        Stop::Spent => Refusal::CounterSpent(step),
        Stop::Full => Refusal::LogFull(step),
    }
}

// What a run comes to, by why it ended.
pub fn conclude(
    book: Book,
    p: &mut Answered,
    left: Left,
    tables: &mut [u32],
) -> Result<usize, Refusal>
    requires { (p.old.done ≤ 64) × (length tables.old ≤ 16384)
        × RanOn book.words.now (as_progress p.old (left_state left)) left.log.now p.old.page.now.words.now }
    ensures is { as_settling result tables.new p.new.page.now.words.now
        ≡ concluded book.entry.words.now (as_progress p.old (left_state left.entry)) left.entry.log.now tables.old p.old.page.now.words.now }
    ensures same { SameAnswer p.old p.new }
    ensures kept { (p.new.done ≡ p.old.done) × (p.new.lengths ≡ p.old.lengths) }
    ensures place { p.new.page.now.at ≡ place_after result p.old.page.now.at }
{
    match left.stop {
        None => settle(book, p, left, tables),
        Some(why) => Err(refused(why, book.step(p.done))),
    }
}
