// The steps of a book, one after the other. Each step's body goes to the front of the answer's words, past those of the steps before it.
#![tactic(auto)]

ghost use Rattle.std.specs.Prelude.{◌≡◌, ◌^◌, ◌≤◌, ◌<◌};
ghost use Rattle.model.specs.Book.Contents.{kind_of, step_count};
ghost use Rattle.hash_index.specs.Book.{rows_before};
ghost use Rattle.predict.specs.Predict.{SameWords};
ghost use Rattle.step.specs.Steps.{IsStep, row_answered};
ghost use Rattle.step_bodies.specs.Page.{Places};
ghost use Rattle.step_bodies.specs.Steps.{prediction_words};
ghost use Rattle.run.specs.Progress.{Early, Within, SameAnswer, counted, batch_step, prediction_at, ran_next, ran_steps, as_ran};

use contents::{Book, Kind};
use hash_index::IndexedBook;
use predict::Execution;
use step::Prediction;
use step_bodies::Page;

// How many steps have answered, the page that their bodies are put on, and how many words each has.
#[derive(Drop)]
pub struct Answered<'a, 'b> {
    pub done: usize,
    pub page: &'a mut Page<'b>,
    pub lengths: [u32; 64],
}

// A step has answered, and its body begins at the word `from`.
fn advance(p: &mut Answered, from: usize)
    requires { (p.old.done < 64) × (from ≤ p.old.page.now.at) × (p.old.page.now.at < 4294967296) }
    ensures { p.new ≡ counted from p.old }
{
    p.lengths[p.done] = (p.page.at - from) as u32;
    p.done += 1;
}

// The step of entry i, a batch, and its body.
#[tactic(auto, unfolding(crate::specs::Progress::batch_step))]
fn batch_step(
    indexed: IndexedBook,
    i: usize,
    p: &mut Answered,
    run: &mut Execution,
    bindings: &mut [u32; 8192],
)
    requires { IsStep indexed.book.words.now i × (kind_of indexed.book.words.now i ≡ 4) × Early p.old }
    ensures is { as_ran p.new run.new bindings.new
        ≡ batch_step indexed.entry.book.words.now i (as_ran p.old run.old bindings.old) }
    ensures fits { Within p.old p.new }
    ensures same { SameWords run.old run.new × SameAnswer p.old p.new }
{
    let batch = step::run_batch(indexed, i, run, bindings);
    if run.buffer.state.going() {
        let from = p.page.at;
        step_bodies::write_batch(bindings, batch.bindings, batch.mask, p.page);
        advance(p, from);
    }
}

// The body of a prediction, whose row stands by now.
fn write_row(asked: Prediction, run: &Execution, made: bool, page: &mut Page)
    requires { page.old.at ≤ 2 ^ 32 }
    ensures { Places page.old page.new (prediction_words made
        (row_answered asked.entry.indexed.book.words.now asked.entry.at
        run.now.buffer.log.words.now run.now.index.now)) }
{
    let row = step::row_answered(asked, run.buffer.log.words, run.index);
    step_bodies::write_prediction(row, made, page);
}

// The step that is a prediction, and its body.
#[tactic(auto, unfolding(crate::specs::Progress::prediction_at))]
fn prediction_step(asked: Prediction, p: &mut Answered, run: &mut Execution, bindings: &[u32; 8192])
    requires { Early p.old }
    ensures is { as_ran p.new run.new bindings.now
        ≡ prediction_at asked.entry.indexed.book.words.now asked.entry.at (as_ran p.old run.old bindings.now) }
    ensures fits { Within p.old p.new }
    ensures same { SameWords run.old run.new × SameAnswer p.old p.new }
{
    let made = step::run_prediction(asked, run, bindings);
    if !run.buffer.state.going() {
        return;
    }
    let from = p.page.at;
    write_row(asked, run, made, p.page);
    advance(p, from);
}

// The next step, if the run goes on.
#[tactic(auto, unfolding(crate::specs::Progress::ran_next))]
fn run_next(indexed: IndexedBook, p: &mut Answered, run: &mut Execution, bindings: &mut [u32; 8192])
    requires { (p.old.done < step_count indexed.book.words.now) × Early p.old }
    ensures is { as_ran p.new run.new bindings.new
        ≡ ran_next indexed.entry.book.words.now (as_ran p.old run.old bindings.old) }
    ensures fits { Within p.old p.new }
    ensures same { SameWords run.old run.new × SameAnswer p.old p.new }
{
    if run.buffer.state.stop.is_some() {
        return;
    }
    let book = indexed.book;
    let i = book.step(p.done);
    if contents::body_kind(book.words, i) == Some(Kind::Batch) {
        batch_step(indexed, i, p, run, bindings)
    } else {
        let asked = Prediction {
            indexed,
            at: contents::first_of(book.words, i),
        };
        prediction_step(asked, p, run, bindings)
    }
}

// All steps, one after the other.
fn run_each(indexed: IndexedBook, p: &mut Answered, run: &mut Execution, bindings: &mut [u32; 8192])
    requires { (p.old.done ≡ 0) × (p.old.page.now.at ≡ 0) }
    ensures is { as_ran p.new run.new bindings.new
        ≡ ran_steps indexed.entry.book.words.now (step_count indexed.entry.book.words.now)
        (as_ran p.old run.old bindings.old) }
    ensures fits { (p.new.done ≤ 64) × (p.new.page.now.at ≤ 1048576) }
    ensures same { SameWords run.old run.new × SameAnswer p.old p.new }
{
    for _ in 0..indexed.book.contents.step_count() {
        run_next(indexed, p, run, bindings);
    }
}

// All steps of a book, by an index that is made for it or by none. None has answered before.
pub fn run_steps(book: Book, p: &mut Answered, run: &mut Execution, bindings: &mut [u32; 8192])
    requires { (p.old.done ≡ 0) × (p.old.page.now.at ≡ 0) }
    ensures is { as_ran p.new run.new bindings.new
        ≡ ran_steps book.entry.words.now (step_count book.entry.words.now)
        (as_ran p.old run.old bindings.old) }
    ensures fits { (p.new.done ≤ 64) × (p.new.page.now.at ≤ 1048576) }
    ensures same { SameWords run.old run.new × SameAnswer p.old p.new }
{
    let words = book.words;
    let tables = book.contents.table_count();
    if hash_index::serves(hash_index::rows_before(words, tables)) {
        let mut chains = [0u32; hash_index::INDEX_WORDS];
        hash_index::build_all(words, tables, &mut chains);
        let indexed = IndexedBook {
            book,
            chains: Some(&chains),
        };
        return run_each(indexed, p, run, bindings);
    }
    let indexed = IndexedBook { book, chains: None };
    run_each(indexed, p, run, bindings)
}
