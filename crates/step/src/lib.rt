// The two kinds of step: a batch runs its rule, a prediction asks for a row.
#![tactic(auto)]

ghost use Rattle.std.specs.Prelude.{◌≡◌, ◌+◌, ◌*◌, ◌≤◌, ◌<◌};
ghost use Rattle.model.specs.Book.Contents.{first_of, kind_of};
ghost use Rattle.execution.specs.Execution.{state_of};
ghost use Rattle.predict.specs.Predict.{SameWords, as_gotten};
ghost use Rattle.action.specs.Run.{as_running};
ghost use Rattle.step.specs.Steps.{IsStep, Asks, lane_count, ran_batch, row_asked, key_asked, asked_row, row_answered};

use action::Batch;
use args::Args;
use bindings::Bindings;
use bound_vars::Bound;
use hash_index::IndexedBook;
use ids::TableId;
use instr::Entries;
use lanes::View;
use mask::Mask;
use predict::{Execution, Keyed, Row};
use predicted_index::Sought;

// With no columns a batch has one lane.
fn lane_count(v: u32, lanes: usize) -> usize
    ensures { result ≡ lane_count v lanes }
{
    if v == 0 { 1 } else { lanes }
}

// The batch of entry i: its own columns, all lanes live, and then its rule.
#[tactic(auto, unfolding(crate::specs::Steps::ran_batch))]
pub fn run_batch(
    indexed: IndexedBook,
    i: usize,
    run: &mut Execution,
    bindings: &mut [u32; 8192],
) -> Batch
    requires { IsStep indexed.book.words.now i × (kind_of indexed.book.words.now i ≡ 4) }
    ensures is { as_running result run.new bindings.new
        ≡ ran_batch indexed.entry.book.words.now (first_of indexed.entry.book.words.now i)
        (state_of run.old.buffer) run.old.buffer.log.words.now run.old.index.now }
    ensures same { SameWords run.old run.new }
{
    let words = indexed.book.words;
    let at = contents::first_of(words, i);
    let rule = words::size_at(words, at);
    let n = words::size_at(words, at + 1);
    let v = words::word(words, at + 2);
    let lanes = lane_count(v, n);
    words::clear(bindings);
    bindings::load(words, at + 3, v, n, bindings);
    let kept = Bindings {
        matches: lanes,
        bound: Bound::first(v as usize),
    };
    let mut batch = Batch {
        bindings: kept,
        mask: Mask::new(lanes),
    };
    action::run_instrs(indexed, rule, &mut batch, run, bindings);
    batch
}

// A prediction of a book: the book, and the first word of the prediction's body.
#[derive(Clone, Copy)]
pub struct Prediction<'a, 'i> {
    pub indexed: IndexedBook<'a, 'i>,
    pub at: usize,
    ghost asks: { Asks indexed.book.words.now at },
}

impl Prediction<'_, '_> {
    // Its table.
    fn table(self) -> Sought
        ensures { result ≡ (row_asked self.entry.indexed.book.words.now self.entry.at).of }
    {
        let words = self.indexed.book.words;
        Sought::of(words, TableId(words::word(words, self.at)))
    }

    // Its key.
    fn key(self) -> Args
        ensures { result ≡ key_asked self.entry.indexed.book.words.now self.entry.at }
    {
        let words = self.indexed.book.words;
        let n = words::size_at(words, self.at + 1);
        args::words_at(words, self.at + 2, n)
    }

    // The write values of a new row.
    fn vals(self) -> Entries
        ensures { result ≡ (row_asked self.entry.indexed.book.words.now self.entry.at).vals }
    {
        let words = self.indexed.book.words;
        let n = words::size_at(words, self.at + 1);
        instr::list_at(words, self.at + 2 + n)
    }
}

// A prediction asks for its row; whether the row was made. Its write values are constants and counters, so what the bindings hold does not matter.
#[tactic(auto, unfolding(crate::specs::Steps::asked_row))]
pub fn run_prediction(asked: Prediction, run: &mut Execution, bindings: &[u32]) -> bool
    ensures is { as_gotten result run.new
        ≡ asked_row asked.entry.indexed.book.words.now bindings.now asked.entry.at
        (state_of run.old.buffer) run.old.buffer.log.words.now run.old.index.now }
    ensures same { SameWords run.old run.new }
{
    let view = View {
        words: asked.indexed.book.words,
        chains: asked.indexed.chains,
        bindings,
    };
    let row = Row {
        of: asked.table(),
        vals: asked.vals(),
    };
    let want = Keyed {
        row,
        key: asked.key(),
    };
    predict::predict_val(view, want, run)
}

// The row that answers it, where that stands by now.
#[tactic(auto, unfolding(crate::specs::Steps::row_answered))]
pub fn row_answered<'a>(asked: Prediction<'a, '_>, log: &'a [u32], index: &[u32]) -> &'a [u32]
    ensures { result.now ≡ row_answered asked.entry.indexed.book.words.now asked.entry.at log.now index.now }
{
    let indexed = asked.indexed;
    let key = asked.key();
    // lent from a copy, so that the call does not keep all of `key` in memory
    let vals = key.vals;
    predicted_index::row_of(
        indexed.book.words,
        log,
        indexed.chains,
        index,
        asked.table(),
        &vals,
    )
}
