// Predicted rows: one for each table and asked key, found in the log by the index, else built and logged; and who asks for them.
#![tactic(auto)]

mod asked;
mod run;

ghost use Rattle.std.specs.Prelude.{◌≡◌, ◌≤◌, ◌<◌, false, length, get_or, option_copied};
ghost use Rattle.predicted_index.specs.Row.{Searchable};
ghost use Rattle.predict.specs.Predict.{SameWords, as_asked, as_gotten, as_held, as_served};
ghost use Rattle.predict.specs.Predict.{inserted, gotten, taken_word, served_lane, served_lanes, answered};

use args::Args;
pub use asked::{Asking, Keyed};
use execution::Stop;
use ids::Lane;
use instr::Entries;
use lanes::View;
use mask::Mask;
use predicted_index::{Slot, Sought};
pub use run::Execution;

// Which row is asked for: of which table, and the write values of a new one.
#[derive(Clone, Copy)]
pub struct Row {
    pub of: Sought,
    pub vals: Entries,
}

// A new row, whose place the index takes up in the free slot; whether it was made.
#[tactic(auto, using(build::specs::BuildLaws::built_whole, execution::specs::ExecutionLaws::staged_taken), unfolding(crate::specs::Predict::inserted))]
fn insert(view: View, lane: Lane, want: Keyed, slot: usize, run: &mut Execution) -> bool
    requires { slot < 8192 }
    ensures is { as_gotten result run.new
        ≡ inserted view.entry.words.now view.entry.bindings.now lane.0 want.row want.key slot
        (as_held run.old) }
    ensures same { SameWords run.old run.new }
{
    let row = want.row;
    let state = &mut run.buffer.state;
    let Ok(b) = build::build(view, lane, want.key, row.vals, state.counters) else {
        state.stop_for(Some(Stop::Spent));
        return false;
    };
    state.counters = b.counters;
    let buffer = &mut run.buffer;
    let place = buffer.log.used;
    buffer.stage_predicted(row.of.table, &b.row.vals[..b.row.count]);
    let made = buffer.state.going();
    if made {
        predicted_index::insert(run.index, slot, place);
    }
    made
}

// The predicted rows. What it would hold is lent: the rows' words stand in the log, and their places in the index.
#[derive(Clone, Copy)]
pub struct PredictedVals;

impl PredictedVals {
    // The predicted row of the key, else a new one, built by the write values; whether it was made.
    #[tactic(auto, using(predicted_index::specs::RightLaws::get_below, predicted_index::specs::HomeLaws::home_below), unfolding(crate::specs::Predict::gotten))]
    pub fn get_or_insert_with(view: View, lane: Lane, want: Keyed, run: &mut Execution) -> bool
        requires { want.row.of.info.keys ≤ 16 }
        ensures is { as_gotten result run.new
            ≡ gotten view.entry.words.now view.entry.bindings.now lane.0 want.row want.key
            (as_held run.old) }
        ensures same { SameWords run.old run.new }
    {
        match run.get(want.row.of, want.key) {
            Slot::Hit(_) => false,
            Slot::Free(slot) => insert(view, lane, want, slot, run),
            // never so: a log has room for 5461 rows at most
            Slot::Full => {
                run.buffer.state.stop_for(Some(Stop::Full));
                false
            }
        }
    }
}

// The lane's word, a column of the row that the key has.
fn take(view: View, ask: Asking, key: Args, lane: Lane, run: &Execution, out: &mut [u32; 256])
    requires { Searchable view.words.now (option_copied view.chains) ask.row.of × (lane.0 < 256) }
    ensures { out.new ≡ taken_word view.entry.words.now (as_asked ask) key.vals lane.0
        run.now.buffer.log.words.now run.now.index.now out.old }
{
    // lent from a copy, so that the call does not keep all of `key` in memory
    let vals = key.vals;
    let row = predicted_index::row_of(
        view.words,
        run.buffer.log.words,
        view.chains,
        run.index,
        ask.row.of,
        &vals,
    );
    out[lane.0] = words::word(row, usize::from(ask.col));
}

// A lane of the mask has its word in `out`, unless the run ended.
#[tactic(auto, unfolding(crate::specs::Predict::served_lane, bindings::specs::Columns::fetched))]
fn serve_lane(
    view: View,
    ask: Asking,
    mask: &Mask,
    lane: Lane,
    run: &mut Execution,
    out: &mut [u32; 256],
)
    requires { Searchable view.words.now (option_copied view.chains) ask.row.of × (lane.0 < 256) }
    ensures is { as_served run.new out.new
        ≡ served_lane view.entry.words.now view.entry.bindings.now (as_asked ask) (get_or mask.now.live lane.0 false) lane.0
        (as_served run.old out.old) }
    ensures same { SameWords run.old run.new }
{
    if mask.live[lane.0] & run.buffer.state.going() {
        let key = view.fetch(ask.key, lane);
        let want = Keyed { row: ask.row, key };
        PredictedVals::get_or_insert_with(view, lane, want, run);
        if run.buffer.state.going() {
            take(view, ask, key, lane, run, out);
        }
    }
}

// Each lane of the mask is served, ascending, until a counter is spent or the log is full.
pub fn serve_lanes(view: View, ask: Asking, mask: Mask, run: &mut Execution, out: &mut [u32; 256])
    requires { Searchable view.words.now (option_copied view.chains) ask.row.of }
    ensures is { as_served run.new out.new
        ≡ served_lanes view.entry.words.now view.entry.bindings.now (as_asked ask) mask.live
        (as_served run.old out.old) }
    ensures same { SameWords run.old run.new }
{
    for i in 0..mask.end() {
        serve_lane(view, ask, &mask, Lane(i), run, out);
    }
}

// A key without a committed row has a predicted one afterwards: where it had none before, the row is made, and the changed flag set. Whether it was made.
#[tactic(auto, unfolding(crate::specs::Predict::answered))]
pub fn predict_val(view: View, want: Keyed, run: &mut Execution) -> bool
    requires { Searchable view.words.now (option_copied view.chains) want.row.of }
    ensures is { as_gotten result run.new
        ≡ answered view.entry.words.now view.entry.bindings.now want.row want.key
        (as_held run.old) }
    ensures same { SameWords run.old run.new }
{
    // lent from a copy, so that the call does not keep all of `want` in memory
    let key = want.key.vals;
    if predicted_index::committed(view.words, view.chains, want.row.of, &key).is_some() {
        return false;
    }
    let made = PredictedVals::get_or_insert_with(view, Lane(0), want, run);
    run.buffer.state.changed |= made;
    made
}
