// What a run changes: the log, the counters and the changed flag; and why it ended early.
#![tactic(auto)]

ghost use Rattle.std.specs.Prelude.{◌≡◌, ◌≤◌, ◌<◌, false, length, get_or, take};
ghost use Rattle.instr.specs.Stands.{Short};
ghost use Rattle.lanes.specs.Lanes.{listed};
ghost use Rattle.record_log.specs.declared.Change.TheVariants.{Insert, Remove};
ghost use Rattle.record_log.specs.Append.{SameLog};
ghost use Rattle.record_log.specs.Kinds.{number_of};
ghost use Rattle.execution.specs.Execution.{state_of, left_state, goes_on, with_stop, flagged, staged, staged_change, staged_lane, staged_lanes, as_logged};

use counter::Counters;
use ids::{CounterId, Lane, TableId};
use instr::Entries;
use lanes::View;
use mask::Mask;
use record_log::{Change, Log, RecordKind};

// Why a run stops: a counter would have passed its limit (refusal 13), or a record the end of the log (refusal 12).
#[derive(Clone, Copy, PartialEq, Eq, Debug)]
pub enum Stop {
    Spent,
    Full,
}

// What a run keeps beside its log: the counters, whether anything was staged, and why the run stopped, if it did.
#[derive(Clone, Copy)]
pub struct ExecutionState {
    pub counters: Counters,
    pub changed: bool,
    pub stop: Option<Stop>,
}

// The log that a run stages its changes in, and what the run keeps beside it.
#[derive(Drop)]
pub struct MutationBuffer<'a> {
    pub log: Log<'a>,
    pub state: ExecutionState,
}

// What a run leaves, to be read: the words of its records, the counters, whether anything was staged, and why the run stopped, if it did.
#[derive(Clone, Copy)]
pub struct Left<'a> {
    pub log: &'a [u32],
    pub counters: Counters,
    pub changed: bool,
    pub stop: Option<Stop>,
}

// Which record an instruction stages: an insert or a removal of what a list of entries stands for.
#[derive(Clone, Copy)]
pub struct Staging {
    pub change: Change,
    pub table: TableId,
    pub vals: Entries,
}

impl ExecutionState {
    // Whether the run goes on.
    pub fn going(&self) -> bool
        ensures { result ≡ goes_on self.now.stop }
    {
        self.stop.is_none()
    }

    // The run stops for a reason.
    pub fn stop_for(&mut self, why: Option<Stop>)
        ensures { self.new ≡ with_stop why self.old }
    {
        self.stop = why;
    }

    // A counter's next number.
    pub fn read_counter(&self, c: CounterId) -> u32
        ensures { result ≡ get_or self.now.counters.next c.0 0 }
    {
        self.counters.read(c)
    }
}

impl MutationBuffer<'_> {
    // What the run leaves, with the words of the log that are used.
    pub fn left(&self) -> Left<'_>
        ensures log { result.log.now ≡ take self.now.log.used self.now.log.words.now }
        ensures state { left_state result ≡ state_of self.now }
    {
        Left {
            log: &self.log.words[..self.log.used],
            counters: self.state.counters,
            changed: self.state.changed,
            stop: self.state.stop,
        }
    }

    // A record of these words. The kinds have the numbers of `RecordKind`.
    #[tactic(auto, unfolding(crate::specs::Execution::staged))]
    pub fn stage(&mut self, kind: u32, table: TableId, row: &[u32])
        requires { length row.now ≤ 16 }
        ensures is { as_logged self.new ≡ staged kind table.0 row.now (length row.now) (as_logged self.old) }
        ensures same { SameLog self.old.log self.new.log }
    {
        if !self.log.append(kind, table, row) {
            self.state.stop_for(Some(Stop::Full));
        }
    }

    // A record that changes its table.
    fn stage_changing(&mut self, kind: RecordKind, table: TableId, row: &[u32])
        requires { length row.now ≤ 16 }
        ensures is { as_logged self.new
            ≡ flagged (staged (number_of kind) table.0 row.now (length row.now) (as_logged self.old)) }
        ensures same { SameLog self.old.log self.new.log }
    {
        self.stage(kind as u32, table, row);
        self.state.changed = true;
    }

    // An insert of a row.
    pub fn stage_insert(&mut self, table: TableId, row: &[u32])
        requires { length row.now ≤ 16 }
        ensures is { as_logged self.new ≡ staged_change Insert table.0 row.now (length row.now) (as_logged self.old) }
        ensures same { SameLog self.old.log self.new.log }
    {
        self.stage_changing(RecordKind::Insert, table, row)
    }

    // A removal of the row with a key.
    pub fn stage_remove(&mut self, table: TableId, key: &[u32])
        requires { length key.now ≤ 16 }
        ensures is { as_logged self.new ≡ staged_change Remove table.0 key.now (length key.now) (as_logged self.old) }
        ensures same { SameLog self.old.log self.new.log }
    {
        self.stage_changing(RecordKind::Remove, table, key)
    }

    // A predicted row, which does not set the changed flag.
    pub fn stage_predicted(&mut self, table: TableId, row: &[u32])
        requires { length row.now ≤ 16 }
        ensures is { as_logged self.new ≡ staged 2 table.0 row.now (length row.now) (as_logged self.old) }
        ensures same { SameLog self.old.log self.new.log }
    {
        self.stage(RecordKind::Predicted as u32, table, row)
    }
}

// What a lane stages, if it is one of the mask and the run goes on.
#[tactic(auto, using(crate::specs::ExecutionLaws::staged_taken), unfolding(crate::specs::Execution::staged_lane, bindings::specs::Columns::fetched))]
fn stage_lane(view: View, what: Staging, mask: &Mask, lane: Lane, buffer: &mut MutationBuffer)
    requires { Short what.vals × (lane.0 < 256) }
    ensures is { as_logged buffer.new ≡ staged_lane what.change what.table.0
        (listed view.entry.words.now view.entry.bindings.now lane.0 what.vals)
        (get_or mask.now.live lane.0 false) (as_logged buffer.old) }
    ensures same { SameLog buffer.old.log buffer.new.log }
{
    if mask.live[lane.0] & buffer.state.going() {
        let row = view.fetch(what.vals, lane);
        let words = &row.vals[..row.count];
        match what.change {
            Change::Insert => buffer.stage_insert(what.table, words),
            Change::Remove => buffer.stage_remove(what.table, words),
        }
    }
}

// Each lane of the mask stages a record, ascending, until the log is full.
pub fn stage_lanes(view: View, what: Staging, mask: Mask, buffer: &mut MutationBuffer)
    requires { Short what.vals }
    ensures is { as_logged buffer.new ≡ staged_lanes what.change what.table.0
        (λ i. listed view.entry.words.now view.entry.bindings.now i what.vals)
        mask.live (as_logged buffer.old) }
    ensures same { SameLog buffer.old.log buffer.new.log }
{
    for i in 0..mask.end() {
        stage_lane(view, what, &mask, Lane(i), buffer);
    }
}
