// A run: its log and state, and the index of its predicted rows.
ghost use Rattle.std.specs.Prelude.{◌≡◌, ◌≤◌};
ghost use Rattle.predicted_index.specs.Home.{home_of};
ghost use Rattle.predicted_index.specs.Index.{slot_of, Small};
ghost use Rattle.predict.specs.Ready.{Ready};

use args::Args;
use execution::MutationBuffer;
use predicted_index::{Slot, Sought};

// What a run keeps, with its log, and the words lent for the index of its predicted rows.
#[derive(Drop)]
pub struct Execution<'a> {
    pub buffer: MutationBuffer<'a>,
    pub index: &'a mut [u32],
    ghost ready: { Ready buffer.log.words.now index.now },
}

impl Execution<'_> {
    // Where the predicted row of a key stands, or would stand.
    #[tactic(auto, using(predicted_index::specs::IndexLaws::slot_of_taken))]
    pub fn get(&self, of: Sought, key: Args) -> Slot
        requires { of.info.keys ≤ 16 }
        ensures is { result ≡ slot_of home_of self.now.index.now self.now.buffer.log.words.now of.table.0
            key.vals of.info.keys }
        ensures small { Small result }
    {
        // lent from a copy, so that the call does not keep all of `key` in memory
        let vals = key.vals;
        predicted_index::get(
            self.index,
            self.buffer.log.words,
            of.table,
            &vals[..of.info.keys],
        )
    }
}
