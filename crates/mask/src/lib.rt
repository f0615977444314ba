// Which lanes of a batch are live: a mask by value, with a mark for each of 256 lanes.
#![tactic(auto)]

ghost use Rattle.std.specs.Prelude.{◌≡◌, false, not, ◌≤◌, set, ltb};
ghost use Rattle.model.specs.Basics.{tab};
ghost use Rattle.model.specs.Machine.Steps.{any_live};
ghost use Rattle.mask.specs.Masks.{first_lanes, united, without, count, end};

use ids::Lane;
use std::array;

#[derive(Clone, Copy)]
pub struct Mask {
    pub live: [bool; 256],
}

// N marks, of which the first n are set.
pub fn first_marks<const N: usize>(n: usize) -> [bool; N]
    ensures { result ≡ tab (λ i. ltb i n) N }
{
    let mut marks = [false; N];
    marks[..n.min(N)].fill(true);
    marks
}

impl Mask {
    // The first `lanes` lanes.
    #[tactic(auto, unfolding(crate::specs::Masks::first_lanes))]
    pub fn new(lanes: usize) -> Self
        ensures { result.live ≡ first_lanes lanes }
    {
        Mask {
            live: first_marks(lanes),
        }
    }

    // Without a lane.
    pub fn drop(mut self, lane: Lane) -> Self
        ensures { result.live ≡ set self.live lane.0 false }
    {
        let i = lane.0;
        if i < 256 {
            self.live[i] = false;
        }
        self
    }

    // The lanes of either.
    pub fn union(self, other: Mask) -> Self
        ensures { result.live ≡ united self.live other.live }
    {
        let live = array::from_fn(|i| self.live[i] | other.live[i]);
        Mask { live }
    }

    // The lanes that `other` does not have.
    pub fn difference(self, other: Mask) -> Self
        ensures { result.live ≡ without self.live other.live }
    {
        let live = array::from_fn(|i| self.live[i] & !other.live[i]);
        Mask { live }
    }

    // How many lanes are live. A loop over all marks compiles to fewer instructions than `filter` and `count`.
    pub fn count(self) -> usize
        ensures { result ≡ count self.live }
    {
        let mut n = 0;
        for live in &self.live {
            n += usize::from(*live);
        }
        n
    }

    // How many lanes there are up to the last live one, and with it; 0 where none is.
    pub fn end(self) -> usize
        ensures is { result ≡ end self.live }
        ensures within { result ≤ 256 }
    {
        // the last live lane, or 0, as a byte: this compiles to a maximum of bytes, 16 lanes at once
        let mut last = 0u8;
        for (i, live) in self.live.iter().enumerate() {
            last = last.max(if *live { i as u8 } else { 0 });
        }
        let at = usize::from(last);
        if self.live[at] { at + 1 } else { 0 }
    }

    #[tactic(auto, using(crate::specs::MaskLaws::end_none))]
    pub fn is_empty(self) -> bool
        ensures { result ≡ not (any_live self.live) }
    {
        self.end() == 0
    }
}
