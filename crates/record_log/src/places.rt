// The walk over a log's records, one after the other.
ghost use Rattle.std.specs.Prelude.{◌≡◌, ◌-◌, ◌≤◌, length};
ghost use Rattle.std.specs.Iterator.{at_most};
ghost use Rattle.record_log.specs.Places.{GivesPlace};

// The words at which the log's records begin, from the one at `at` on.
#[derive(Drop)]
pub struct Places<'a> {
    words: &'a [u32],
    log: &'a [u32],
    at: usize,
}

impl<'a> Places<'a> {
    pub fn of(words: &'a [u32], log: &'a [u32]) -> Places<'a>
        ensures words { result.words.now ≡ words.now }
        ensures log { result.log.now ≡ log.now }
        ensures at { result.at ≡ 0 }
    {
        Places { words, log, at: 0 }
    }
}

impl Iterator for Places<'_> {
    type Item = usize;

    ghost can_next = { λ s. s.at ≤ length s.log.now };

    ghost next_gives = { GivesPlace };

    ghost remaining = { λ s. at_most (length s.log.now - s.at) };

    #[tactic(auto, unfolding(crate::specs::Walk::end_of))]
    fn next(&mut self) -> Option<usize> {
        let p = self.at;
        let end = crate::end_of(self.words, self.log, p);
        if self.log.len() < end {
            return None;
        }
        self.at = end;
        Some(p)
    }
}
