// Counters: each gives every number once, one after the other, until it is spent.
#![tactic(auto)]

ghost use Rattle.std.specs.Prelude.{◌≡◌, get_or, set, option_map};
ghost use Rattle.model.specs.Machine.Values.{draw};
ghost use Rattle.counter.specs.Counter.{drawn_of, raised, after_draw};

use ids::{CounterId, STALE};

#[derive(Clone, Copy)]
pub struct Counter {
    pub next: u32,
}

impl Counter {
    // Its next, with the counter past it. A next comes up to the last number before the stale mark; then the counter is spent.
    pub fn inc(self) -> Option<(u32, Counter)>
        ensures { drawn_of result ≡ draw self.next }
    {
        let next = self.next;
        if next < STALE - 1 {
            Some((next, Counter { next: next + 1 }))
        } else {
            None
        }
    }
}

// Draws from a counter that is lent for change, and raises it in place; a spent one stays as it was.
pub fn inc_in_place(counter: &mut Counter) -> Option<u32>
    ensures number { result ≡ option_map (λ p. p.0) (draw counter.old.next) }
    ensures raised { counter.new ≡ raised counter.old }
{
    let (next, past) = counter.inc()?;
    *counter = past;
    Some(next)
}

// The counters of a book, 0 past the last.
#[derive(Clone, Copy)]
pub struct Counters {
    pub next: [u32; 16],
}

impl Counters {
    pub fn read(self, c: CounterId) -> u32
        ensures { result ≡ get_or self.next c.0 0 }
    {
        self.next.get(usize::from(c)).copied().unwrap_or(0)
    }

    // Past the last there is nothing to set.
    pub fn set(mut self, c: CounterId, to: Counter) -> Self
        ensures { result ≡ record { next = set self.next c.0 to.next } }
    {
        let i = usize::from(c);
        if i < 16 {
            self.next[i] = to.next;
        }
        self
    }

    // The counter is lent, and set back as it is left; a spent one leaves all as they were.
    pub fn inc(&mut self, c: CounterId) -> Option<u32>
        ensures number { result ≡ option_map (λ p. p.0) (draw (get_or self.old.next c.0 0)) }
        ensures counters { self.new.next ≡ after_draw self.old.next c.0 }
    {
        let mut counter = Counter { next: self.read(c) };
        let next = inc_in_place(&mut counter)?;
        *self = self.set(c, counter);
        Some(next)
    }
}
