// One walk over a body, word by word: refusals 3, 6 and 4.
ghost use Rattle.std.specs.Prelude.{◌≡◌, ◌^◌, ◌<◌, cond};
ghost use Rattle.model.specs.Basics.{iter};
ghost use Rattle.model.specs.Book.Scan as spec;
ghost use Rattle.reader.specs.Values.{draw_of, fault_of, test_of, walk_of, scan_of, IsStep};

use crate::walk::{Fault, Walk};
use contents::Contents;
use ids::STALE;

// What a word has to be: anything; not the stale mark, else it draws 4; below a number, else 6; at most a number, or from one to another, else 3.
#[derive(Clone, Copy)]
pub enum Test {
    Any,
    Clean,
    Below(u32),
    UpTo(u32),
    Range(u32, u32),
}

// A body that is walked over: its book, how many of each the book has, the body's first word, and the word past it.
#[derive(Clone, Copy)]
pub struct Body<'a> {
    pub words: &'a [u32],
    pub sizes: Contents,
    pub first: usize,
    pub end: usize,
    ghost near: { first < 2 ^ 32 },
}

// Nothing, or a fault where a test does not pass.
fn require(passes: bool, fault: Fault) -> Result<(), Fault>
    ensures { draw_of result ≡ cond passes spec.fine (fault_of fault) }
{
    if passes { Ok(()) } else { Err(fault) }
}

// What a word draws by a test.
fn drawn(test: Test, x: u32) -> Result<(), Fault>
    ensures { draw_of result ≡ test_of test x }
{
    match test {
        Test::Any => Ok(()),
        Test::Clean => require(x != STALE, Fault::Stale),
        Test::Below(n) => require(x < n, Fault::Absent),
        Test::UpTo(n) => require(x <= n, Fault::Layout),
        Test::Range(from, to) => require(from <= x && x <= to, Fault::Layout),
    }
}

impl<'a> Body<'a> {
    // A walk that begins at the first word.
    pub fn start(self) -> Walk
        ensures { walk_of result ≡ spec.good self.entry.first 0 0 }
    {
        Walk {
            at: self.first,
            absent: None,
            stale: None,
        }
    }

    // The word that a walk stands at, 0 past the end.
    pub fn peek(self, walk: Walk) -> u32
        ensures { result ≡ spec.peek self.entry.words.now (walk_of walk) }
    {
        words::word(self.words, walk.at)
    }

    // Past a word that is put to a test, if the body has one more.
    #[tactic(auto, unfolding(model::specs::Book::Scan::step))]
    pub fn word(self, test: Test, walk: Walk) -> Option<Walk>
        ensures { scan_of result ≡ spec.word self.entry.end self.entry.words.now (test_of test) (walk_of walk) }
    {
        if self.end <= walk.at {
            return None;
        }
        let taken = cursor::take(self.words, walk.at);
        let mut walk = walk.note(drawn(test, taken.word))?;
        walk.at = taken.next;
        Some(walk)
    }

    // A count, `most` at the highest, and as many steps.
    pub fn list<F: Fn(Walk) -> Option<Walk>>(self, most: u32, step: F, walk: Walk) -> Option<Walk>
        requires { F.IsAlwaysCallable step }
        ensures { (one : spec.Scan → spec.Scan) → IsStep (F.post step) one
            → scan_of result ≡ spec.list self.entry.end self.entry.words.now most one (walk_of walk) }
    {
        let n = self.peek(walk);
        let walk = self.word(Test::UpTo(most), walk)?;
        steps(n as usize, step, walk)
    }
}

// n steps, one after the other.
pub fn steps<F: Fn(Walk) -> Option<Walk>>(n: usize, step: F, from: Walk) -> Option<Walk>
    requires { F.IsAlwaysCallable step }
    ensures { (one : spec.Scan → spec.Scan) → IsStep (F.post step) one → scan_of result ≡ iter (λ _. one) n (walk_of from) }
{
    let mut walk = from;
    for _ in 0..n {
        walk = step(walk)?;
    }
    Some(walk)
}
