// The bindings of a batch: 32 columns of 256 lent words, variable v in lane i at 256 * v + i; and what is kept beside them.
#![tactic(auto)]

ghost use Rattle.std.specs.Prelude.{◌≡◌, ◌+◌, ◌*◌, ◌^◌, ◌≤◌, ◌<◌, length, get_or, take, Some};
ghost use Rattle.words.specs.Filled.{filled};
ghost use Rattle.bindings.specs.Bindings.{bound_in};
ghost use Rattle.bindings.specs.Columns.{value_at, fetched, bound, loaded};

use args::Args;
use bound_vars::Bound;
use ids::{Lane, Variable};
use instr::Entries;

// The word of a variable in a lane, or 0 past the end.
pub fn variable(bindings: &[u32], v: Variable, lane: Lane) -> u32
    ensures { result ≡ get_or bindings.now (256 * v.0 + lane.0) 0 }
{
    let at = 256 * usize::from(v);
    let i = lane.0;
    if i < bindings.len() {
        words::word(bindings, at + i)
    } else {
        0
    }
}

// What the entry whose tag stands at word p stands for in a lane: a variable, or the number itself. It reads the tag itself, as one test tells that both words are there.
#[tactic(auto, unfolding(crate::specs::Columns::value_at))]
fn value(words: &[u32], bindings: &[u32], lane: Lane, p: usize) -> u32
    requires { p + 1 < 2 ^ 64 }
    ensures { result ≡ value_at words.now bindings.now lane.0 p }
{
    if p + 1 < words.len() {
        let tag = words[p];
        let number = words[p + 1];
        if tag == 0 {
            return variable(bindings, Variable(number), lane);
        }
        return number;
    }
    if words::word(words, p) == 0 {
        return variable(bindings, Variable(0), lane);
    }
    0
}

// What a list's entries stand for in a lane, in place of as many words at the front of `out`.
#[tactic(auto, using(words::specs::Filled::filled_none, words::specs::Filled::filled_turn))]
pub fn fetch_into(words: &[u32], bindings: &[u32], lane: Lane, list: Entries, out: &mut [u32])
    requires { (list.count ≤ length out.old) × (list.at < 2 ^ 32) }
    ensures { out.new ≡ filled (λ k. value_at words.now bindings.now lane.0 (list.at + 2 * k))
        list.count out.old }
{
    for i in 0..list.count {
        out[i] = value(words, bindings, lane, list.place(i));
    }
}

// The same in a short list of its own.
#[tactic(auto, unfolding(crate::specs::Columns::fetched))]
pub fn fetch(words: &[u32], bindings: &[u32], lane: Lane, list: Entries) -> Args
    requires { (list.count ≤ 16) × (list.at < 2 ^ 32) }
    ensures { result ≡ fetched words.now bindings.now lane.0 list.at list.count }
{
    let mut vals = [0; 16];
    fetch_into(words, bindings, lane, list, &mut vals);
    Args {
        vals,
        count: list.count,
    }
}

// The first `lanes` words of `column` become the column of dst, and zero the rest of it.
fn bind(bindings: &mut [u32], dst: Variable, column: &[u32], lanes: usize)
    requires { 256 * dst.0 + 256 ≤ length bindings.old }
    ensures { bindings.new ≡ bound dst.0 (take lanes column.now) bindings.old }
{
    let at = 256 * usize::from(dst);
    let front = words::part(column, 0, lanes.min(256));
    let end = at + front.len();
    words::copy(front, bindings, at);
    bindings[end..at + 256].fill(0);
}

// A batch's own columns: v of them, each of `lanes` words, from word `at` on.
#[tactic(auto, unfolding(crate::specs::Columns::loaded))]
pub fn load(words: &[u32], at: usize, v: u32, lanes: usize, bindings: &mut [u32])
    requires { (at + v * lanes ≤ length words.now) × (256 * v ≤ length bindings.old) }
    ensures { bindings.new ≡ loaded words.now at lanes v bindings.old }
{
    for c in 0..v {
        let p = at + (c as usize) * lanes;
        bind(bindings, Variable(c), &words[p..], lanes);
    }
}

// What is kept beside the lent words: how many lanes there are, and which variables are bound.
#[derive(Clone, Copy)]
pub struct Bindings {
    pub matches: usize,
    pub bound: Bound,
}

impl Bindings {
    // The lanes' words of `column` become the column of a variable, which is bound then.
    pub fn insert(self, var: Variable, column: &[u32], columns: &mut [u32; 8192]) -> Self
        requires { var.0 < 32 }
        ensures kept { result ≡ bound_in (Some var.0) self }
        ensures columns { columns.new ≡ bound var.0 (take self.matches column.now) columns.old }
    {
        bind(columns, var, column, self.matches);
        Bindings {
            matches: self.matches,
            bound: self.bound.bind(var),
        }
    }
}
