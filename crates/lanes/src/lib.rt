// The passes over the lanes of a batch that only read: what each live lane is answered, and which lanes pass a test.
#![tactic(auto)]

ghost use Rattle.std.specs.Prelude.{ℕ, Bool, Option, ◌≡◌, ◌&&◌, length, take, drop, Some, slice_get, option_copied};
ghost use Rattle.model.specs.Basics.{only};
ghost use Rattle.model.specs.Machine.Steps.{any_ne};
ghost use Rattle.bindings.specs.Columns.{word_of};
ghost use Rattle.instr.specs.Meaning.{entry_of};
ghost use Rattle.instr.specs.Stands.{Short};
ghost use Rattle.predicted_index.specs.Row.{Searchable};
ghost use Rattle.lanes.specs.declared.Ask.TheVariants.{Lookup, External};
ghost use Rattle.lanes.specs.declared.Test.TheVariants.{AnyNe};
ghost use Rattle.lanes.specs.Lanes.{listed, asked, AskFits, holds, TestFits, or_else, answered_lanes, answered_words, Fills, kept};

use args::Args;
use ids::{ColumnId, ExternalFunctionId, Lane};
use instr::{Entries, QueryEntry};
use mask::Mask;
use predicted_index::Sought;

// What the lanes read: the book's words, an index of its rows, if there is one, and the columns of the batch. These may be of any length: past their end each pass reads 0.
#[derive(Clone, Copy)]
pub struct View<'a> {
    pub words: &'a [u32],
    pub chains: Option<&'a [u32]>,
    pub bindings: &'a [u32],
}

// What a lane asks for: a column of the committed row with a key, what a function answers, or what an entry stands for.
#[derive(Clone, Copy)]
pub enum Ask {
    Lookup {
        of: Sought,
        key: Entries,
        col: ColumnId,
    },
    External {
        func: ExternalFunctionId,
        args: Entries,
    },
    Entry(QueryEntry),
}

// What a lane has to pass: two entries are equal, or differ, or some pair of a list's two sides differs.
#[derive(Clone, Copy)]
pub enum Test {
    Eq(QueryEntry, QueryEntry),
    Ne(QueryEntry, QueryEntry),
    AnyNe { ops: Entries, divider: usize },
}

// The column of a row, if it has one.
fn column(row: &[u32], col: ColumnId) -> Option<u32>
    ensures { result ≡ slice_get row.now col.0 }
{
    row.get(usize::from(col)).copied()
}

// A pass of `fill`: each live lane has the word that `answer` gives it, and is live no more where it gives none. `answer` is lent 16 words, for the arguments of a function that it calls. Whether a table or a function answers is decided by the caller, once and not for each lane.
fn fill_by<F: Fn(Lane, &mut [u32; 16]) -> Option<u32>>(
    mut mask: Mask,
    out: &mut [u32; 256],
    answer: F,
) -> Mask
    requires { F.IsAlwaysCallable answer }
    ensures { (ask : ℕ → Option ℕ)
        → ((lane : _) (lent : _) (r : Option ℕ) (left : _) → F.post answer lane lent r left → r ≡ ask lane.0)
        → Fills ask mask.live out.old result.live out.new }
{
    let mut vals = [0u32; 16];
    // by place, as in `retain_by` and `fill_entry`: compiled, each is one loop, which tests no place of the marks or of `out`
    for i in 0..mask.end() {
        if mask.live[i] {
            match answer(Lane(i), &mut vals) {
                Some(word) => out[i] = word,
                None => mask.live[i] = false,
            }
        }
    }
    mask
}

// x in a live lane, else the word that is there.
fn chosen(live: bool, x: u32, other: u32) -> u32
    ensures { result ≡ or_else (only live (Some x)) other }
{
    if live { x } else { other }
}

// Whether some pair of the two sides, before the divider and from it on, differs; up to the shorter side.
fn any_ne(ops: &[u32], divider: usize) -> bool
    ensures { result ≡ any_ne (take divider ops.now) (drop divider ops.now) }
{
    let (left, right) = ops.split_at(divider.min(ops.len()));
    // by place: a zip of the sides would test for two ends at each pair
    (0..left.len().min(right.len())).any(|k| left[k] != right[k])
}

// A pass of `retain`: `passes` tells of each lane, by whether it is live, whether it stays.
fn retain_by<F: Fn(bool, Lane) -> bool>(mut mask: Mask, passes: F) -> Mask
    requires { F.IsAlwaysCallable passes }
    ensures { (test : ℕ → Bool)
        → ((live : Bool) (lane : _) (r : Bool) → F.post passes live lane r → r ≡ (live && test lane.0))
        → result.live ≡ kept test mask.live }
{
    for i in 0..mask.end() {
        mask.live[i] = passes(mask.live[i], Lane(i));
    }
    mask
}

// What an entry stands for in a lane of these bindings.
fn value_in(bindings: &[u32], e: QueryEntry, lane: Lane) -> u32
    ensures { result ≡ word_of bindings.now lane.0 (entry_of e) }
{
    match e {
        QueryEntry::Var(v) => bindings::variable(bindings, v, lane),
        QueryEntry::Const(x) => x,
    }
}

impl<'a> View<'a> {
    // What a list of entries stands for in a lane.
    pub fn fetch(self, list: Entries, lane: Lane) -> Args
        requires { Short list }
        ensures { result ≡ listed self.entry.words.now self.entry.bindings.now lane.0 list }
    {
        bindings::fetch(self.words, self.bindings, lane, list)
    }

    // What an entry stands for in a lane.
    pub fn value(self, e: QueryEntry, lane: Lane) -> u32
        ensures { result ≡ word_of self.entry.bindings.now lane.0 (entry_of e) }
    {
        value_in(self.bindings, e, lane)
    }

    // What a table answers in a lane: a column of the committed row with the key.
    #[tactic(auto, unfolding(crate::specs::Lanes::asked, bindings::specs::Columns::fetched))]
    fn look_up(self, of: Sought, key: Entries, col: ColumnId, lane: Lane) -> Option<u32>
        requires { Searchable self.words.now (option_copied self.chains) of × Short key }
        ensures { result ≡ asked self.entry.words.now self.entry.bindings.now (Lookup of key col) lane.0 }
    {
        let mut vals = [0u32; 16];
        bindings::fetch_into(self.words, self.bindings, lane, key, &mut vals);
        // the log is not looked at
        let none = &self.words[..0];
        let row = predicted_index::row_of(self.words, none, self.chains, none, of, &vals);
        column(row, col)
    }

    // What a function answers in a lane; `vals` is lent for its arguments.
    fn invoke(
        self,
        func: ExternalFunctionId,
        args: Entries,
        lane: Lane,
        vals: &mut [u32; 16],
    ) -> Option<u32>
        requires { Short args }
        ensures { result ≡ asked self.entry.words.now self.entry.bindings.now (External func args) lane.0 }
    {
        bindings::fetch_into(self.words, self.bindings, lane, args, vals);
        functions::invoke(func, &vals[..args.count])
    }

    fn lookup_row_vectorized(
        self,
        of: Sought,
        key: Entries,
        col: ColumnId,
        mask: Mask,
        out: &mut [u32; 256],
    ) -> Mask
        requires { Searchable self.words.now (option_copied self.chains) of × Short key }
        ensures { Fills (asked self.entry.words.now self.entry.bindings.now (Lookup of key col)) mask.live
            out.old result.live out.new }
    {
        fill_by(mask, out, |lane, _| self.look_up(of, key, col, lane))
    }

    // The Rust's `invoke_batch_assign` too: words that are in `out` already stay where a lane is not answered.
    fn invoke_batch(
        self,
        func: ExternalFunctionId,
        args: Entries,
        mask: Mask,
        out: &mut [u32; 256],
    ) -> Mask
        requires { Short args }
        ensures { Fills (asked self.entry.words.now self.entry.bindings.now (External func args)) mask.live
            out.old result.live out.new }
    {
        fill_by(mask, out, |lane, vals| self.invoke(func, args, lane, vals))
    }

    // An entry answers every lane, so that the mask stays.
    fn fill_entry(self, e: QueryEntry, mask: Mask, out: &mut [u32; 256]) -> Mask
        ensures { Fills (λ i. Some (word_of self.entry.bindings.now i (entry_of e))) mask.live
            out.old result.live out.new }
    {
        for i in 0..mask.end() {
            out[i] = chosen(mask.live[i], self.value(e, Lane(i)), out[i]);
        }
        mask
    }

    // Each lane of the mask that is answered has its word in `out`; the lanes that were.
    #[tactic(auto, unfolding(crate::specs::Lanes::asked))]
    pub fn fill(self, ask: Ask, mask: Mask, out: &mut [u32; 256]) -> Mask
        requires { AskFits self.words.now (option_copied self.chains) ask }
        ensures lanes { result.live ≡ answered_lanes (asked self.entry.words.now self.entry.bindings.now ask) mask.live }
        ensures words { out.new ≡ answered_words (asked self.entry.words.now self.entry.bindings.now ask) mask.live
            out.old }
    {
        match ask {
            Ask::Lookup { of, key, col } => self.lookup_row_vectorized(of, key, col, mask, out),
            Ask::External { func, args } => self.invoke_batch(func, args, mask, out),
            Ask::Entry(e) => self.fill_entry(e, mask, out),
        }
    }

    // Whether some pair of a lane's words differs.
    fn differ(self, ops: Entries, divider: usize, lane: Lane) -> bool
        requires { Short ops }
        ensures { result ≡ holds self.entry.words.now self.entry.bindings.now (AnyNe ops divider) lane.0 }
    {
        let mut vals = [0u32; 16];
        bindings::fetch_into(self.words, self.bindings, lane, ops, &mut vals);
        any_ne(&vals[..ops.count], divider)
    }

    // A pass of `retain`: `passes` tells of the words of two entries in a lane whether it stays. A run has 8192 words of bindings: in an array of these no lane tests for their end, so that the loop compares several lanes at once.
    fn retain_pair<F: Fn(u32, u32) -> bool>(
        self,
        l: QueryEntry,
        r: QueryEntry,
        mask: Mask,
        passes: F,
    ) -> Mask
        requires { F.IsAlwaysCallable passes }
        ensures { (test : ℕ → ℕ → Bool)
            → ((x y : ℕ) (b : Bool) → F.post passes x y b → b ≡ test x y)
            → result.live ≡ kept (λ i. test (word_of self.entry.bindings.now i (entry_of l))
            (word_of self.entry.bindings.now i (entry_of r))) mask.live }
    {
        match self.bindings.as_array::<8192>() {
            Some(columns) => retain_by(mask, |live, lane| {
                live & passes(value_in(columns, l, lane), value_in(columns, r, lane))
            }),
            None => retain_by(mask, |live, lane| {
                live & passes(self.value(l, lane), self.value(r, lane))
            }),
        }
    }

    // The lanes of the mask that pass; the others are dropped.
    #[tactic(auto, unfolding(crate::specs::Lanes::holds))]
    pub fn retain(self, test: Test, mask: Mask) -> Mask
        requires { TestFits test }
        ensures { result.live ≡ kept (holds self.entry.words.now self.entry.bindings.now test) mask.live }
    {
        match test {
            Test::Eq(l, r) => self.retain_pair(l, r, mask, |x, y| x == y),
            Test::Ne(l, r) => self.retain_pair(l, r, mask, |x, y| x != y),
            Test::AnyNe { ops, divider } => {
                retain_by(mask, |live, lane| live && self.differ(ops, divider, lane))
            }
        }
    }
}
