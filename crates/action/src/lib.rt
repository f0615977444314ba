// The interpreter: the instructions of a rule act on the lanes of a batch, one after the other.
#![tactic(auto)]

mod lookup;

ghost use Rattle.std.specs.Prelude.{◌≡◌, ◌+◌, ◌≤◌, ◌<◌, get_or};
ghost use Rattle.model.specs.Book.Contents.{rule_count};
ghost use Rattle.model.specs.Outcome.{rule_first};
ghost use Rattle.bindings.specs.Bindings.{bound_in};
ghost use Rattle.instr.specs.Instr.{instr_at};
ghost use Rattle.instr.specs.Stands.{Stands, IsVariable, variable_of};
ghost use Rattle.predict.specs.Predict.{SameWords};
ghost use Rattle.action.specs.Act.{acted, as_lanes};
ghost use Rattle.action.specs.Run.{bound_to, ran_instr, ran_next, ran_instrs, as_running};

use bindings::Bindings;
use execution::Staging;
use hash_index::IndexedBook;
use ids::{STALE, Variable};
use instr::Instr;
use lanes::{Ask, Test, View};
use mask::Mask;
use predict::{Asking, Execution};
use record_log::Change;

// A batch as it runs: what its bindings keep beside the lent words, and which lanes are live.
#[derive(Clone, Copy)]
pub struct Batch {
    pub bindings: Bindings,
    pub mask: Mask,
}

// The lanes' part of an instruction; its dst is left in `out`.
#[tactic(auto, using(crate::specs::ActLaws::searchable), unfolding(crate::specs::Act::acted))]
fn act(
    indexed: IndexedBook,
    bindings: &[u32],
    i: Instr,
    mask: Mask,
    run: &mut Execution,
    out: &mut [u32; 256],
) -> Mask
    requires { Stands indexed.book.words.now i }
    ensures is { as_lanes result.live run.new out.new
        ≡ acted indexed.entry.book.words.now bindings.now i (as_lanes mask.live run.old out.old) }
    ensures same { SameWords run.old run.new }
{
    let words = indexed.book.words;
    let view = View {
        words,
        chains: indexed.chains,
        bindings,
    };
    match i {
        Instr::LookupOrInsertDefault {
            table,
            args,
            default,
            dst_col,
            ..
        } => {
            let wanted = lookup::predicted_ask(words, table, args, default, dst_col);
            let ask = Asking {
                row: wanted.row,
                key: wanted.key,
                col: wanted.col,
            };
            lookup::lookup_or_insert_default(view, ask, mask, run, out);
            mask
        }
        Instr::LookupWithDefault {
            table,
            args,
            dst_col,
            default,
            ..
        } => {
            let ask = lookup::row_ask(words, table, args, dst_col);
            lookup::fill_or_else(view, ask, Ask::Entry(default), mask, out)
        }
        Instr::Lookup {
            table,
            args,
            dst_col,
            ..
        } => view.fill(lookup::row_ask(words, table, args, dst_col), mask, out),
        Instr::LookupWithFallback {
            table,
            table_key,
            func,
            func_args,
            dst_col,
            ..
        } => {
            let ask = lookup::row_ask(words, table, table_key, dst_col);
            let other = Ask::External {
                func,
                args: func_args,
            };
            lookup::fill_or_else(view, ask, other, mask, out)
        }
        Instr::Insert { table, vals } => {
            let what = Staging {
                change: Change::Insert,
                table,
                vals,
            };
            execution::stage_lanes(view, what, mask, &mut run.buffer);
            mask
        }
        Instr::InsertIfEq { table, l, r, vals } => {
            let what = Staging {
                change: Change::Insert,
                table,
                vals,
            };
            execution::stage_lanes(
                view,
                what,
                view.retain(Test::Eq(l, r), mask),
                &mut run.buffer,
            );
            mask
        }
        Instr::Remove { table, args } => {
            let what = Staging {
                change: Change::Remove,
                table,
                vals: args,
            };
            execution::stage_lanes(view, what, mask, &mut run.buffer);
            mask
        }
        Instr::External { func, args, .. } => view.fill(Ask::External { func, args }, mask, out),
        Instr::ExternalWithFallback {
            f1,
            args1,
            f2,
            args2,
            ..
        } => {
            let ask = Ask::External {
                func: f1,
                args: args1,
            };
            let other = Ask::External {
                func: f2,
                args: args2,
            };
            lookup::fill_or_else(view, ask, other, mask, out)
        }
        Instr::AssertEq(l, r) => view.retain(Test::Eq(l, r), mask),
        Instr::AssertNe(l, r) => view.retain(Test::Ne(l, r), mask),
        Instr::AssertAnyNe { ops, divider } => view.retain(Test::AnyNe { ops, divider }, mask),
        Instr::ReadCounter { counter, .. } => {
            // Dead lanes too have the counter's next in dst.
            let next = run.buffer.state.read_counter(counter);
            out.fill(next);
            mask
        }
    }
}

// dst takes the lanes' words of `out`, and is bound.
fn bind_dst(
    kept: Bindings,
    dst: Option<Variable>,
    out: &[u32],
    bindings: &mut [u32; 8192],
) -> Bindings
    requires { IsVariable (variable_of dst) }
    ensures kept { result ≡ bound_in (variable_of dst) kept }
    ensures columns { bindings.new ≡ bound_to (variable_of dst) kept.matches out.now bindings.old }
{
    match dst {
        Some(v) => kept.insert(v, out, bindings),
        None => kept,
    }
}

// One instruction: its lanes' part, and its dst bound.
#[tactic(auto, unfolding(crate::specs::Run::ran_instr))]
fn run_instr(
    indexed: IndexedBook,
    i: Instr,
    batch: &mut Batch,
    run: &mut Execution,
    bindings: &mut [u32; 8192],
)
    requires { Stands indexed.book.words.now i }
    ensures is { as_running batch.new run.new bindings.new
        ≡ ran_instr indexed.entry.book.words.now i (as_running batch.old run.old bindings.old) }
    ensures same { SameWords run.old run.new }
{
    let mut out = [STALE; 256];
    batch.mask = act(indexed, bindings, i, batch.mask, run, &mut out);
    batch.bindings = bind_dst(batch.bindings, i.dst(), &out, bindings);
}

// The instruction whose opcode stands at p, if a lane is live and the run goes on.
#[tactic(auto, unfolding(crate::specs::Run::ran_next))]
fn run_next(
    indexed: IndexedBook,
    p: usize,
    batch: &mut Batch,
    run: &mut Execution,
    bindings: &mut [u32; 8192],
)
    requires { (p ≤ 16384) × Stands indexed.book.words.now (instr_at indexed.book.words.now p) }
    ensures is { as_running batch.new run.new bindings.new
        ≡ ran_next indexed.entry.book.words.now p (as_running batch.old run.old bindings.old) }
    ensures same { SameWords run.old run.new }
{
    if run.buffer.state.going() && !batch.mask.is_empty() {
        let i = instr::instr_at(indexed.book.words, p);
        run_instr(indexed, i, batch, run, bindings);
    }
}

// The instructions of rule r, in order.
#[tactic(auto, unfolding(crate::specs::Run::ran_instrs))]
pub fn run_instrs(
    indexed: IndexedBook,
    r: usize,
    batch: &mut Batch,
    run: &mut Execution,
    bindings: &mut [u32; 8192],
)
    requires { r < rule_count indexed.book.words.now }
    ensures is { as_running batch.new run.new bindings.new
        ≡ ran_instrs indexed.entry.book.words.now (rule_first indexed.entry.book.words.now r)
        (get_or indexed.entry.book.words.now (rule_first indexed.entry.book.words.now r + 1) 0)
        (as_running batch.old run.old bindings.old) }
    ensures same { SameWords run.old run.new }
{
    let book = indexed.book;
    let first = book.rule(r);
    let n = words::size_at(book.words, first + 1);
    let mut p = first + 2;
    for _ in 0..n {
        run_next(indexed, p, batch, run, bindings);
        p = instr::next(book.words, p);
    }
}
