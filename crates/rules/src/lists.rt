// Tests of entries and write values, one by one and in lists.
ghost use Rattle.std.specs.Prelude.{◌≡◌, ◌<◌};
ghost use Rattle.model.specs.Basics.{all};
ghost use Rattle.model.specs.Check as check;
ghost use Rattle.instr.specs.Meaning.{entry_of, write_of, entries_of, writes_of};
ghost use Rattle.rules.specs.Rules.{current_fits};
ghost use Rattle.bound_vars.specs.Bound.{has};
ghost use Rattle.instr.specs.Stands.{Short};

use bound_vars::Bound;
use ids::Variable;
use instr::{Entries, QueryEntry, WriteVal};

pub fn known(e: QueryEntry, bound: Bound) -> bool
    ensures { result ≡ check.known? (has bound) (entry_of e) }
{
    match e {
        QueryEntry::Var(v) => bound.has(v),
        QueryEntry::Const(_) => true,
    }
}

fn free(e: QueryEntry, dst: Variable) -> bool
    ensures { result ≡ check.free? (dst.0, entry_of e) }
{
    match e {
        QueryEntry::Var(v) => v != dst,
        QueryEntry::Const(_) => true,
    }
}

// A current value is one of the n words that the row has before it.
fn current_fits(v: WriteVal, n: usize) -> bool
    ensures { result ≡ current_fits n (write_of v) }
{
    match v {
        WriteVal::QueryEntry(_) => true,
        WriteVal::IncCounter(_) => true,
        WriteVal::CurrentVal(x) => x < n,
    }
}

// Every variable of a list is bound. A list of write values is tested as one of entries: a counter and a current value read no variable.
pub fn all_known(words: &[u32], list: Entries, bound: Bound) -> bool
    requires { Short list }
    ensures { result ≡ all (check.known? (has bound)) (entries_of words.now list) }
{
    (0..list.count).all(|k| known(instr::entry_at(words, list.place(k)), bound))
}

// No variable of a list is dst.
pub fn all_free(words: &[u32], list: Entries, dst: Variable) -> bool
    requires { Short list }
    ensures { result ≡ all (λ e. check.free? (dst.0, e)) (entries_of words.now list) }
{
    (0..list.count).all(|k| free(instr::entry_at(words, list.place(k)), dst))
}

// Every current value of a list fits, where the row has n words before the first write value.
pub fn currents_fit(words: &[u32], list: Entries, n: usize) -> bool
    requires { Short list × (n < 4294967296) }
    ensures { result ≡ all check.below? (check.currents_of n (writes_of words.now list)) }
{
    (0..list.count).all(|k| current_fits(instr::write_at(words, list.place(k)), n + k))
}
