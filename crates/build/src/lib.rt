// A new row: its key, and one word more for each write value in turn. A counter that would pass its limit ends it, and the row is left unfinished.
#![tactic(auto)]

ghost use Rattle.std.specs.Prelude.{◌≡◌, ◌≤◌, get_or, option_map, IfNone, MatchResult};
ghost use Rattle.instr.specs.Stands.{Short};
ghost use Rattle.build.specs.Build.{written, built_up};

use args::Args;
use counter::Counters;
use ids::Lane;
use instr::{Entries, WriteVal};
use lanes::View;

// A row as far as it is built, and the counters after it.
#[derive(Clone, Copy)]
pub struct Building {
    pub row: Args,
    pub counters: Counters,
}

// With one write value more, unless that is the next number of a counter that is spent: then nothing changes.
#[tactic(auto, unfolding(crate::specs::Build::written))]
fn write(view: View, lane: Lane, v: WriteVal, b: &mut Building) -> Option<()>
    ensures is { option_map (λ _. b.new) result ≡ written view.entry.bindings.now lane.0 v b.old }
    ensures spent { IfNone result (b.new ≡ b.old) }
{
    let x = match v {
        WriteVal::QueryEntry(e) => view.value(e, lane),
        WriteVal::IncCounter(c) => b.counters.inc(c)?,
        WriteVal::CurrentVal(x) => words::word(&b.row.vals, x),
    };
    b.row.push(x);
    Some(())
}

// A row that begins with the key, of a table with these write values; or what was built of it before a counter that is spent.
pub fn build(
    view: View,
    lane: Lane,
    key: Args,
    vals: Entries,
    counters: Counters,
) -> Result<Building, Building>
    requires { Short vals × (key.count ≤ 16) }
    ensures is { result ≡ built_up view.entry.words.now view.entry.bindings.now lane.0 key vals.at vals.count counters }
    ensures fits { MatchResult result (λ b. b.row.count ≤ 16) (λ b. b.row.count ≤ 16) }
{
    let mut b = Building { row: key, counters };
    for k in 0..vals.count {
        let v = instr::write_at(view.words, vals.place(k));
        let Some(()) = write(view, lane, v, &mut b) else {
            return Err(b);
        };
    }
    Ok(b)
}
