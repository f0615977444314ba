// The functions 0 to 7, by number: they stand in for `ExternalFunction`.
#![tactic(auto)]

ghost use Rattle.std.specs.Prelude.{◌≡◌};
ghost use Rattle.model.specs.Machine.Functions as model;

use ids::{ExternalFunctionId, STALE};

// How many arguments a function takes.
#[tactic(auto, using(crate::specs::FunctionLaws::all_two))]
pub fn arity(func: ExternalFunctionId) -> usize
    ensures { result ≡ model.arity func.0 }
{
    match func.0 {
        6 => 1,
        _ => 2,
    }
}

// 6: the load band of a percentage.
fn load_band(percent: u32) -> Option<u32>
    ensures { result ≡ model.band percent }
{
    match percent {
        0..=49 => Some(0),
        50..=79 => Some(1),
        80..=100 => Some(2),
        _ => None,
    }
}

// What a function answers on these arguments: nothing where there is no such function, or it takes more or fewer.
pub fn invoke(func: ExternalFunctionId, args: &[u32]) -> Option<u32>
    ensures { result ≡ model.apply func.0 args.now }
{
    match (func.0, args) {
        // below the stale mark, which is no word
        (0, &[x, y]) => x.checked_add(y).filter(|sum| *sum < STALE),
        (1, &[x, y]) => x.checked_sub(y),
        (2, &[x, y]) => (x < y).then_some(x),
        (3, &[x, y]) => (x <= y).then_some(x),
        (4, &[x, y]) => Some(x.min(y)),
        (5, &[x, y]) => Some(x.max(y)),
        (6, &[percent]) => load_band(percent),
        (7, &[x, y]) => Some(x.abs_diff(y)),
        _ => None,
    }
}
