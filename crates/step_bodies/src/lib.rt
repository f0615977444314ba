// The bodies of the steps: kind 6 for a batch, kind 7 for a prediction. A body that does not fit whole is not written, but its words are counted.
#![tactic(auto)]

mod page;

ghost use Rattle.std.specs.Prelude.{◌≡◌, ◌^◌, ◌<◌, ◌≤◌, length, get_or, false};
ghost use Rattle.model.specs.Basics.{tab, how_many};
ghost use Rattle.model.specs.Answer as model;
ghost use Rattle.step_bodies.specs.Page.{Appends, Places, Room};
ghost use Rattle.step_bodies.specs.Steps.{bound_words, columns_words, batch_words, prediction_words};

use bindings::Bindings;
use bound_vars::Bound;
use ids::Variable;
use mask::Mask;
pub use page::Page;

// Whether the row was made by this prediction, and the row.
pub fn write_prediction(row: &[u32], made: bool, page: &mut Page)
    requires { page.old.at ≤ 2 ^ 32 }
    ensures { Places page.old page.new (prediction_words made row.now) }
{
    let end = page.at + 1 + row.len();
    if page.words.len() < end {
        page.at = end;
        return;
    }
    page.push(u32::from(made));
    page.write(row);
}

// How many variables are bound.
fn bound_count(bound: Bound) -> usize
    ensures { result ≡ how_many (λ v. get_or bound.known v false) 32 }
{
    bound.known.iter().filter(|known| **known).count()
}

// A variable and its column.
fn write_column(bindings: &[u32; 8192], v: Variable, lanes: usize, page: &mut Page)
    requires { (v.0 < 32) × (lanes ≤ 256)
        × Room page.old (length (bound_words bindings.now lanes v.0)) }
    ensures { Appends page.old page.new (bound_words bindings.now lanes v.0) }
{
    let from = 256 * usize::from(v);
    page.push(v.0);
    page.write(&bindings[from..from + lanes]);
}

// Each bound variable with its column, ascending.
fn write_columns(bindings: &[u32; 8192], bound: Bound, lanes: usize, page: &mut Page)
    requires { (lanes ≤ 256)
        × Room page.old (length (columns_words bindings.now lanes bound.known)) }
    ensures { Appends page.old page.new (columns_words bindings.now lanes bound.known) }
{
    for (v, known) in bound.known.iter().enumerate() {
        if *known {
            write_column(bindings, Variable(v as u32), lanes, page);
        }
    }
}

// In each word whether its lane is live.
#[tactic(auto, using(crate::specs::StepLaws::flag_word, words::specs::Filled::filled_turn, words::specs::Filled::filled_none, words::specs::Filled::filled_all))]
fn write_flags(mask: Mask, words: &mut [u32])
    requires { length words.old ≤ 256 }
    ensures { words.new ≡ tab (λ i. model.flag (get_or mask.live i false)) (length words.old) }
{
    for (i, word) in words.iter_mut().enumerate() {
        *word = u32::from(mask.live[i]);
    }
}

// For each lane whether it is live.
fn write_live(mask: Mask, lanes: usize, page: &mut Page)
    requires { (lanes ≤ 256) × Room page.old lanes }
    ensures { Appends page.old page.new (tab (λ i. model.flag (get_or mask.live i false)) lanes) }
{
    let at = page.at;
    write_flags(mask, &mut page.words[at..at + lanes]);
    page.at = at + lanes;
}

// How many lanes survive and how many there are, the bound variables with their columns, and which lanes are live.
pub fn write_batch(bindings: &[u32; 8192], kept: Bindings, mask: Mask, page: &mut Page)
    requires { (kept.matches ≤ 256) × (page.old.at ≤ 2 ^ 32) }
    ensures { Places page.old page.new (batch_words kept.matches kept.bound.known bindings.now mask.live) }
{
    let bound = kept.bound;
    let lanes = kept.matches;
    let n = bound_count(bound);
    let end = page.at + 3 + n * (1 + lanes) + lanes;
    if page.words.len() < end {
        page.at = end;
        return;
    }
    page.push(mask.count() as u32);
    page.push(lanes as u32);
    page.push(n as u32);
    write_columns(bindings, bound, lanes, page);
    write_live(mask, lanes, page);
}
