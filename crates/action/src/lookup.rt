// Lookups over the lanes of a batch, each with what serves the lanes that it misses.
ghost use Rattle.std.specs.Prelude.{◌≡◌, option_copied};
ghost use Rattle.predicted_index.specs.Row.{Searchable};
ghost use Rattle.lanes.specs.Lanes.{AskFits};
ghost use Rattle.predict.specs.Predict.{SameWords, as_asked};
ghost use Rattle.action.specs.Act.{row_ask, asking, asked_by, either_lanes, either_words, serving, as_lanes};

use ids::{ColumnId, TableId};
use instr::Entries;
use lanes::{Ask, View};
use mask::Mask;
use predict::{Asking, Execution, Row};
use predicted_index::Sought;

// A column of the committed row with a key.
pub fn row_ask(words: &[u32], table: TableId, key: Entries, col: ColumnId) -> Ask
    ensures { result ≡ row_ask words.now table key col }
{
    Ask::Lookup {
        of: Sought::of(words, table),
        key,
        col,
    }
}

// What a lane asks for, by lists of any length; those of an `Asking` are short.
#[derive(Clone, Copy)]
pub struct Wanted {
    pub row: Row,
    pub key: Entries,
    pub col: ColumnId,
}

// A column of the predicted row with a key, and the write values of a new one.
pub fn predicted_ask(
    words: &[u32],
    table: TableId,
    key: Entries,
    default: Entries,
    col: ColumnId,
) -> Wanted
    ensures { asked_by result ≡ asking words.now table key default col }
{
    Wanted {
        row: Row {
            of: Sought::of(words, table),
            vals: default,
        },
        key,
        col,
    }
}

// Each lane of the mask asks, and asks otherwise if it is not answered; the lanes that were answered.
pub fn fill_or_else(view: View, ask: Ask, other: Ask, mask: Mask, out: &mut [u32; 256]) -> Mask
    requires { AskFits view.words.now (option_copied view.chains) ask × AskFits view.words.now (option_copied view.chains) other }
    ensures words { out.new ≡ either_words view.entry.words.now view.entry.bindings.now ask other mask.live out.old }
    ensures lanes { result.live ≡ either_lanes view.entry.words.now view.entry.bindings.now ask other mask.live }
{
    let found = view.fill(ask, mask, out);
    let missed = mask.difference(found);
    let served = view.fill(other, missed, out);
    found.union(served)
}

// A column of the committed row, else of the predicted row, which is made where there is none.
pub fn lookup_or_insert_default(
    view: View,
    ask: Asking,
    mask: Mask,
    run: &mut Execution,
    out: &mut [u32; 256],
)
    requires { Searchable view.words.now (option_copied view.chains) ask.row.of }
    ensures is { as_lanes mask.live run.new out.new
        ≡ serving view.entry.words.now view.entry.bindings.now (as_asked ask)
        (as_lanes mask.live run.old out.old) }
    ensures same { SameWords run.old run.new }
{
    let row = Ask::Lookup {
        of: ask.row.of,
        key: ask.key,
        col: ask.col,
    };
    let found = view.fill(row, mask, out);
    let missed = mask.difference(found);
    predict::serve_lanes(view, ask, missed, run, out)
}
