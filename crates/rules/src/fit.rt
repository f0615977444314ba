// How a step fits its rule or table.
ghost use Rattle.std.specs.Prelude.{◌≡◌, ◌+◌, ◌≤◌, ◌<◌, length, get_or};
ghost use Rattle.model.specs.Book.Contents.{rule_count, step_count, table_count};
ghost use Rattle.model.specs.Book.Decode as decode;
ghost use Rattle.model.specs.Book.Read as read;

use contents::{Book, Kind};
use ids::TableId;

// A batch at the word `at` has as many columns as its rule has starting variables, and no lanes where it has no columns.
#[tactic(auto, using(crate::specs::StepLaws::batch_test))]
fn batch_fits(book: Book, at: usize) -> bool
    requires { (at ≤ 16384) × (get_or book.words.now at 0 < rule_count book.words.now) }
    ensures { result ≡ read.step_fits (read.tables book.entry.words.now) (read.rules book.entry.words.now)
        (decode.read_batch book.entry.words.now at) }
{
    let words = book.words;
    let rule = words::size_at(words, at);
    let lanes = words::word(words, at + 1);
    let v = words::word(words, at + 2);
    let starts = words::word(words, book.rule(rule));
    v == starts && (0 < v || lanes == 0)
}

// A prediction at the word `at` fills a row of its table.
#[tactic(auto, using(crate::specs::StepLaws::prediction_test))]
fn prediction_fits(book: Book, at: usize) -> bool
    requires { (at ≤ 16384) × (get_or book.words.now at 0 < table_count book.words.now)
        × (at + 2 + get_or book.words.now (at + 1) 0 ≤ length book.words.now) }
    ensures { result ≡ read.step_fits (read.tables book.entry.words.now) (read.rules book.entry.words.now)
        (decode.read_prediction book.entry.words.now at) }
{
    let words = book.words;
    let info = tables::info_of(words, TableId(words::word(words, at)));
    let n = words::size_at(words, at + 1);
    let m = words::size_at(words, at + 2 + n);
    n == info.keys && n + m == info.width
}

// Step k fits.
#[tactic(auto, using(model::specs::Laws::Book::few_steps, crate::specs::StepLaws::step_batch))]
pub fn step_fits(book: Book, k: usize) -> bool
    requires { k < step_count book.words.now }
    ensures { result ≡ read.step_fits (read.tables book.entry.words.now) (read.rules book.entry.words.now)
        (read.step book.entry.words.now k) }
{
    let i = book.step(k);
    let at = contents::first_of(book.words, i);
    if contents::body_kind(book.words, i) == Some(Kind::Batch) {
        batch_fits(book, at)
    } else {
        prediction_fits(book, at)
    }
}
