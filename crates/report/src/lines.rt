// The lines of an answer, read from its words.
ghost use Rattle.std.specs.Prelude.{◌≡◌, ◌+◌, [], ◌∷◌, ◌<◌, ◌≤◌, length, drop};
ghost use Rattle.std.specs.Int.{from_bool};
ghost use Rattle.record_log.specs.Walk.{end_of};
ghost use Rattle.report.specs.Text.{text};
ghost use Rattle.report.specs.Lines.{body_of, entry_line, family_lines, record_line, record_lines, log_lines};
ghost use Rattle.report.specs.Page.{Appends, Written};

use crate::text::Page;
use contents::BodyKind;
use record_log::{Change, Places};

// The entries whose lines stand together, numbered from 0.
#[derive(Clone, Copy)]
pub enum Family {
    Steps,
    Tables,
    Counters,
}

// The words of entry i's body, as far as they are there.
fn body(words: &[u32], i: usize) -> &[u32]
    requires { i < 4294967296 }
    ensures { result.now ≡ body_of words.now i }
{
    words::part(
        words,
        contents::first_of(words, i),
        contents::length_of(words, i),
    )
}

// The words past the first.
fn rest(words: &[u32]) -> &[u32]
    ensures { result.now ≡ drop 1 words.now }
{
    words.get(1..).unwrap_or(&[])
}

// The line of entry i, as the one with this number, if it is one of the family's, and whether it is.
fn entry(words: &[u32], family: Family, i: usize, number: usize, page: &mut Page) -> bool
    requires { (i < 4294967296) × (number ≤ i) }
    ensures { Written page.new (number + from_bool result) (entry_line words.now family number i) page.old number }
{
    let body = body(words, i);
    let first = number as u64;
    let Ok(kind) = BodyKind::try_from(contents::kind_of(words, i)) else {
        return false;
    };
    match (family, kind) {
        (Family::Steps, BodyKind::Batch) => page.line(b"run", first, &[words::word(body, 0)]),
        (Family::Steps, BodyKind::Prediction) => page.line(b"row", first, rest(body)),
        (Family::Tables, BodyKind::Table) => page.line(b"table", first, &[words::word(body, 3)]),
        (Family::Counters, BodyKind::Counter) => page.line(
            b"counter",
            first,
            &[words::word(body, 0)],
        ),
        _ => return false,
    }
    true
}

// The lines of all entries of a family.
pub fn numbered(words: &[u32], family: Family, page: &mut Page)
    ensures { Appends page.old page.new (text (family_lines words.now family)) }
{
    let mut number = 0;
    for i in 0..words::size_at(words, 0) {
        number += usize::from(entry(words, family, i, number, page));
    }
}

// The line of the record at p.
#[tactic(auto, using(record_log::specs::WalkLaws::end_after, record_log::specs::WalkLaws::change_is, crate::specs::TextLaws::text_one), unfolding(crate::specs::Lines::record_line, crate::specs::Text::line_bytes))]
fn record_line(words: &[u32], log: &[u32], p: usize, page: &mut Page)
    requires { end_of words.now log.now p ≤ length log.now }
    ensures { Appends page.old page.new (text (record_line log.now p (end_of words.now log.now p) ∷ [])) }
{
    let table = u64::from(words::word(log, p + 1));
    let row = &log[p + 2..record_log::end_of(words, log, p)];
    match record_log::change_at(log, p) {
        Change::Insert => page.line(b"ins", table, row),
        Change::Remove => page.line(b"del", table, row),
    }
}

// The lines of all records.
#[tactic(auto, using(record_log::specs::Places::record_end, record_log::specs::Places::walks_more))]
fn records(words: &[u32], log: &[u32], page: &mut Page)
    ensures { Appends page.old page.new (text (record_lines words.now log.now)) }
{
    for p in Places::of(words, log) {
        record_line(words, log, p, page);
    }
}

// The records' lines and the flag's.
pub fn log(words: &[u32], page: &mut Page)
    ensures { Appends page.old page.new (text (log_lines words.now)) }
{
    let count = words::size_at(words, 0);
    let body = body(words, count.saturating_sub(1));
    records(words, rest(body), page);
    page.line(b"changed", u64::from(words::word(body, 0)), &[]);
}
