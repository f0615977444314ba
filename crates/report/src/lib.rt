// The lines that program `dispatch` prints, as bytes in a buffer that is lent: those of an answer, or the one of a refusal. What has no room there is left out.
#![tactic(auto)]

mod lines;
mod text;

ghost use Rattle.std.specs.Prelude.{[], ◌∷◌};
ghost use Rattle.model.specs.Printed.{refused as Line·refused};
ghost use Rattle.report.specs.Text.{text as Text·text};
ghost use Rattle.report.specs.Lines.{answer_lines};
ghost use Rattle.report.specs.Page.{Appends};

use lines::Family;
pub use text::Page;

// Appends the lines of an answer's words: steps, log, flag, tables, counters.
pub fn accepted(words: &[u32], page: &mut Page)
    ensures { Appends page.old page.new (Text·text (answer_lines words.now)) }
{
    lines::numbered(words, Family::Steps, page);
    lines::log(words, page);
    lines::numbered(words, Family::Tables, page);
    lines::numbered(words, Family::Counters, page);
}

// Appends the line of a refusal.
pub fn refused(number: u32, place: usize, page: &mut Page)
    ensures { Appends page.old page.new (Text·text (Line·refused number place ∷ [])) }
{
    page.append(b"refused");
    page.number(u64::from(number));
    page.append(b" at");
    page.number(place as u64);
    page.append(b"\n");
}
