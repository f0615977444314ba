// The reading of a book's words: refusals 2 to 6, with their places.
#![tactic(auto)]

ghost use Rattle.std.specs.Prelude.{◌≡◌, ◌<◌, ◌≤◌, length, None};
ghost use Rattle.model.specs.Basics.{◌else◌};
ghost use Rattle.model.specs.Book.Contents.{contents_refusal};
ghost use Rattle.model.specs.Book.Read.{body_refusal, bodies_refusal};
ghost use Rattle.refusal.specs.Refusal.{refusal_of};
ghost use Rattle.reader.specs.Values.{sizes_of};
ghost use Rattle.reader.specs.Places.{BodyAt};

mod bodies;
mod instructions;
mod rows;
mod scan;
mod walk;

use contents::{Contents, Kind};
use refusal::Refusal;

// Refusals 3, 6, 4 and 5 of body i.
#[tactic(auto, using(contents::specs::KindLaws::is_table, crate::specs::ReadLaws::body_bad, crate::specs::ReadLaws::body_six, crate::specs::ReadLaws::body_four, crate::specs::ReadLaws::body_pass, crate::specs::ReadLaws::table_at_lem))]
fn body(words: &[u32], sizes: Contents, i: usize) -> Result<(), Refusal>
    requires { BodyAt words.now (sizes_of sizes) i }
    ensures { refusal_of result ≡ body_refusal words.now i }
{
    let walk = bodies::past_body(words, sizes, i).ok_or(Refusal::Layout(i))?;
    if let Some(place) = walk.absent {
        return Err(Refusal::Absent(place));
    }
    if let Some(place) = walk.stale {
        return Err(Refusal::Stale(place));
    }
    if contents::body_kind(words, i) == Some(Kind::Table) {
        rows::repeated(words, contents::first_of(words, i))
    } else {
        Ok(())
    }
}

// The bodies of a book whose contents pass.
#[tactic(auto, using(crate::specs::ReadLaws::bodies_refused, crate::specs::ReadLaws::bodies_pass))]
fn all_bodies(words: &[u32]) -> Result<(), Refusal>
    requires { contents_refusal words.now ≡ None }
    ensures { refusal_of result ≡ bodies_refusal words.now }
{
    let sizes = contents::of(words);
    for i in 0..words::size_at(words, 0) {
        body(words, sizes, i)?;
    }
    Ok(())
}

// Refusals 2 to 6 of a book.
pub fn read(words: &[u32]) -> Result<(), Refusal>
    requires { (0 < length words.now) × (length words.now ≤ 16384) }
    ensures { refusal_of result ≡ (contents_refusal words.now else λ _. bodies_refusal words.now) }
{
    contents::check(words)?;
    all_bodies(words)
}
