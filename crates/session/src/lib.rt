// A book read from an input, run with the memory that `dispatch` lends, and its lines written to an output.
#![tactic(auto)]

pub mod input;

ghost use Rattle.std.specs.Prelude.{◌≡◌, ◌++◌, ℕ, ◌<◌, ◌≤◌, length, get_or, drop, OnOk, IfSome};
ghost use Rattle.std.specs.Io.KnownBytes.{Appends};
ghost use Rattle.model.specs.Printed.{printed};
ghost use Rattle.model.specs.Claims.Cases.{dispatch_lends};
ghost use Rattle.engine.specs.Engine.{outcome_of};
ghost use Rattle.report.specs.Text.{text};
ghost use Rattle.report.specs.Page.{Appends as Page·Appends};
ghost use Rattle.report.specs.Prints.{outcome_lines};

use refusal::Refusal;
use report::Page;
use std::io::{Error, Read, Write};

// Appends the lines of what the engine returned and left in the answer. The second clause hands on what the answer's type says of its words.
fn lines(outcome: Result<usize, Refusal>, answer: &[u32], page: &mut Page)
    ensures text { Page·Appends page.old page.new (text (outcome_lines (outcome_of outcome answer.now))) }
    ensures words { (i : ℕ) → get_or answer.now i 0 < 4294967296 }
{
    match outcome {
        Ok(n) => report::accepted(answer.get(..n).unwrap_or(answer), page),
        Err(refusal) => report::refused(refusal.number(), refusal.place(), page),
    }
}

// Runs a book with 8192 words of bindings and of index and 16384 each of log, tables and answer, and puts its lines at the front of `out`, whose rest stays as it was. Answers how many bytes they have. The lines of an answer have 11 bytes a word at most, so all of them have room.
pub fn respond(book: &[u8], out: &mut [u8]) -> usize
    requires { 180224 ≤ length out.old }
    ensures text { out.new ≡ text (printed dispatch_lends book.now)
        ++ drop (length (text (printed dispatch_lends book.now))) out.old }
    ensures size { (result ≡ length (text (printed dispatch_lends book.now))) × (result ≤ 180224) }
{
    let mut bindings = [0u32; 8192];
    let mut index = [0u32; 8192];
    let mut log = [0u32; 16384];
    let mut tables = [0u32; 16384];
    let mut answer = [0u32; 16384];
    let outcome = engine::run(
        book,
        &mut bindings,
        &mut index,
        &mut log,
        &mut tables,
        &mut answer,
    );
    let mut page = Page { out, at: 0 };
    lines(outcome, &answer, &mut page);
    page.at
}

// What `dispatch` prints for a book: its lines and nothing else.
fn response<'a>(book: &[u8], out: &'a mut [u8]) -> &'a [u8]
    requires { 180224 ≤ length out.old }
    ensures { result.now ≡ text (printed dispatch_lends book.now) }
{
    let n = respond(book, out);
    &out[..n]
}

// Why a book was not answered: it could not be read, or its lines could not be written.
#[derive(Drop)]
pub enum Failure {
    Input(Error),
    Output(Error),
}

// Prints what comes of a book.
fn answer_book<W: Write>(output: &mut W, book: &[u8]) -> Result<(), Failure>
    ensures { OnOk result (Appends (W.contents output.old) (W.contents output.new)
        (text (printed dispatch_lends book.now))) }
{
    let mut out = [0u8; 180224];
    output
        .write_all(response(book, &mut out))
        .map_err(Failure::Output)
}

// Reads a book up to the end of its input and prints what comes of it, or nothing where the input cannot be read. Of an input whose bytes are known and an output that says what it holds, what is printed is the text of what the model prints for these bytes.
pub fn serve<R: Read, W: Write>(input: &mut R, output: &mut W) -> Result<(), Failure>
    ensures { OnOk result (IfSome (R.remaining input.old) (λ book.
        Appends (W.contents output.old) (W.contents output.new) (text (printed dispatch_lends book)))) }
{
    let mut buffer = [0u8; 65537];
    let n = input::read_all(input, &mut buffer).map_err(Failure::Input)?;
    answer_book(output, &buffer[..n])
}

// Says on standard error what failed, the input under the name given, and why. Where that cannot be written, it is dropped.
pub fn complain(rt: &impl Eprint, name: &str, failure: Failure) {
    let _ = match failure {
        Failure::Input(error) => eprintln!(rt; "{name}: {error}"),
        Failure::Output(error) => eprintln!(rt; "standard output: {error}"),
    };
}
