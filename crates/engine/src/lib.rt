// The engine: a book of bytes is run to its end, or refused with a number and a place.
#![tactic(auto)]

ghost use Rattle.std.specs.Prelude.{◌≡◌, ◌≤◌, length, replicate, None};
ghost use Rattle.model.specs.Book.Words.{bytes_refusal, words_of};
ghost use Rattle.model.specs.Book.Read as read;
ghost use Rattle.model.specs.Outcome.{Permitted, words_refusal};
ghost use Rattle.counter.specs.CounterLaws.{padded};
ghost use Rattle.execution.specs.Execution.{state_of};
ghost use Rattle.simulation.specs.Ends.{start_state};
ghost use Rattle.conclude.specs.End.{Concludes};
ghost use Rattle.engine.specs.Engine.{lent_of, Runnable, Decided, outcome_of, AnswerLeft, kept_answer};

use contents::Book;
use counter::Counters;
use execution::{ExecutionState, MutationBuffer};
use predict::Execution;
use record_log::Log;
use refusal::Refusal;
use run::Answered;
use step_bodies::Page;

// The book's counters, 0 past the last.
fn counters_of(book: Book) -> Counters
    ensures { result.next ≡ padded (read.counters book.entry.words.now) }
{
    let words = book.words;
    let tables = book.contents.table_count();
    let n = book.contents.counter_count();
    let mut next = [0u32; 16];
    for (c, word) in next[..n].iter_mut().enumerate() {
        *word = words::word(words, contents::first_of(words, tables + c));
    }
    Counters { next }
}

// An empty log and a fresh execution state, before the first step.
fn start<'a>(book: Book, log: &'a mut [u32]) -> MutationBuffer<'a>
    ensures is { state_of result ≡ start_state book.entry.words.now }
    ensures log { (result.log.words.ghost_name ≡ log.entry.ghost_name) × (result.log.words.now ≡ log.old) }
{
    MutationBuffer {
        log: Log {
            words: log,
            used: 0,
        },
        state: ExecutionState {
            counters: counters_of(book),
            changed: false,
            stop: None,
        },
    }
}

// The words of a book that draws none of refusals 1 to 11: its run, the commit and the answer.
fn run_book(
    words: &[u32],
    bindings: &mut [u32; 8192],
    index: &mut [u32; 8192],
    log: &mut [u32],
    tables: &mut [u32],
    answer: &mut [u32],
) -> Result<usize, Refusal>
    requires { Runnable words.now × (bindings.old ≡ replicate 8192 0) × (index.old ≡ replicate 8192 0)
        × (log.old ≡ replicate (length log.old) 0) × (length log.old ≤ 16384) × (length tables.old ≤ 16384)
        × (answer.old ≡ replicate (length answer.old) 0) }
    ensures { Concludes words.now
        (lent_of bindings.old index.old log.old tables.old
        answer.old) result answer.new }
{
    let book = Book::of(words);
    let mut page = Page {
        words: answer,
        at: 0,
    };
    let mut p = Answered {
        done: 0,
        page: &mut page,
        lengths: [0u32; 64],
    };
    let mut run = Execution {
        buffer: start(book, log),
        index,
    };
    run::run_steps(book, &mut p, &mut run, bindings);
    conclude::conclude(book, &mut p, run.buffer.left(), tables)
}

// A book that refusal 1 passes, loaded into an array of N words: refusals 2 to 11, and then its run.
fn decide_words<const N: usize>(
    book: &[u8],
    bindings: &mut [u32; 8192],
    index: &mut [u32; 8192],
    log: &mut [u32],
    tables: &mut [u32],
    answer: &mut [u32],
) -> Result<usize, Refusal>
    requires { (bytes_refusal book.now ≡ None) × (length (words_of book.now) ≤ N)
        × (bindings.old ≡ replicate 8192 0) × (index.old ≡ replicate 8192 0) × (log.old ≡ replicate (length log.old) 0)
        × (length log.old ≤ 16384) × (length tables.old ≤ 16384) × (answer.old ≡ replicate (length answer.old) 0)
        × (N ≤ 16384) }
    ensures { Decided
        (lent_of bindings.old index.old log.old tables.old
        answer.old) book.now result answer.new }
{
    let mut words = [0u32; N];
    let n = admit::load_words(book, &mut words);
    rules::first_refusal(&words[..n])?;
    run_book(&words[..n], bindings, index, log, tables, answer)
}

// The same, in a small array for a small book, since clearing it takes less time.
fn decide_book(
    book: &[u8],
    bindings: &mut [u32; 8192],
    index: &mut [u32; 8192],
    log: &mut [u32],
    tables: &mut [u32],
    answer: &mut [u32],
) -> Result<usize, Refusal>
    requires { (bytes_refusal book.now ≡ None) × (bindings.old ≡ replicate 8192 0) × (index.old ≡ replicate 8192 0)
        × (log.old ≡ replicate (length log.old) 0) × (length log.old ≤ 16384) × (length tables.old ≤ 16384)
        × (answer.old ≡ replicate (length answer.old) 0) }
    ensures { Decided
        (lent_of bindings.old index.old log.old tables.old
        answer.old) book.now result answer.new }
{
    if book.len() <= 4096 {
        return decide_words::<1024>(book, bindings, index, log, tables, answer);
    }
    decide_words::<16384>(book, bindings, index, log, tables, answer)
}

// The outcome, with the answer in its words; wrong lengths are refusal 14. The words lent are zero.
fn decide(
    book: &[u8],
    bindings: &mut [u32],
    index: &mut [u32],
    log: &mut [u32],
    tables: &mut [u32],
    answer: &mut [u32],
) -> Result<usize, Refusal>
    requires { (bindings.old ≡ replicate (length bindings.old) 0) × (index.old ≡ replicate (length index.old) 0)
        × (log.old ≡ replicate (length log.old) 0) × (answer.old ≡ replicate (length answer.old) 0) }
    ensures { Decided
        (lent_of bindings.old index.old log.old tables.old
        answer.old) book.now result answer.new }
{
    let Some(bindings) = bindings.as_mut_array() else {
        return Err(Refusal::Lengths);
    };
    let Some(index) = index.as_mut_array() else {
        return Err(Refusal::Lengths);
    };
    if log.len() > 16384 || tables.len() > 16384 {
        return Err(Refusal::Lengths);
    }
    admit::length_refusal(book)?;
    decide_book(book, bindings, index, log, tables, answer)
}

// A refusal leaves the answer zero.
fn keep_or_clear(outcome: Result<usize, Refusal>, answer: &mut [u32])
    ensures { answer.new ≡ kept_answer outcome answer.old }
{
    if outcome.is_err() {
        words::clear(answer);
    }
}

// A book is run to its end, with its answer in the words lent for it and zero past it; or it is refused, and the answer is zero. The other words lent are left zero.
pub fn run(
    book: &[u8],
    bindings: &mut [u32],
    index: &mut [u32],
    log: &mut [u32],
    tables: &mut [u32],
    answer: &mut [u32],
) -> Result<usize, Refusal>
    ensures outcome { Permitted
        (lent_of bindings.old index.old log.old tables.old
        answer.old) book.now (outcome_of result answer.new) }
    ensures answer { AnswerLeft result (length answer.old) answer.new }
    ensures bindings { bindings.new ≡ replicate (length bindings.old) 0 }
    ensures index { index.new ≡ replicate (length index.old) 0 }
    ensures log { log.new ≡ replicate (length log.old) 0 }
    ensures tables { tables.new ≡ replicate (length tables.old) 0 }
{
    words::clear(bindings);
    words::clear(index);
    words::clear(log);
    words::clear(answer);
    let outcome = decide(book, bindings, index, log, tables, answer);
    words::clear(bindings);
    words::clear(index);
    words::clear(log);
    words::clear(tables);
    keep_or_clear(outcome, answer);
    outcome
}
