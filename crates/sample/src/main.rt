// Runs the sample of the differential runs, read on standard input, and prints how many of its books came out as the sample says. harness/README.md has the format.
#![tactic(auto)]

ghost use Rattle.std.specs.Prelude.{◌≤◌};

use refusal::Refusal;
use std::io;
use std::io::Read;

// How many words of memory an entry's word i lends. There is room for 20480, and no book of the sample asks for more.
fn lent(entry: &[u8], i: usize) -> usize
    ensures { result ≤ 20480 }
{
    words::size_in(entry, i).min(20480)
}

// The bytes of an entry's book, or none where it is cut off.
fn book(entry: &[u8]) -> &[u8] {
    let end = 32 + words::size_in(entry, 5);
    entry.get(32..end).unwrap_or(&[])
}

// How many words the book's bytes take up.
fn book_words(entry: &[u8]) -> usize
    ensures { result ≤ 1073741824 }
{
    words::size_in(entry, 5).div_ceil(4)
}

// How many words an entry takes up: eight of head, the book's bytes, and the answer's words where the book is accepted.
fn size(entry: &[u8]) -> usize
    ensures { result ≤ 8589934592 }
{
    let head_and_book = 8 + book_words(entry);
    if words::size_in(entry, 6) == 0 {
        head_and_book + words::size_in(entry, 7)
    } else {
        head_and_book
    }
}

// Whether an answer of n words is the one that stands in the entry, and what is lent past it is zero.
fn same_answer(entry: &[u8], answer: &[u32], n: usize) -> bool {
    let at = 8 + book_words(entry);
    answer.split_at_checked(n).is_some_and(|(front, rest)| {
        words::same_words(entry, at, front) && words::all_zero(rest)
    })
}

// Whether the outcome of the entry's book, and the answer lent, are as the entry has them.
fn agrees(entry: &[u8], outcome: Result<usize, Refusal>, answer: &[u32]) -> bool {
    let number = words::size_in(entry, 6);
    let place = words::size_in(entry, 7);
    match outcome {
        Ok(n) => number == 0 && place == n && same_answer(entry, answer, n),
        Err(refusal) => {
            number == refusal.number() as usize
                && place == refusal.place()
                && words::all_zero(answer)
        }
    }
}

// Runs the entry's book with the words lent. The engine's contract says that it leaves all of them zero but the answer's; here the words that the compiled engine leaves are looked at.
fn run_book(
    entry: &[u8],
    bindings: &mut [u32],
    index: &mut [u32],
    log: &mut [u32],
    tables: &mut [u32],
    answer: &mut [u32],
) -> bool {
    let outcome = engine::run(book(entry), bindings, index, log, tables, answer);
    words::all_zero(bindings)
        && words::all_zero(index)
        && words::all_zero(log)
        && words::all_zero(tables)
        && agrees(entry, outcome, answer)
}

// Runs the entry's book with as many words as the entry lends it. None of them is zero before.
fn replay(entry: &[u8]) -> bool {
    let mut bindings = [1u32; 20480];
    let mut index = [1u32; 20480];
    let mut log = [1u32; 20480];
    let mut tables = [1u32; 20480];
    let mut answer = [1u32; 20480];
    run_book(
        entry,
        &mut bindings[..lent(entry, 0)],
        &mut index[..lent(entry, 1)],
        &mut log[..lent(entry, 2)],
        &mut tables[..lent(entry, 3)],
        &mut answer[..lent(entry, 4)],
    )
}

// How many of n books come out as the sample says. A book that the sample's end cuts off is none of them.
fn count(sample: &[u8], n: usize) -> usize {
    let mut right = 0;
    let mut rest = sample.get(4..).unwrap_or(&[]);
    for _ in 0..n {
        let Some((entry, others)) = rest.split_at_checked(4 * size(rest)) else {
            break;
        };
        if replay(entry) {
            right += 1;
        }
        rest = others;
    }
    right
}

fn print(rt: &impl Print, sample: &[u8]) -> io::Result<()> {
    let n = words::size_in(sample, 0);
    let right = count(sample, n);
    println!(rt; "{right} of {n} books as in the sample")
}

// Reads the sample into the buffer, and prints how many of its books come out as it says. A read that fails ends the sample.
fn run<R: Read>(rt: &impl Print, input: &mut R, buffer: &mut [u8]) -> io::Result<()> {
    let (got, _) = session::input::fill(input, buffer);
    if got < 524288 {
        print(rt, &buffer[..got])
    } else {
        println!(rt; "the sample is too long")
    }
}

fn main(rt: HostRuntime) -> io::Result<()> {
    let mut buffer = [0u8; 524288];
    run(&rt, &mut rt.reader(), &mut buffer)
}
