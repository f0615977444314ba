// What C and Rust link: `dispatch_run` of include/dispatch.h, a thin function over the engine's entry point.
#![tactic(auto)]

ghost use Rattle.std.specs.Prelude.{◌≡◌, min, length, replicate};
ghost use Rattle.engine.specs.Engine.{lent_of};
ghost use Rattle.wirumbane.specs.Returned.{packed, Returned};

use refusal::Refusal;

// A number as the low half of a result. No answer and no place comes near the limit.
fn low_half(n: usize) -> u64
    ensures { result ≡ min n 4294967295 }
{
    n.min(4294967295) as u64
}

fn pack(outcome: Result<usize, Refusal>) -> u64
    ensures { result ≡ packed outcome }
{
    match outcome {
        Ok(n) => low_half(n),
        Err(refusal) => u64::from(refusal.number()) * 4294967296 + low_half(refusal.place()),
    }
}

// `engine::run`: the refusal's number in the high half, 0 where the book is accepted, and its place or the answer's word count in the low half.
#[unsafe(no_mangle)]
pub extern "C" fn dispatch_run(
    book: &[u8],
    bindings: &mut [u32],
    index: &mut [u32],
    log: &mut [u32],
    tables: &mut [u32],
    answer: &mut [u32],
) -> u64
    ensures outcome { Returned
        (lent_of bindings.old index.old log.old tables.old
        answer.old) book.now result answer.new }
    ensures bindings { bindings.new ≡ replicate (length bindings.old) 0 }
    ensures index { index.new ≡ replicate (length index.old) 0 }
    ensures log { log.new ≡ replicate (length log.old) 0 }
    ensures tables { tables.new ≡ replicate (length tables.old) 0 }
{
    pack(engine::run(book, bindings, index, log, tables, answer))
}
