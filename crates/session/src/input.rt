// An input read into a buffer. A buffer of 65537 bytes tells a book of 65536 bytes from a longer one; what has no room there is read and dropped.
ghost use Rattle.std.specs.Prelude.{◌≡◌, ◌<◌, ◌≤◌, length, take, IfOk, OnOk, IfSome};
ghost use Rattle.std.specs.Io.KnownBytes.{Consumes, IsAtEnd};

use std::io;
use std::io::Read;

// Reads until the buffer is full, the input ends or a read fails: how many bytes were put there, and whether a read failed. The place moves by what each read gives, and no iterator of the library reads so; hence the `while`.
pub fn fill<R: Read>(input: &mut R, buffer: &mut [u8]) -> (usize, io::Result<()>)
    ensures held { result.0 ≤ length buffer.new }
    ensures bytes { Consumes (R.remaining input.old) (R.remaining input.new) (take result.0 buffer.new) }
    ensures end { OnOk result.1 (result.0 < length buffer.new → IsAtEnd (R.remaining input.new)) }
{
    let mut at = 0;
    while at < buffer.len() {
        match input.read(&mut buffer[at..]) {
            Ok(0) => break,
            Ok(n) => at += n,
            Err(error) => return (at, Err(error)),
        }
    }
    (at, Ok(()))
}

// Reads to the end of the input, unless a read fails. A proved loop has to end, and nothing says that an input does, so the turns are counted up to a number that no run comes to.
fn drop_rest<R: Read>(input: &mut R) -> io::Result<()> {
    let mut buffer = [0u8; 4096];
    for _ in 0..u64::MAX {
        if input.read(&mut buffer)? == 0 {
            break;
        }
    }
    Ok(())
}

// All of an input, as far as the buffer holds it: how many bytes are there. They are those of the input, as many as have room.
#[tactic(auto, using(crate::proofs::Known::as_held))]
pub fn read_all<R: Read>(input: &mut R, buffer: &mut [u8]) -> io::Result<usize>
    ensures held { IfOk result (λ n. n ≤ length buffer.old) }
    ensures bytes { IfOk result (λ n. IfSome (R.remaining input.old) (λ bytes.
        take n buffer.new ≡ take (length buffer.new) bytes)) }
{
    let (got, read) = fill(input, buffer);
    read?;
    if got == buffer.len() {
        drop_rest(input)?;
    }
    Ok(got)
}
