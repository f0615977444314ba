// Words of a book of bytes, and whole buffers of words: read, cleared, copied, compared.
#![tactic(auto)]

ghost use Rattle.std.specs.Prelude.{◌≡◌, ◌↔◌, true, ℕ, ◌+◌, ◌*◌, ◌^◌, ◌≤◌, ◌<◌, length, get_or, replicate};
ghost use Rattle.std.proofs.Math.Seq.{paste};
ghost use Rattle.model.specs.Basics.{tab};
ghost use Rattle.model.specs.Book.Words.{words_of};
ghost use Rattle.model.specs.Book.Decode.{part};
ghost use Rattle.model.specs.Laws.Words.{word_at};

// The word whose first byte stands at 4 * i, low byte first.
pub fn word_at(book: &[u8], i: usize) -> u32
    requires { 4 * i + 4 ≤ length book.now }
    ensures { result ≡ word_at book.now i }
{
    let at = 4 * i;
    u32::from_le_bytes([book[at], book[at + 1], book[at + 2], book[at + 3]])
}

// Word i of the bytes as a size, or 0 past their last whole word.
#[tactic(auto, using(model::specs::Laws::Words::length_words, model::specs::Laws::Words::get_or_words, std::proofs::lemmas::List::get_or_past))]
pub fn size_in(bytes: &[u8], i: usize) -> usize
    ensures { (result ≡ get_or (words_of bytes.now) i 0) × (result < 4294967296) }
{
    if i < bytes.len() / 4 {
        word_at(bytes, i) as usize
    } else {
        0
    }
}

// All of `words` from the front of `book`.
#[tactic(auto, using(crate::specs::Filled::filled_turn, crate::specs::Filled::filled_none, crate::specs::Filled::filled_all))]
pub fn load(book: &[u8], words: &mut [u32])
    requires { 4 * length words.old ≤ length book.now }
    ensures { words.new ≡ tab (word_at book.now) (length words.old) }
{
    for (i, word) in words.iter_mut().enumerate() {
        *word = word_at(book, i);
    }
}

// The word at p, or 0 past the end.
pub fn word(words: &[u32], p: usize) -> u32
    ensures { result ≡ get_or words.now p 0 }
{
    words.get(p).copied().unwrap_or(0)
}

// The word at p as a size or a place, or 0 past the end.
pub fn size_at(words: &[u32], p: usize) -> usize
    ensures { (result ≡ get_or words.now p 0) × (result < 4294967296) }
{
    word(words, p) as usize
}

pub fn clear(buf: &mut [u32])
    ensures { buf.new ≡ replicate (length buf.old) 0 }
{
    buf.fill(0);
}

// The words from `at` on, n of them or as many as are there.
pub fn part<'a>(words: &'a [u32], at: usize, n: usize) -> &'a [u32]
    ensures { result.now ≡ part words.now at n }
{
    let rest = &words[at.min(words.len())..];
    &rest[..n.min(rest.len())]
}

// All of `src`, into `dst` from the word `at` on. A loop, which compiles to memcpy: the library's `copy_from_slice` is memmove, which whoever links the archive would have to have.
#[tactic(auto, using(std::proofs::lemmas::List::Edits::paste_none, std::proofs::lemmas::List::Edits::paste_more))]
pub fn copy(src: &[u32], dst: &mut [u32], at: usize)
    requires { at + length src.now ≤ length dst.old }
    ensures { dst.new ≡ paste dst.old at src.now (length src.now) }
{
    for i in 0..src.len() {
        dst[at + i] = src[i];
    }
}

// Whether every word is 0.
pub fn all_zero(words: &[u32]) -> bool
    ensures { (result ≡ true) ↔ ((i : ℕ) → i < length words.now → get_or words.now i 0 ≡ 0) }
{
    words.iter().all(|x| *x == 0)
}

// Whether the words of the bytes, from word `at` on, are these.
pub fn same_words(bytes: &[u8], at: usize, words: &[u32]) -> bool
    requires { at + length words.now < 2 ^ 64 }
    ensures { (result ≡ true) ↔ ((i : ℕ) → i < length words.now
        → get_or (words_of bytes.now) (at + i) 0 ≡ get_or words.now i 0) }
{
    words
        .iter()
        .enumerate()
        .all(|(i, x)| size_in(bytes, at + i) == *x as usize)
}
