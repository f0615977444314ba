// A book of bytes: refusal 1, and its words.
#![tactic(auto)]

ghost use Rattle.std.specs.Prelude.{◌≡◌, ◌++◌, ◌≤◌, length, drop};
ghost use Rattle.model.specs.Book.Words.{bytes_refusal, words_of};
ghost use Rattle.refusal.specs.Refusal.{refusal_of};

use refusal::Refusal;

// Refusal 1: a book has from 1 to 16384 whole words.
pub fn length_refusal(book: &[u8]) -> Result<(), Refusal>
    ensures { refusal_of result ≡ bytes_refusal book.now }
{
    let n = book.len();
    if n == 0 || 65536 < n || n % 4 != 0 {
        return Err(Refusal::Bytes);
    }
    Ok(())
}

// The book's words at the front of `words`, the rest as it was; the answer is how many they are.
#[tactic(auto, using(crate::specs::BookLaws::words_loaded, model::specs::Laws::Words::length_words))]
pub fn load_words(book: &[u8], words: &mut [u32]) -> usize
    requires { length (words_of book.now) ≤ length words.old }
    ensures count { result ≡ length (words_of book.now) }
    ensures is { words.new ≡ words_of book.now ++ drop (length (words_of book.now)) words.old }
{
    let n = book.len() / 4;
    words::load(book, &mut words[..n]);
    n
}
