// The book's words and the word that a walk stands at. `take` has plain parameters, so that its callers hold a slice and a place, and no `Reader`.
#![tactic(auto)]

ghost use Rattle.std.specs.Prelude.{◌≡◌, ◌+◌, ◌^◌, ◌<◌, get_or};

#[derive(Clone, Copy)]
struct Reader<'a> {
    words: &'a [u32],
    at: usize,
}

// A word, and the place after it.
#[derive(Clone, Copy)]
pub struct Taken {
    pub word: u32,
    pub next: usize,
}

impl<'a> Reader<'a> {
    // The word that it stands at, or 0 past the end.
    fn word(self) -> u32
        ensures { result ≡ get_or self.entry.words.now self.entry.at 0 }
    {
        words::word(self.words, self.at)
    }

    // One word on.
    fn past(self) -> Self
        requires { self.at + 1 < 2 ^ 64 }
        ensures { (result.words ≡ self.entry.words) × (result.at ≡ self.entry.at + 1) }
    {
        Reader {
            at: self.at + 1,
            ..self
        }
    }
}

// The word at p, and the place after it.
pub fn take(words: &[u32], p: usize) -> Taken
    requires { p + 1 < 2 ^ 64 }
    ensures { (result.word ≡ get_or words.now p 0) × (result.next ≡ p + 1) }
{
    let reader = Reader { words, at: p };
    Taken {
        word: reader.word(),
        next: reader.past().at,
    }
}
