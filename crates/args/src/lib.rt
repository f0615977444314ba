// A short list of words by value: what a list of entries stands for in one lane, a key or a row.
#![tactic(auto)]

ghost use Rattle.std.specs.Prelude.{◌≡◌, ◌≤◌, ◌<◌};
ghost use Rattle.args.specs.Args.{pushed, words_at};

// `count` words, the first of 16: a fixed array with a count, since there is no heap.
#[derive(Clone, Copy)]
pub struct Args {
    pub vals: [u32; 16],
    pub count: usize,
}

impl Args {
    // With one word more. There is no room for a 17th, which no key or row has.
    #[tactic(auto, unfolding(crate::specs::Args::pushed))]
    pub fn push(&mut self, x: u32)
        ensures { self.new ≡ pushed self.old x }
    {
        let n = self.count;
        if n < 16 {
            self.vals[n] = x;
            self.count = n + 1;
        }
    }
}

// n words of a slice, from the word `at` on.
pub fn words_at(words: &[u32], at: usize, n: usize) -> Args
    requires { (n ≤ 16) × (at < 4294967296) }
    ensures { result ≡ words_at words.now at n }
{
    let mut vals = [0; 16];
    let there = words::part(words, at, n);
    words::copy(there, &mut vals, 0);
    Args { vals, count: n }
}
