// Words put into the answer one after the other.
ghost use Rattle.std.specs.Prelude.{[], ◌∷◌, length};
ghost use Rattle.step_bodies.specs.Page.{Appends, Room};

// The words lent for the answer, and where the next goes. Its methods ask for room; report's page of bytes asks for none and cuts off.
#[derive(Drop)]
pub struct Page<'a> {
    pub words: &'a mut [u32],
    pub at: usize,
}

impl Page<'_> {
    // One word.
    pub fn push(&mut self, x: u32)
        requires { Room self.old 1 }
        ensures { Appends self.old self.new (x ∷ []) }
    {
        self.words[self.at] = x;
        self.at += 1;
    }

    // All of `words`.
    #[tactic(auto, using(crate::specs::Runs::paste_sets))]
    pub fn write(&mut self, words: &[u32])
        requires { Room self.old (length words.now) }
        ensures { Appends self.old self.new words.now }
    {
        words::copy(words, self.words, self.at);
        self.at += words.len();
    }
}
