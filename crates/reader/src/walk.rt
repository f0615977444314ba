// Where a walk over a body stands, and what its words drew.
ghost use Rattle.std.specs.Prelude.{◌≡◌, ◌+◌, ◌<◌, IfSome};
ghost use Rattle.std.proofs.Props.{props};

// What a word draws that does not pass: 3, 6 or 4.
#[derive(Clone, Copy)]
pub enum Fault {
    Layout,
    Absent,
    Stale,
}

// The word that a walk stands at, with the first words that drew 6 and 4. None of these is word 0 of the book, which no body has, and which is not noted. A walk that draws 3 ends, and is `None`.
#[derive(Clone, Copy)]
pub struct Walk {
    pub at: usize,
    pub absent: Option<usize>,
    pub stale: Option<usize>,
    ghost noted: { IfSome absent (λ p. 0 < p) × IfSome stale (λ p. 0 < p) } by { Prim.hlevel props },
}

impl Walk {
    ghost use Rattle.model.specs.Book.Scan as spec;
    ghost use Rattle.reader.specs.Values.{draw_of, place_of, gone_to};

    // Notes the word that it stands at, by what that draws, where none before drew the same. The walk stays there.
    pub fn note(mut self, drawn: Result<(), Fault>) -> Option<Walk>
        ensures is { gone_to (self.at + 1) result
            ≡ spec.mark (draw_of drawn) self.at (place_of self.absent) (place_of self.stale) }
        ensures stays { IfSome result (λ w. w.at ≡ self.at) }
    {
        let here = (0 < self.at).then_some(self.at);
        match drawn {
            Ok(()) => {}
            Err(Fault::Layout) => return None,
            Err(Fault::Absent) => self.absent = self.absent.or(here),
            Err(Fault::Stale) => self.stale = self.stale.or(here),
        }
        Some(self)
    }
}
