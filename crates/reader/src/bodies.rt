// The five kinds of bodies. A walk begins at the body's first word, and has to come out at its end.
ghost use Rattle.std.specs.Prelude.{◌≡◌, ◌<◌};
ghost use Rattle.model.specs.Book.Read as read;
ghost use Rattle.model.specs.Book.Scan as spec;
ghost use Rattle.contents.specs.Kinds.{kind_number};
ghost use Rattle.reader.specs.Values.{scan_of, walk_of, sizes_of};

use crate::scan;
use crate::scan::{Body, Test};
use crate::walk::Walk;
use contents::{Contents, Kind};

impl<'a> Body<'a> {
    // The body ends here.
    fn finish(self, walk: Walk) -> Option<Walk>
        ensures { scan_of result ≡ spec.finish self.entry.end (walk_of walk) }
    {
        self.left(0, walk)
    }

    // The body ends n words further on.
    #[tactic(auto, unfolding(model::specs::Book::Scan::left))]
    fn left(self, n: usize, walk: Walk) -> Option<Walk>
        ensures { scan_of result ≡ spec.left self.entry.end n (walk_of walk) }
    {
        (self.end.checked_sub(walk.at)? == n).then_some(walk)
    }

    // n clean words, and the body ends. Where it does not end there, n may be any number.
    fn block(self, n: usize, walk: Walk) -> Option<Walk>
        ensures { scan_of result ≡ spec.block self.entry.end self.entry.words.now n (walk_of walk) }
    {
        let walk = self.left(n, walk)?;
        scan::steps(n, |walk| self.word(Test::Clean, walk), walk)
    }

    // A count, 16 at most, and as many clean words.
    fn values(self, walk: Walk) -> Option<Walk>
        ensures { scan_of result ≡ spec.list self.entry.end self.entry.words.now 16
            (spec.word self.entry.end self.entry.words.now spec.clean) (walk_of walk) }
    {
        self.list(16, |walk| self.word(Test::Clean, walk), walk)
    }

    // Key count, value count, merge rule, row count, rows. A row of no words or of more than 16 is refused at once: so the words of all rows can be counted.
    #[tactic(auto, unfolding(model::specs::Book::Scan::scan_table))]
    fn table(self) -> Option<Walk>
        ensures { scan_of result ≡ spec.scan_table self.entry.end self.entry.words.now (sizes_of self.entry.sizes) self.entry.first }
    {
        let keys = words::size_at(self.words, self.first);
        let vals = words::size_at(self.words, self.first + 1);
        let rows = words::size_at(self.words, self.first + 3);
        let width = keys + vals;
        if width == 0 || 16 < width {
            return None;
        }
        let walk = self.word(Test::UpTo(8), self.start())?;
        let walk = self.word(Test::UpTo(8), walk)?;
        let walk = self.word(Test::Below(4), walk)?;
        let walk = self.word(Test::Any, walk)?;
        self.block(rows * width, walk)
    }

    // A counter's next number.
    #[tactic(auto, unfolding(model::specs::Book::Scan::scan_counter))]
    fn counter(self) -> Option<Walk>
        ensures { scan_of result ≡ spec.scan_counter self.entry.end self.entry.words.now (sizes_of self.entry.sizes) self.entry.first }
    {
        let walk = self.word(Test::Clean, self.start())?;
        self.finish(walk)
    }

    // Starting variables, instruction count, instructions.
    #[tactic(auto, unfolding(model::specs::Book::Scan::scan_rule))]
    fn rule(self) -> Option<Walk>
        ensures { scan_of result ≡ spec.scan_rule self.entry.end self.entry.words.now (sizes_of self.entry.sizes) self.entry.first }
    {
        let walk = self.word(Test::UpTo(32), self.start())?;
        let walk = self.instrs(walk)?;
        self.finish(walk)
    }

    // The rule, how many lanes and variables there are, and a column for each variable.
    #[tactic(auto, unfolding(model::specs::Book::Scan::scan_batch))]
    fn batch(self) -> Option<Walk>
        ensures { scan_of result ≡ spec.scan_batch self.entry.end self.entry.words.now (sizes_of self.entry.sizes) self.entry.first }
    {
        let lanes = words::size_at(self.words, self.first + 1);
        let columns = words::size_at(self.words, self.first + 2);
        let walk = self.word(Test::Below(self.sizes.rules), self.start())?;
        let walk = self.word(Test::UpTo(256), walk)?;
        let walk = self.word(Test::UpTo(32), walk)?;
        self.block(columns * lanes, walk)
    }

    // The table, the words of a key, and write values, which are constants or counters; a count comes before each list.
    #[tactic(auto, unfolding(model::specs::Book::Scan::scan_prediction, model::specs::Book::Scan::field))]
    fn prediction(self) -> Option<Walk>
        ensures { scan_of result ≡ spec.scan_prediction self.entry.end self.entry.words.now (sizes_of self.entry.sizes)
            self.entry.first }
    {
        let walk = self.word(Test::Below(self.sizes.tables), self.start())?;
        let walk = self.values(walk)?;
        let walk = self.pairs(1, 2, walk)?;
        self.finish(walk)
    }

    // A body by its kind.
    #[tactic(auto, unfolding(model::specs::Book::Scan::scan))]
    fn by_kind(self, kind: Kind) -> Option<Walk>
        ensures { scan_of result ≡ spec.scan self.entry.end self.entry.words.now (sizes_of self.entry.sizes)
            (kind_number kind) self.entry.first }
    {
        match kind {
            Kind::Table => self.table(),
            Kind::Counter => self.counter(),
            Kind::Rule => self.rule(),
            Kind::Batch => self.batch(),
            Kind::Prediction => self.prediction(),
        }
    }
}

// The walk over body i. One of no kind draws 3.
#[tactic(auto, using(contents::specs::KindLaws::number_of_kind, crate::specs::BodyLaws::scan_none))]
pub fn past_body(words: &[u32], sizes: Contents, i: usize) -> Option<Walk>
    requires { (i < 128) × (sizes_of sizes ≡ read.sizes words.now) }
    ensures { scan_of result ≡ read.walk words.now i }
{
    let kind = contents::body_kind(words, i)?;
    let first = contents::first_of(words, i);
    let end = contents::end_of(words, i);
    Body {
        words,
        sizes,
        first,
        end,
    }
    .by_kind(kind)
}
