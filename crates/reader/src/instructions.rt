// Entries, fields and instructions.
ghost use Rattle.std.specs.Prelude.{◌≡◌};
ghost use Rattle.model.specs.Book.Scan as spec;
ghost use Rattle.reader.specs.Values.{test_of, scan_of, walk_of, sizes_of, walk_field};

use crate::scan::{Body, Test};
use crate::walk::Walk;
use contents::Contents;
use instr::layout;
use instr::layout::Field;

// What the word after a tag has to be: the number of a variable, a constant, the number of a counter, or any column.
fn tagged(sizes: Contents, tag: u32) -> Test
    ensures { test_of result ≡ spec.tagged (sizes_of sizes) tag }
{
    match tag {
        0 => Test::Below(32),
        1 => Test::Clean,
        2 => Test::Below(sizes.counters),
        _ => Test::Any,
    }
}

impl<'a> Body<'a> {
    // An entry or write value, whose tag is one from `from` to `to`.
    #[tactic(auto, unfolding(model::specs::Book::Scan::pair))]
    fn pair(self, from: u32, to: u32, walk: Walk) -> Option<Walk>
        ensures { scan_of result ≡ spec.pair self.entry.end self.entry.words.now (sizes_of self.entry.sizes) from to
            (walk_of walk) }
    {
        let tag = self.peek(walk);
        let walk = self.word(Test::Range(from, to), walk)?;
        self.word(tagged(self.sizes, tag), walk)
    }

    // A count, 16 at most, and as many entries or write values. Compiled into its callers, a walk takes fewer instructions.
    #[inline]
    pub fn pairs(self, from: u32, to: u32, walk: Walk) -> Option<Walk>
        ensures { scan_of result ≡ spec.list self.entry.end self.entry.words.now 16
            (spec.pair self.entry.end self.entry.words.now (sizes_of self.entry.sizes) from to) (walk_of walk) }
    {
        self.list(16, |walk| self.pair(from, to, walk), walk)
    }

    // Past a field.
    #[tactic(auto, unfolding(model::specs::Book::Scan::field))]
    fn field(self, field: Field, walk: Walk) -> Option<Walk>
        ensures { scan_of result ≡ walk_field self.entry.end self.entry.words.now (sizes_of self.entry.sizes) field
            (walk_of walk) }
    {
        match field {
            Field::Table => self.word(Test::Below(self.sizes.tables), walk),
            Field::Counter => self.word(Test::Below(self.sizes.counters), walk),
            Field::Function => self.word(Test::Below(8), walk),
            Field::Dst => self.word(Test::Below(32), walk),
            Field::Column | Field::Divider => self.word(Test::Any, walk),
            Field::Entry => self.pair(0, 1, walk),
            Field::Entries => self.pairs(0, 1, walk),
            Field::Writes => self.pairs(0, 3, walk),
        }
    }

    // One instruction.
    #[tactic(auto, unfolding(model::specs::Book::Scan::instr, model::specs::Book::Scan::walk))]
    fn instr(self, walk: Walk) -> Option<Walk>
        ensures { scan_of result ≡ spec.instr self.entry.end self.entry.words.now (sizes_of self.entry.sizes)
            (walk_of walk) }
    {
        let fields = layout::fields(self.peek(walk));
        let mut walk = self.word(Test::Range(1, 13), walk)?;
        for field in fields {
            walk = self.field(*field, walk)?;
        }
        Some(walk)
    }

    // A count, 64 at most, and as many instructions.
    pub fn instrs(self, walk: Walk) -> Option<Walk>
        ensures { scan_of result ≡ spec.list self.entry.end self.entry.words.now 64
            (spec.instr self.entry.end self.entry.words.now (sizes_of self.entry.sizes)) (walk_of walk) }
    {
        self.list(64, |walk| self.instr(walk), walk)
    }
}
