// A row's values merged with those of a new row that has the same key.
ghost use Rattle.std.specs.Prelude.{◌≡◌, ℕ, ◌+◌, ◌≤◌, length};
ghost use Rattle.std.proofs.lemmas.List.Edits.{sets};
ghost use Rattle.model.specs.Book.Decode.{part};
ghost use Rattle.model.specs.Commit.{merge_word};
ghost use Rattle.commit.specs.MergeRule.{merge_by, merged};

// What a table makes of a row's value and a new one.
#[derive(Clone, Copy)]
pub enum MergeRule {
    Old,
    New,
    Smaller,
    Larger,
}

// By its number in a book, where 0 is the old value's; past 3 there is none.
impl From<u32> for MergeRule {
    ghost from_gives = { λ number rule. (old new : ℕ) → merge_by rule old new ≡ merge_word number old new };

    fn from(number: u32) -> MergeRule {
        match number {
            1 => MergeRule::New,
            2 => MergeRule::Smaller,
            3 => MergeRule::Larger,
            _ => MergeRule::Old,
        }
    }
}

impl MergeRule {
    fn merge(self, old: u32, new: u32) -> u32
        ensures { result ≡ merge_by self old new }
    {
        match self {
            MergeRule::Old => old,
            MergeRule::New => new,
            MergeRule::Smaller => old.min(new),
            MergeRule::Larger => old.max(new),
        }
    }
}

// The words from `at` on, each with the one of `new` at its place.
pub fn merge_words(rows: &mut [u32], at: usize, new: &[u32], rule: MergeRule)
    requires { at + length new.now ≤ length rows.old }
    ensures { rows.new ≡ sets rows.old at
        (merged (merge_by rule) (part rows.old at (length new.now)) new.now) }
{
    for (i, word) in new.iter().enumerate() {
        rows[at + i] = rule.merge(rows[at + i], *word);
    }
}
