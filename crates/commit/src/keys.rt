// The keys of a table's removals, one after the other in words that are lent for them.
ghost use Rattle.std.specs.Prelude.{◌≡◌, ◌+◌, ◌*◌, ◌≤◌, length, take};
ghost use Rattle.commit.specs.Walk.{store_key, key_table};
ghost use Rattle.commit.specs.Keys.{KeyRoom};

use tables::{Rows, TableInfo};

// The words that are lent, the words of a key, and how many keys there are. A removal has two words besides its key, so there is room for the keys where there is for the log.
#[derive(Drop)]
pub struct Keys<'a> {
    pub words: &'a mut [u32],
    pub width: usize,
    pub count: usize,
    ghost room: { KeyRoom width count (length words.now) },
}

impl Keys<'_> {
    ghost use Rattle.commit.specs.KeysLeft.{keys_of, LeavesKeys};

    // One key more, past those that are there.
    pub fn push(&mut self, key: &[u32])
        requires { (length key.now ≡ self.old.width) × KeyRoom self.old.width (self.old.count + 1) (length self.old.words.now) }
        ensures { LeavesKeys self.old self.new (store_key key.now self.old.width (keys_of self.old)) }
    {
        words::copy(key, self.words, self.count * self.width);
        self.count += 1;
    }

    // The rows of a table that has these keys alone.
    pub fn table(&self) -> Rows<'_>
        requires { self.now.width ≤ 16 }
        ensures { (result.words.now ≡ take (self.now.count * self.now.width) self.now.words.now)
            × (result.info ≡ key_table self.now.width self.now.count) }
    {
        Rows {
            words: &self.words[..self.count * self.width],
            info: TableInfo {
                keys: self.width,
                width: self.width,
                merge: 0,
                rows: self.count,
                at: 0,
            },
        }
    }
}
