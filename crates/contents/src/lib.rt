// The contents of a book: refusal 2, and where each body stands.
#![tactic(auto)]

mod kinds;

ghost use Rattle.std.specs.Prelude.{◌≡◌, ◌&&◌, ◌+◌, ◌*◌, ◌≤◌, ◌<◌, eqb, ltb, leb, length};
ghost use Rattle.model.specs.Book.Contents as contents;
ghost use Rattle.model.specs.Book.Contents.{rule_count};
ghost use Rattle.model.specs.Outcome.{rule_first};
ghost use Rattle.model.specs.Laws.Book.{Readable};
ghost use Rattle.contents.specs.Contents.{ContentsOf};
ghost use Rattle.contents.specs.Kinds.{kind_by, group_number, number_of};
ghost use Rattle.refusal.specs.Refusal.{refusal_of};

pub use kinds::{BodyKind, Kind, KindGroup, NoKind};
use refusal::Refusal;

// How many of each a book has. Their entries stand in this order.
#[derive(Clone, Copy)]
pub struct Contents {
    pub tables: u32,
    pub counters: u32,
    pub rules: u32,
    pub steps: u32,
}

impl Contents {
    pub fn table_count(self) -> usize
        ensures { result ≡ self.tables }
    {
        self.tables as usize
    }

    pub fn counter_count(self) -> usize
        ensures { result ≡ self.counters }
    {
        self.counters as usize
    }

    pub fn rule_count(self) -> usize
        ensures { result ≡ self.rules }
    {
        self.rules as usize
    }

    pub fn step_count(self) -> usize
        ensures { result ≡ self.steps }
    {
        self.steps as usize
    }

    // The rules' first entry.
    pub fn first_rule(self) -> usize
        ensures { result ≡ self.tables + self.counters }
    {
        self.table_count() + self.counter_count()
    }

    // The steps' first entry.
    pub fn first_step(self) -> usize
        ensures { result ≡ self.tables + self.counters + self.rules }
    {
        self.first_rule() + self.rule_count()
    }
}

// A book that can be read: its words, and what they contain.
#[derive(Clone, Copy)]
pub struct Book<'a> {
    pub words: &'a [u32],
    pub contents: Contents,
    ghost readable: { Readable words.now },
    ghost contained: { ContentsOf words.now contents },
}

impl<'a> Book<'a> {
    // The book of words that can be read.
    #[tactic(auto, using(model::specs::Laws::Book::few_entries))]
    pub fn of(words: &'a [u32]) -> Self
        requires { Readable words.now }
        ensures { result.words.now ≡ words.now }
    {
        Book {
            words,
            contents: of(words),
        }
    }

    // The first word of rule r.
    #[tactic(auto, using(model::specs::Laws::Book::few_tables, model::specs::Laws::Book::few_counters, model::specs::Laws::Book::few_rules, crate::specs::ContentsLaws::first_rule_is))]
    pub fn rule(self, r: usize) -> usize
        requires { r < rule_count self.words.now }
        ensures { (result ≡ rule_first self.entry.words.now r) × (result < 4294967296) }
    {
        first_of(self.words, self.contents.first_rule() + r)
    }

    // The entry of step k.
    #[tactic(auto, using(model::specs::Laws::Book::few_tables, model::specs::Laws::Book::few_counters, model::specs::Laws::Book::few_rules, crate::specs::ContentsLaws::first_step_is))]
    pub fn step(self, k: usize) -> usize
        requires { k ≤ 64 }
        ensures { (result ≡ contents.first_step self.entry.words.now + k) × (result ≤ 128) }
    {
        self.contents.first_step() + k
    }
}

// The group of a kind's number.
pub fn group(kind: u32) -> Option<KindGroup>
    ensures { number_of result ≡ contents.group kind }
{
    Some(Kind::try_from(kind).ok()?.group())
}

// Whether an entry of group g may stand after one of group `last`, as the `seen`-th of its group, with its body at `first` where the body before it ended at `end`.
fn fits(last: KindGroup, g: KindGroup, seen: u32, first: usize, end: usize) -> bool
    ensures { result ≡ (leb (group_number last) (group_number g) && leb seen (contents.most (group_number g)) && eqb first end) }
{
    last <= g && seen <= g.most() && first == end
}

// The kind of entry i.
pub fn kind_of(words: &[u32], i: usize) -> u32
    requires { i < 4294967296 }
    ensures { result ≡ contents.kind_of words.now i }
{
    words::word(words, 1 + 3 * i)
}

// The kind of body i, if its number is one.
pub fn body_kind(words: &[u32], i: usize) -> Option<Kind>
    requires { i < 4294967296 }
    ensures { result ≡ kind_by (contents.kind_of words.now i) }
{
    Kind::try_from(kind_of(words, i)).ok()
}

// The first word of body i.
pub fn first_of(words: &[u32], i: usize) -> usize
    requires { i < 4294967296 }
    ensures { (result ≡ contents.first_of words.now i) × (result < 4294967296) }
{
    words::size_at(words, 2 + 3 * i)
}

// How many words body i has.
pub fn length_of(words: &[u32], i: usize) -> usize
    requires { i < 4294967296 }
    ensures { (result ≡ contents.length_of words.now i) × (result < 4294967296) }
{
    words::size_at(words, 3 + 3 * i)
}

// The word past body i.
pub fn end_of(words: &[u32], i: usize) -> usize
    requires { i < 4294967296 }
    ensures { (result ≡ contents.end_of words.now i) × (result < 8589934592) }
{
    first_of(words, i) + length_of(words, i)
}

// How many of the first n entries are of group g.
fn members(words: &[u32], n: usize, g: KindGroup) -> u32
    requires { n ≤ 128 }
    ensures { result ≡ contents.members words.now (group_number g) n }
{
    (0..n)
        .filter(|i| group(kind_of(words, *i)) == Some(g))
        .count() as u32
}

// The contents of a book whose count is at most 128.
pub fn of(words: &[u32]) -> Contents
    requires { contents.count words.now ≤ 128 }
    ensures { ContentsOf words.now result }
{
    let n = words::size_at(words, 0);
    Contents {
        tables: members(words, n, KindGroup::Tables),
        counters: members(words, n, KindGroup::Counters),
        rules: members(words, n, KindGroup::Rules),
        steps: members(words, n, KindGroup::Steps),
    }
}

// Refusal 2.
#[tactic(auto, unfolding(model::specs::Book::Contents::members, model::specs::Book::Contents::count_fits, model::specs::Book::Contents::contents_refusal))]
pub fn check(words: &[u32]) -> Result<(), Refusal>
    requires { (0 < length words.now) × (length words.now ≤ 16384) }
    ensures { refusal_of result ≡ contents.contents_refusal words.now }
{
    let n = words[0] as usize;
    if n == 0 || 128 < n || words.len() < 1 + 3 * n {
        return Err(Refusal::Contents(0));
    }
    let mut counts = [0; 5];
    let mut last = KindGroup::Tables;
    let mut end = 1 + 3 * n;
    for i in 0..n {
        let g = group(kind_of(words, i)).ok_or(Refusal::Contents(i))?;
        let k = g.number();
        counts[k] += 1;
        if !fits(last, g, counts[k], first_of(words, i), end) {
            return Err(Refusal::Contents(i));
        }
        last = g;
        end = end_of(words, i);
    }
    if end == words.len() {
        Ok(())
    } else {
        Err(Refusal::Contents(0))
    }
}
