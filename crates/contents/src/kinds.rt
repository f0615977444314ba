// What a body of a book is, what a body of an answer is, and the numbers that stand for each.
ghost use Rattle.std.specs.Prelude.{◌≡◌, ◌<◌};
ghost use Rattle.std.specs.Result.{result_ok};
ghost use Rattle.model.specs.Book.Contents as contents;
ghost use Rattle.contents.specs.BodyKinds as body;
ghost use Rattle.contents.specs.Kinds.{kind_by, group_by, group_number};

// A number that stands for no kind.
#[derive(Clone, Copy)]
pub struct NoKind;

// What a body of a book is.
#[derive(Clone, Copy, PartialEq, Eq)]
pub enum Kind {
    Table,
    Counter,
    Rule,
    Batch,
    Prediction,
}

// The kind of a number, from 1 on.
impl TryFrom<u32> for Kind {
    type Error = NoKind;

    ghost try_from_gives = { λ number r. result_ok r ≡ kind_by number };

    fn try_from(number: u32) -> Result<Kind, NoKind> {
        match number {
            1 => Ok(Kind::Table),
            2 => Ok(Kind::Counter),
            3 => Ok(Kind::Rule),
            4 => Ok(Kind::Batch),
            5 => Ok(Kind::Prediction),
            _ => Err(NoKind),
        }
    }
}

// Entries go by groups of kinds, in this order: batches and predictions, the steps, are one, and each other kind is one of its own.
#[derive(Clone, Copy, PartialEq, Eq, PartialOrd)]
pub enum KindGroup {
    Tables = 1,
    Counters = 2,
    Rules = 3,
    Steps = 4,
}

impl Kind {
    // The group that its entries go by.
    pub fn group(self) -> KindGroup
        ensures { result ≡ group_by self }
    {
        match self {
            Kind::Table => KindGroup::Tables,
            Kind::Counter => KindGroup::Counters,
            Kind::Rule => KindGroup::Rules,
            Kind::Batch | Kind::Prediction => KindGroup::Steps,
        }
    }
}

impl KindGroup {
    // Its number, from 1 on.
    pub(crate) fn number(self) -> usize
        ensures { (result ≡ group_number self) × (result < 5) }
    {
        self as usize
    }

    // How many entries of the group a book may have.
    pub(crate) fn most(self) -> u32
        ensures { result ≡ contents.most (group_number self) }
    {
        match self {
            KindGroup::Tables | KindGroup::Counters => 16,
            KindGroup::Rules => 32,
            KindGroup::Steps => 64,
        }
    }
}

// What a body of an answer is.
#[derive(Clone, Copy, PartialEq, Eq)]
pub enum BodyKind {
    Table,
    Counter,
    Batch,
    Prediction,
    Log,
}

// The number of a kind, which stands in the answer's words.
impl From<BodyKind> for u32 {
    ghost from_gives = { λ kind number. number ≡ body.kind_number kind };

    fn from(kind: BodyKind) -> u32 {
        match kind {
            BodyKind::Table => 1,
            BodyKind::Counter => 2,
            BodyKind::Batch => 6,
            BodyKind::Prediction => 7,
            BodyKind::Log => 8,
        }
    }
}

// The kind of a number.
impl TryFrom<u32> for BodyKind {
    type Error = NoKind;

    ghost try_from_gives = { λ number r. result_ok r ≡ body.kind_by number };

    fn try_from(number: u32) -> Result<BodyKind, NoKind> {
        match number {
            1 => Ok(BodyKind::Table),
            2 => Ok(BodyKind::Counter),
            6 => Ok(BodyKind::Batch),
            7 => Ok(BodyKind::Prediction),
            8 => Ok(BodyKind::Log),
            _ => Err(NoKind),
        }
    }
}
