// Why a book or a call is refused, and where: what every step that may refuse answers as its `Err`.
#![tactic(auto)]

ghost use Rattle.std.specs.Prelude.{◌≡◌};
ghost use Rattle.refusal.specs.Refusal.{told};

// What is at fault, with its place: an entry of the contents, or a word of the book, where there is one.
#[derive(Clone, Copy, Debug, PartialEq, Eq)]
pub enum Refusal {
    // The book has no bytes, too many, or a part of a word.
    Bytes,
    // An entry of the contents, or their count.
    Contents(usize),
    // A body that is not laid out as its kind asks.
    Layout(usize),
    // A word that is the stale mark, where a value stands.
    Stale(usize),
    // A row whose key stands earlier in its table.
    Repeat(usize),
    // A number that names what the book has not.
    Absent(usize),
    // An instruction that reads a variable that is not bound.
    Unbound(usize),
    // An instruction with a list that its table or function does not take.
    Size(usize),
    // An instruction with a column or a current value past its row.
    Column(usize),
    // An instruction that reads its dst while that is held out.
    HeldOut(usize),
    // A step that does not fit its rule or table.
    Unfit(usize),
    // A step at which the log had no room for a record.
    LogFull(usize),
    // A step at which a counter would have passed its limit.
    CounterSpent(usize),
    // The memory lent is not as long as it has to be.
    Lengths,
    // The rows after the commit are more than the words lent for them.
    RowsFull,
    // The answer is longer than the words lent for it.
    AnswerFull,
}

impl Refusal {
    // The number by which C and the programs tell it.
    pub fn number(self) -> u32
        ensures { result ≡ (told self).number }
    {
        match self {
            Refusal::Bytes => 1,
            Refusal::Contents(_) => 2,
            Refusal::Layout(_) => 3,
            Refusal::Stale(_) => 4,
            Refusal::Repeat(_) => 5,
            Refusal::Absent(_) => 6,
            Refusal::Unbound(_) => 7,
            Refusal::Size(_) => 8,
            Refusal::Column(_) => 9,
            Refusal::HeldOut(_) => 10,
            Refusal::Unfit(_) => 11,
            Refusal::LogFull(_) => 12,
            Refusal::CounterSpent(_) => 13,
            Refusal::Lengths => 14,
            Refusal::RowsFull => 15,
            Refusal::AnswerFull => 16,
        }
    }

    // Its place, 0 where it has none.
    pub fn place(self) -> usize
        ensures { result ≡ (told self).place }
    {
        match self {
            Refusal::Contents(place)
            | Refusal::Layout(place)
            | Refusal::Stale(place)
            | Refusal::Repeat(place)
            | Refusal::Absent(place)
            | Refusal::Unbound(place)
            | Refusal::Size(place)
            | Refusal::Column(place)
            | Refusal::HeldOut(place)
            | Refusal::Unfit(place)
            | Refusal::LogFull(place)
            | Refusal::CounterSpent(place) => place,
            Refusal::Bytes | Refusal::Lengths | Refusal::RowsFull | Refusal::AnswerFull => 0,
        }
    }
}
