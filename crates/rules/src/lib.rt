// The check of a book's rules: refusals 8, 7, 10 and 9 of their instructions; refusal 11 of its steps; and, with the reading, the first of refusals 2 to 11.
#![tactic(auto)]

ghost use Rattle.std.specs.Prelude.{◌≡◌, ◌≤◌, ◌<◌, length};
ghost use Rattle.model.specs.Basics.{◌else◌};
ghost use Rattle.model.specs.Book.Contents.{rule_count};
ghost use Rattle.model.specs.Book.Read as read;
ghost use Rattle.model.specs.Outcome as outcome;
ghost use Rattle.refusal.specs.Refusal.{refusal_of};
ghost use Rattle.model.specs.Laws.Book.{Readable};

mod fit;
mod instructions;
mod lists;

use crate::instructions::BookInstr;
use bound_vars::Bound;
use contents::Book;
use refusal::Refusal;

// The first of these refusals that rule r draws.
pub fn check_rule(book: Book, r: usize) -> Result<(), Refusal>
    requires { r < rule_count book.words.now }
    ensures { refusal_of result ≡ outcome.rule_refusal book.entry.words.now r }
{
    let words = book.words;
    let first = book.rule(r);
    let starts = words::size_at(words, first);
    let n = words::size_at(words, first + 1);
    let mut bound = Bound::first(starts);
    let mut p = first + 2;
    for _ in 0..n {
        let i = BookInstr {
            book,
            instr: instr::instr_at(words, p),
        };
        i.check(p, bound)?;
        bound = i.bind_dst(bound);
        p = instr::next(words, p);
    }
    Ok(())
}

// The first of these refusals that the rules draw.
#[tactic(auto, using(crate::specs::RuleLaws::rules_stop, crate::specs::RuleLaws::rules_end))]
pub fn check_rules(book: Book) -> Result<(), Refusal>
    ensures { refusal_of result ≡ outcome.rules_refusal book.entry.words.now }
{
    for r in 0..book.contents.rule_count() {
        check_rule(book, r)?;
    }
    Ok(())
}

// Refusal 11.
#[tactic(auto, using(model::specs::Laws::Book::few_steps, crate::specs::StepLaws::steps_stop, crate::specs::StepLaws::steps_end))]
pub fn fit_steps(book: Book) -> Result<(), Refusal>
    ensures { refusal_of result ≡ read.steps_refusal book.entry.words.now }
{
    for k in 0..book.contents.step_count() {
        if !fit::step_fits(book, k) {
            return Err(Refusal::Unfit(book.step(k)));
        }
    }
    Ok(())
}

// The first of refusals 8, 7, 10, 9 and 11 of a book that draws none of 2 to 6.
#[tactic(auto, using(crate::specs::RuleLaws::else_stop, crate::specs::RuleLaws::else_on))]
pub fn check_book(words: &[u32]) -> Result<(), Refusal>
    requires { Readable words.now }
    ensures { refusal_of result ≡ (outcome.rules_refusal words.now else λ _. read.steps_refusal words.now) }
{
    let book = Book::of(words);
    check_rules(book)?;
    fit_steps(book)
}

// The first of refusals 2 to 11 of a book's words.
#[tactic(auto, using(crate::specs::RuleLaws::words_stop))]
pub fn first_refusal(words: &[u32]) -> Result<(), Refusal>
    requires { (0 < length words.now) × (length words.now ≤ 16384) }
    ensures { refusal_of result ≡ outcome.words_refusal words.now }
{
    reader::read(words)?;
    check_book(words)
}
