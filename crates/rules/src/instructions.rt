// The check of one instruction, and what it binds.
ghost use Rattle.std.specs.Prelude.{◌≡◌, None, eqb};
ghost use Rattle.model.specs.Basics.{all};
ghost use Rattle.model.specs.Book.Read.{tables};
ghost use Rattle.model.specs.Check as check;
ghost use Rattle.model.specs.Machine.Functions as functions;
ghost use Rattle.instr.specs.Meaning.{instr_of};
ghost use Rattle.refusal.specs.Refusal.{refusal_of};
ghost use Rattle.rules.specs.Rules.{placed_at};
ghost use Rattle.bound_vars.specs.Bound.{has, binding};
ghost use Rattle.instr.specs.Stands.{Stands, binds_of};
ghost use Rattle.rules.specs.StandsOnce.{stands_once};

use crate::lists;
use bound_vars::Bound;
use contents::Book;
use ids::ExternalFunctionId;
use instr::{Entries, Instr};
use refusal::Refusal;

// A list of arguments is as long as the function asks.
fn takes(func: ExternalFunctionId, args: Entries) -> bool
    ensures { result ≡ eqb args.count (functions.arity func.0) }
{
    args.count == functions::arity(func)
}

// An instruction of a book that can be read, with the book.
#[derive(Clone, Copy)]
pub struct BookInstr<'a> {
    pub book: Book<'a>,
    pub instr: Instr,
    ghost stands: { Stands book.words.now instr } by { stands_once book.words.now instr },
}

impl BookInstr<'_> {
    // Refusal 8 is not drawn: its lists are as long as its table and functions ask.
    #[tactic(auto, using(model::specs::Laws::Book::table_keys, model::specs::Laws::Book::table_width, crate::specs::TestLaws::count_entries, crate::specs::TestLaws::count_writes), unfolding(instr::specs::Meaning::instr_of, model::specs::Check::sizes_of))]
    fn sizes_fit(self) -> bool
        ensures { result ≡ all check.fits?
            (check.sizes_of (tables self.entry.book.words.now) functions.arity
            (instr_of self.entry.book.words.now self.entry.instr)) }
    {
        let words = self.book.words;
        match self.instr {
            Instr::LookupOrInsertDefault {
                table,
                args,
                default,
                ..
            } => {
                let info = tables::info_of(words, table);
                args.count == info.keys && args.count + default.count == info.width
            }
            Instr::LookupWithDefault { table, args, .. }
            | Instr::Lookup { table, args, .. }
            | Instr::Remove { table, args } => args.count == tables::info_of(words, table).keys,
            Instr::LookupWithFallback {
                table,
                table_key,
                func,
                func_args,
                ..
            } => { table_key.count == tables::info_of(words, table).keys && takes(func, func_args) }
            Instr::Insert { table, vals } | Instr::InsertIfEq { table, vals, .. } => vals.count
                == tables::info_of(words, table).width,
            Instr::External { func, args, .. } => takes(func, args),
            Instr::ExternalWithFallback {
                f1,
                args1,
                f2,
                args2,
                ..
            } => takes(f1, args1) && takes(f2, args2),
            Instr::AssertAnyNe { ops, divider } => divider <= ops.count,
            Instr::AssertEq(..) | Instr::AssertNe(..) | Instr::ReadCounter { .. } => true,
        }
    }

    // Refusal 7 is not drawn: every variable that it reads is bound.
    #[tactic(auto, using(crate::specs::TestLaws::all_append, crate::specs::TestLaws::writes_as_entries), unfolding(instr::specs::Meaning::instr_of, model::specs::Check::reads_of))]
    fn reads_known(self, bound: Bound) -> bool
        ensures { result ≡ all (check.known? (has bound)) (check.reads_of (instr_of self.entry.book.words.now self.entry.instr)) }
    {
        let words = self.book.words;
        match self.instr {
            Instr::LookupOrInsertDefault { args, default, .. } => {
                lists::all_known(words, args, bound) && lists::all_known(words, default, bound)
            }
            Instr::LookupWithDefault { args, default, .. } => {
                lists::known(default, bound) && lists::all_known(words, args, bound)
            }
            Instr::LookupWithFallback {
                table_key,
                func_args,
                ..
            } => {
                lists::all_known(words, table_key, bound)
                    && lists::all_known(words, func_args, bound)
            }
            Instr::InsertIfEq { l, r, vals, .. } => lists::known(l, bound)
                && lists::known(r, bound)
                && lists::all_known(words, vals, bound),
            Instr::ExternalWithFallback { args1, args2, .. } => {
                lists::all_known(words, args1, bound) && lists::all_known(words, args2, bound)
            }
            Instr::AssertEq(l, r) | Instr::AssertNe(l, r) => {
                lists::known(l, bound) && lists::known(r, bound)
            }
            Instr::Lookup { args: list, .. }
            | Instr::Insert { vals: list, .. }
            | Instr::Remove { args: list, .. }
            | Instr::External { args: list, .. }
            | Instr::AssertAnyNe { ops: list, .. } => lists::all_known(words, list, bound),
            Instr::ReadCounter { .. } => true,
        }
    }

    // Refusal 10 is not drawn: what it reads while its dst is held out is not the dst.
    #[tactic(auto, using(crate::specs::TestLaws::all_append, crate::specs::TestLaws::against_all, crate::specs::TestLaws::writes_as_entries), unfolding(instr::specs::Meaning::instr_of, model::specs::Check::held_of))]
    fn held_free(self) -> bool
        ensures { result ≡ all check.free? (check.held_of (instr_of self.entry.book.words.now self.entry.instr)) }
    {
        let words = self.book.words;
        match self.instr {
            Instr::LookupOrInsertDefault {
                args,
                default,
                dst_var,
                ..
            } => {
                lists::all_free(words, args, dst_var) && lists::all_free(words, default, dst_var)
            }
            Instr::LookupWithFallback {
                func_args: list,
                dst_var: dst,
                ..
            }
            | Instr::ExternalWithFallback {
                args2: list,
                dst,
                ..
            } => lists::all_free(words, list, dst),
            Instr::LookupWithDefault { .. }
            | Instr::Lookup { .. }
            | Instr::Insert { .. }
            | Instr::InsertIfEq { .. }
            | Instr::Remove { .. }
            | Instr::External { .. }
            | Instr::AssertEq(..)
            | Instr::AssertNe(..)
            | Instr::AssertAnyNe { .. }
            | Instr::ReadCounter { .. } => true,
        }
    }

    // Refusal 9 is not drawn: its column and its current values lie in the row.
    #[tactic(auto, using(crate::specs::TestLaws::few_keys, model::specs::Laws::Book::table_keys, model::specs::Laws::Book::table_width), unfolding(instr::specs::Meaning::instr_of, model::specs::Check::columns_of))]
    fn columns_fit(self) -> bool
        ensures { result ≡ all check.below?
            (check.columns_of (tables self.entry.book.words.now) functions.arity
            (instr_of self.entry.book.words.now self.entry.instr)) }
    {
        let words = self.book.words;
        match self.instr {
            Instr::LookupOrInsertDefault {
                table,
                default,
                dst_col,
                ..
            } => {
                let info = tables::info_of(words, table);
                usize::from(dst_col) < info.width && lists::currents_fit(words, default, info.keys)
            }
            Instr::LookupWithDefault { table, dst_col, .. }
            | Instr::Lookup { table, dst_col, .. }
            | Instr::LookupWithFallback { table, dst_col, .. } => {
                usize::from(dst_col) < tables::info_of(words, table).width
            }
            Instr::Insert { .. }
            | Instr::InsertIfEq { .. }
            | Instr::Remove { .. }
            | Instr::External { .. }
            | Instr::ExternalWithFallback { .. }
            | Instr::AssertEq(..)
            | Instr::AssertNe(..)
            | Instr::AssertAnyNe { .. }
            | Instr::ReadCounter { .. } => true,
        }
    }

    // What it draws, where its opcode stands at p: the first of 8, 7, 10 and 9 whose test fails.
    #[tactic(auto, unfolding(model::specs::Check::check_instr))]
    pub fn check(self, p: usize, bound: Bound) -> Result<(), Refusal>
        ensures { refusal_of result ≡ placed_at p
            (check.check_instr (tables self.entry.book.words.now) functions.arity (has bound)
            (instr_of self.entry.book.words.now self.entry.instr)) }
    {
        if !self.sizes_fit() {
            return Err(Refusal::Size(p));
        }
        if !self.reads_known(bound) {
            return Err(Refusal::Unbound(p));
        }
        if !self.held_free() {
            return Err(Refusal::HeldOut(p));
        }
        if !self.columns_fit() {
            return Err(Refusal::Column(p));
        }
        Ok(())
    }

    // What is bound past it.
    #[tactic(auto, using(instr::specs::StandsLaws::binds_variable))]
    pub fn bind_dst(self, bound: Bound) -> Bound
        ensures { result ≡ binding (binds_of self.entry.instr) bound }
    {
        bound.bind_dst(self.instr.dst())
    }
}
