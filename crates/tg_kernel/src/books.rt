//! Books.
ghost use Rattle.std.specs.Prelude.{◌≡◌, ◌≤◌, ◌∷◌, ◌++◌, [], IfOk, IfErr, OnOk, OnErr, Some, length};
ghost use Rattle.tg_calculus.specs.Derivation.{Derives};
ghost use Rattle.tg_kernel.specs.Books.{IsTrueEverywhere, CanStep, by};
ghost use Rattle.tg_kernel.specs.Entries.{Appends, Refuses, IsThere, line_of, number, numbers, sequent_of};
ghost use Rattle.tg_kernel.specs.Rules.{as_line, as_rule};
ghost use Rattle.tg_kernel.specs.Sequents.{sequent};
ghost use Rattle.tg_model.specs.Theory.{numbered};

use crate::concluding::{Entry, conclude, numbered_entry};
use crate::errors::StepErr;
use crate::rules::{Rule, RuleLine};
use crate::sequents::Sequent;
use crate::theorems::Thm;
use sqlite_items::Items;
use std::alloc::{AllocError, Global};
use std::marker::Model;
use tg_theory::Theory;

/// Lines, each an instance of its rule on earlier ones, with their sequents. A contract sees the theory and the
/// lines.
#[derive(Drop)]
pub struct Book<'a> {
    alloc: Global,
    theory: &'a Theory,
    entries: Vec<Entry>,
}

impl<'a> Model for Book<'a> {
    ghost use Rattle.std.specs.Prelude.{map};
    ghost use Rattle.tg_kernel.specs.Books as model;
    ghost use Rattle.tg_kernel.specs.BookCode.{coded_book};

    ghost Value = { model.Book };

    ghost coded = { coded_book };

    ghost use Rattle.tg_kernel.specs.Entries.{book_of};
    ghost use Rattle.tg_calculus.specs.Book.{IsBook};

    ghost view = { λ b. book_of b.theory.now b.entries.items };

    ghost invariant = { λ b. IsBook b.theory.now (book_of b.theory.now b.entries.items).entries };
}

impl<'a> Book<'a> {
    /// A book without a line.
    pub fn new(alloc: Global, theory: &'a Theory) -> Book<'a>
        ensures theory { result.theory ≡ theory.now }
        ensures lines { result.entries ≡ [] }
    {
        Book {
            alloc,
            theory,
            entries: Vec::new(alloc),
        }
    }

    /// The theory.
    pub fn theory(&self) -> &Theory
        ensures { result.now ≡ self.now.theory }
    {
        self.theory
    }

    /// How many lines there are.
    #[tactic(auto, using(crate::proofs::BookLaws::counting))]
    pub fn len(&self) -> u64
        ensures { result ≡ length self.now.entries }
    {
        self.entries.len() as u64
    }

    /// The sequent of a line. It is derivable, and so it is true on every table.
    pub fn sequent(&self, t: Thm) -> &Sequent
        requires { IsThere self.now t }
        ensures value { sequent_of self.now t ≡ Some (sequent result.now) }
        ensures derivable { Derives self.now.theory (sequent result.now) }
        ensures truth { IsTrueEverywhere self.now.theory (sequent result.now) }
    {
        self.theory.accepted();
        &entry_at(self.entries.as_slice(), t.0).sequent
    }

    /// What a line says.
    pub fn line(&self, t: Thm) -> &RuleLine
        requires { IsThere self.now t }
        ensures { line_of self.now t ≡ Some (as_line result.now) }
    {
        &entry_at(self.entries.as_slice(), t.0).line
    }

    /// Appends the line where it is an instance of its rule on earlier lines. `Bad` comes exactly where it is
    /// none. After an error the book is as before.
    pub fn try_step(&mut self, line: RuleLine) -> Result<Thm, StepErr>
        ensures ok { IfOk result (Appends self.old self.new (as_line line)) }
        ensures err { IfErr result (Refuses self.old (as_line line)) }
        ensures kept { OnErr result (self.new ≡ self.old) }
    {
        match conclude(self.alloc, self.theory, self.entries.as_slice(), &line)? {
            Some(sequent) => {
                append(&mut self.entries, Entry { line, sequent })?;
                Ok(Thm(self.entries.len() as u64))
            }
            None => Err(StepErr::Bad {
                rule: line.rule.number(),
            }),
        }
    }

    /// Appends the line of a rule without premises.
    pub(crate) fn by_none(&mut self, rule: Rule) -> Result<Thm, AllocError>
        requires { CanStep self.old (by (as_rule rule) []) }
        ensures ok { IfOk result (Appends self.old self.new (by (as_rule rule) [])) }
        ensures kept { OnErr result (self.new ≡ self.old) }
    {
        let premises = Items::new(self.alloc);
        self.step(RuleLine { rule, premises })
    }

    /// Appends the line of a rule with one premise.
    pub(crate) fn by_one(&mut self, rule: Rule, i: Thm) -> Result<Thm, AllocError>
        requires { CanStep self.old (by (as_rule rule) (number i ∷ [])) }
        ensures ok { IfOk result (Appends self.old self.new (by (as_rule rule) (number i ∷ []))) }
        ensures kept { OnErr result (self.new ≡ self.old) }
    {
        let mut premises = Items::new(self.alloc);
        premises.push(i.0)?;
        self.step(RuleLine { rule, premises })
    }

    /// Appends the line of a rule with two premises.
    pub(crate) fn by_two(&mut self, rule: Rule, i: Thm, j: Thm) -> Result<Thm, AllocError>
        requires { CanStep self.old (by (as_rule rule) (number i ∷ number j ∷ [])) }
        ensures ok { IfOk result (Appends self.old self.new (by (as_rule rule) (number i ∷ number j ∷ []))) }
        ensures kept { OnErr result (self.new ≡ self.old) }
    {
        let mut premises = Items::new(self.alloc);
        premises.push(i.0)?;
        premises.push(j.0)?;
        self.step(RuleLine { rule, premises })
    }

    /// Appends the line of a rule with any premises.
    pub(crate) fn by_all(&mut self, rule: Rule, lines: &[Thm]) -> Result<Thm, AllocError>
        requires { CanStep self.old (by (as_rule rule) (numbers lines.now)) }
        ensures ok { IfOk result (Appends self.old self.new (by (as_rule rule) (numbers lines.now))) }
        ensures kept { OnErr result (self.new ≡ self.old) }
    {
        let premises = line_numbers(self.alloc, lines)?;
        self.step(RuleLine { rule, premises })
    }

    /// Appends the line, which is an instance of its rule.
    #[tactic(auto, using(crate::proofs::BookLaws::stepping))]
    fn step(&mut self, line: RuleLine) -> Result<Thm, AllocError>
        requires { CanStep self.old (as_line line) }
        ensures ok { IfOk result (Appends self.old self.new (as_line line)) }
        ensures kept { OnErr result (self.new ≡ self.old) }
    {
        match self.try_step(line) {
            Ok(t) => Ok(t),
            Err(StepErr::Memory) => Err(AllocError),
            Err(StepErr::Bad { .. }) => unreachable!(),
        }
    }
}

fn line_numbers(alloc: Global, lines: &[Thm]) -> Result<Items<u64>, AllocError>
    ensures { IfOk result (λ ns. ns ≡ numbers lines.now) }
{
    let mut premises = Items::new(alloc);
    for t in lines {
        premises.push(t.0)?;
    }
    Ok(premises)
}

#[tactic(auto, using(crate::proofs::BookLaws::standing))]
fn entry_at(entries: &[Entry], number: u64) -> &Entry
    requires low { 1 ≤ number }
    requires high { number ≤ length entries.now }
    ensures { numbered entries.now number ≡ Some result.now }
{
    numbered_entry(entries, number).unwrap()
}

fn append(entries: &mut Vec<Entry>, entry: Entry) -> Result<(), AllocError>
    ensures ok { OnOk result (entries.new.items ≡ entries.old.items ++ entry ∷ []) }
    ensures kept { OnErr result (entries.new.items ≡ entries.old.items) }
{
    entries.push(entry)?;
    Ok(())
}
