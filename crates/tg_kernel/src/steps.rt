//! A method for each rule. Its condition is that the line is an instance of the rule on earlier lines.
ghost use Rattle.std.specs.Prelude.{◌≡◌, ◌∷◌, [], IfOk, OnErr};
ghost use Rattle.tg_calculus.specs.Rule as calculus;
ghost use Rattle.tg_kernel.specs.Books.{CanStep, by};
ghost use Rattle.tg_kernel.specs.Entries.{Appends, number, numbers};
ghost use Rattle.tg_model.specs.Tree.{trees};

use crate::books::Book;
use crate::contexts::Context;
use crate::rules::Rule;
use crate::theorems::Thm;
use sqlite_items::Items;
use std::alloc::AllocError;
use tg_schema::SchemaId;
use tg_term::{Formula, Term};

impl<'a> Book<'a> {
    /// A formula of the context proves itself.
    pub fn hyp(&mut self, vars: Context, f: Formula) -> Result<Thm, AllocError>
        requires { CanStep self.old (by (calculus.hyp vars f) []) }
        ensures ok { IfOk result (Appends self.old self.new (by (calculus.hyp vars f) [])) }
        ensures kept { OnErr result (self.new ≡ self.old) }
    {
        self.by_none(Rule::Hyp(vars, f))
    }

    /// A further hypothesis.
    pub fn weak(&mut self, i: Thm, f: Formula) -> Result<Thm, AllocError>
        requires { CanStep self.old (by (calculus.weak f) (number i ∷ [])) }
        ensures ok { IfOk result (Appends self.old self.new (by (calculus.weak f) (number i ∷ []))) }
        ensures kept { OnErr result (self.new ≡ self.old) }
    {
        self.by_one(Rule::Weak(f), i)
    }

    /// The goal of line `j` without the goal of line `i` among its hypotheses.
    pub fn cut(&mut self, i: Thm, j: Thm) -> Result<Thm, AllocError>
        requires { CanStep self.old (by calculus.cut (number i ∷ number j ∷ [])) }
        ensures ok { IfOk result (Appends self.old self.new (by calculus.cut (number i ∷ number j ∷ []))) }
        ensures kept { OnErr result (self.new ≡ self.old) }
    {
        self.by_two(Rule::Cut, i, j)
    }

    /// Further variables of these types.
    pub fn grow(&mut self, i: Thm, vars: Context) -> Result<Thm, AllocError>
        requires { CanStep self.old (by (calculus.grow vars) (number i ∷ [])) }
        ensures ok { IfOk result (Appends self.old self.new (by (calculus.grow vars) (number i ∷ []))) }
        ensures kept { OnErr result (self.new ≡ self.old) }
    {
        self.by_one(Rule::Grow(vars), i)
    }

    /// The conjunction of two goals.
    pub fn and_i(&mut self, i: Thm, j: Thm) -> Result<Thm, AllocError>
        requires { CanStep self.old (by calculus.and_i (number i ∷ number j ∷ [])) }
        ensures ok { IfOk result (Appends self.old self.new (by calculus.and_i (number i ∷ number j ∷ []))) }
        ensures kept { OnErr result (self.new ≡ self.old) }
    {
        self.by_two(Rule::AndI, i, j)
    }

    /// The left side of a conjunction.
    pub fn and_l(&mut self, i: Thm) -> Result<Thm, AllocError>
        requires { CanStep self.old (by calculus.and_l (number i ∷ [])) }
        ensures ok { IfOk result (Appends self.old self.new (by calculus.and_l (number i ∷ []))) }
        ensures kept { OnErr result (self.new ≡ self.old) }
    {
        self.by_one(Rule::AndL, i)
    }

    /// The right side of a conjunction.
    pub fn and_r(&mut self, i: Thm) -> Result<Thm, AllocError>
        requires { CanStep self.old (by calculus.and_r (number i ∷ [])) }
        ensures ok { IfOk result (Appends self.old self.new (by calculus.and_r (number i ∷ []))) }
        ensures kept { OnErr result (self.new ≡ self.old) }
    {
        self.by_one(Rule::AndR, i)
    }

    /// The implication from the formula to the goal, without the formula among the hypotheses.
    pub fn imp_i(&mut self, i: Thm, f: Formula) -> Result<Thm, AllocError>
        requires { CanStep self.old (by (calculus.imp_i f) (number i ∷ [])) }
        ensures ok { IfOk result (Appends self.old self.new (by (calculus.imp_i f) (number i ∷ []))) }
        ensures kept { OnErr result (self.new ≡ self.old) }
    {
        self.by_one(Rule::ImpI(f), i)
    }

    /// The right side of the implication that line `i` has, where line `j` has its left side.
    pub fn mp(&mut self, i: Thm, j: Thm) -> Result<Thm, AllocError>
        requires { CanStep self.old (by calculus.mp (number i ∷ number j ∷ [])) }
        ensures ok { IfOk result (Appends self.old self.new (by calculus.mp (number i ∷ number j ∷ []))) }
        ensures kept { OnErr result (self.new ≡ self.old) }
    {
        self.by_two(Rule::Mp, i, j)
    }

    /// The goal for all values of the last variable.
    pub fn all_i(&mut self, i: Thm) -> Result<Thm, AllocError>
        requires { CanStep self.old (by calculus.all_i (number i ∷ [])) }
        ensures ok { IfOk result (Appends self.old self.new (by calculus.all_i (number i ∷ []))) }
        ensures kept { OnErr result (self.new ≡ self.old) }
    {
        self.by_one(Rule::AllI, i)
    }

    /// What holds of all, at the term.
    pub fn all_e(&mut self, i: Thm, t: Term) -> Result<Thm, AllocError>
        requires { CanStep self.old (by (calculus.all_e t) (number i ∷ [])) }
        ensures ok { IfOk result (Appends self.old self.new (by (calculus.all_e t) (number i ∷ []))) }
        ensures kept { OnErr result (self.new ≡ self.old) }
    {
        self.by_one(Rule::AllE(t), i)
    }

    /// The formula, which says that what holds of the term holds of something.
    pub fn ex_i(&mut self, i: Thm, f: Formula, t: Term) -> Result<Thm, AllocError>
        requires { CanStep self.old (by (calculus.ex_i f t) (number i ∷ [])) }
        ensures ok { IfOk result (Appends self.old self.new (by (calculus.ex_i f t) (number i ∷ []))) }
        ensures kept { OnErr result (self.new ≡ self.old) }
    {
        self.by_one(Rule::ExI(f, t), i)
    }

    /// The goal of line `j`, where the last variable names what line `i` says to be.
    pub fn ex_e(&mut self, i: Thm, j: Thm) -> Result<Thm, AllocError>
        requires { CanStep self.old (by calculus.ex_e (number i ∷ number j ∷ [])) }
        ensures ok { IfOk result (Appends self.old self.new (by calculus.ex_e (number i ∷ number j ∷ []))) }
        ensures kept { OnErr result (self.new ≡ self.old) }
    {
        self.by_two(Rule::ExE, i, j)
    }

    /// The goal, marked.
    pub fn thyp_i(&mut self, i: Thm) -> Result<Thm, AllocError>
        requires { CanStep self.old (by calculus.thyp_i (number i ∷ [])) }
        ensures ok { IfOk result (Appends self.old self.new (by calculus.thyp_i (number i ∷ []))) }
        ensures kept { OnErr result (self.new ≡ self.old) }
    {
        self.by_one(Rule::ThypI, i)
    }

    /// The goal without its mark.
    pub fn thyp_e(&mut self, i: Thm) -> Result<Thm, AllocError>
        requires { CanStep self.old (by calculus.thyp_e (number i ∷ [])) }
        ensures ok { IfOk result (Appends self.old self.new (by calculus.thyp_e (number i ∷ []))) }
        ensures kept { OnErr result (self.new ≡ self.old) }
    {
        self.by_one(Rule::ThypE, i)
    }

    /// True is true.
    pub fn truth(&mut self, vars: Context) -> Result<Thm, AllocError>
        requires { CanStep self.old (by (calculus.truth vars) []) }
        ensures ok { IfOk result (Appends self.old self.new (by (calculus.truth vars) [])) }
        ensures kept { OnErr result (self.new ≡ self.old) }
    {
        self.by_none(Rule::Truth(vars))
    }

    /// The formula, from False.
    pub fn absurd(&mut self, i: Thm, f: Formula) -> Result<Thm, AllocError>
        requires { CanStep self.old (by (calculus.falsity f) (number i ∷ [])) }
        ensures ok { IfOk result (Appends self.old self.new (by (calculus.falsity f) (number i ∷ []))) }
        ensures kept { OnErr result (self.new ≡ self.old) }
    {
        self.by_one(Rule::Absurd(f), i)
    }

    /// The goal, which follows from the term and from its negation.
    pub fn split(&mut self, i: Thm, j: Thm, t: Term) -> Result<Thm, AllocError>
        requires { CanStep self.old (by (calculus.split t) (number i ∷ number j ∷ [])) }
        ensures ok { IfOk result (Appends self.old self.new (by (calculus.split t) (number i ∷ number j ∷ []))) }
        ensures kept { OnErr result (self.new ≡ self.old) }
    {
        self.by_two(Rule::Split(t), i, j)
    }

    /// The term equals itself.
    pub fn refl(&mut self, vars: Context, t: Term) -> Result<Thm, AllocError>
        requires { CanStep self.old (by (calculus.reflexive vars t) []) }
        ensures ok { IfOk result (Appends self.old self.new (by (calculus.reflexive vars t) [])) }
        ensures kept { OnErr result (self.new ≡ self.old) }
    {
        self.by_none(Rule::Refl(vars, t))
    }

    /// The equation with its sides exchanged.
    pub fn sym(&mut self, i: Thm) -> Result<Thm, AllocError>
        requires { CanStep self.old (by calculus.symmetric (number i ∷ [])) }
        ensures ok { IfOk result (Appends self.old self.new (by calculus.symmetric (number i ∷ []))) }
        ensures kept { OnErr result (self.new ≡ self.old) }
    {
        self.by_one(Rule::Sym, i)
    }

    /// The outer sides of two equations.
    pub fn trans(&mut self, i: Thm, j: Thm) -> Result<Thm, AllocError>
        requires { CanStep self.old (by calculus.transitive (number i ∷ number j ∷ [])) }
        ensures ok { IfOk result (Appends self.old self.new (by calculus.transitive (number i ∷ number j ∷ []))) }
        ensures kept { OnErr result (self.new ≡ self.old) }
    {
        self.by_two(Rule::Trans, i, j)
    }

    /// The formula, which is the goal of line `j` with the right side of the equation of line `i` put for its left side at some places.
    pub fn replace(&mut self, i: Thm, j: Thm, f: Formula) -> Result<Thm, AllocError>
        requires { CanStep self.old (by (calculus.replace f) (number i ∷ number j ∷ [])) }
        ensures ok { IfOk result (Appends self.old self.new (by (calculus.replace f) (number i ∷ number j ∷ []))) }
        ensures kept { OnErr result (self.new ≡ self.old) }
    {
        self.by_two(Rule::Replace(f), i, j)
    }

    /// The term equals what the row makes of it.
    pub fn schema(&mut self, vars: Context, name: SchemaId, t: Term) -> Result<Thm, AllocError>
        requires { CanStep self.old (by (calculus.schema vars name t) []) }
        ensures ok { IfOk result (Appends self.old self.new (by (calculus.schema vars name t) [])) }
        ensures kept { OnErr result (self.new ≡ self.old) }
    {
        self.by_none(Rule::Schema(vars, name, t))
    }

    /// The goal of the lines, one for each constructor of the variable's datatype.
    pub fn exhaust(&mut self, n: u32, lines: &[Thm]) -> Result<Thm, AllocError>
        requires { CanStep self.old (by (calculus.exhaust n) (numbers lines.now)) }
        ensures ok { IfOk result (Appends self.old self.new (by (calculus.exhaust n) (numbers lines.now))) }
        ensures kept { OnErr result (self.new ≡ self.old) }
    {
        self.by_all(Rule::Exhaust(u64::from(n)), lines)
    }

    /// Some of the inputs is deeper than the number.
    pub fn deep(&mut self, vars: Context, k: u64, terms: Items<Term>) -> Result<Thm, AllocError>
        requires { CanStep self.old (by (calculus.deep vars k (trees terms)) []) }
        ensures ok { IfOk result (Appends self.old self.new (by (calculus.deep vars k (trees terms)) [])) }
        ensures kept { OnErr result (self.new ≡ self.old) }
    {
        self.by_none(Rule::Deep(vars, k, terms))
    }

    /// The term, which computes to True.
    pub fn compute(&mut self, vars: Context, t: Term) -> Result<Thm, AllocError>
        requires { CanStep self.old (by (calculus.compute vars t) []) }
        ensures ok { IfOk result (Appends self.old self.new (by (calculus.compute vars t) [])) }
        ensures kept { OnErr result (self.new ≡ self.old) }
    {
        self.by_none(Rule::Compute(vars, t))
    }
}
