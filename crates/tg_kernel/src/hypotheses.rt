//! Lists of hypotheses.
ghost use Rattle.std.specs.Prelude.{◌≡◌, ◌∷◌, ◌++◌, [], IfOk, OnOk};
ghost use Rattle.tg_calculus.specs.Sequent.{has, added, ◌∪◌, ◌∖◌};

use crate::comparing::same_formula;
use sqlite_items::Items;
use std::alloc::{AllocError, Global};
use std::marker::Model;
use std::rc::Rc;
use tg_term::Formula;

/// Hypotheses. They share their formulas with those that `share` makes of them. A contract sees the list of
/// them.
#[derive(Debug, Drop)]
pub struct Hypotheses {
    formulas: Rc<Items<Formula>>,
}

impl Model for Hypotheses {
    ghost use Rattle.std.specs.Prelude.{List};
    ghost use Rattle.std.specs.Coded.{coded_list};
    ghost use Rattle.tg_model.specs.Formula as model;
    ghost use Rattle.tg_term.specs.FormulaCode.{coded_formula};

    ghost Value = { List model.Formula };

    ghost coded = { coded_list coded_formula };

    ghost view = { λ h. h.formulas.value };
}

impl Hypotheses {
    /// These hypotheses.
    pub fn new(alloc: Global, formulas: Items<Formula>) -> Result<Hypotheses, AllocError>
        ensures { IfOk result (λ h. h ≡ formulas) }
    {
        Ok(Hypotheses {
            formulas: Rc::new(alloc, formulas)?,
        })
    }

    /// The formulas.
    pub fn formulas(&self) -> &[Formula]
        ensures { result.now ≡ self.now }
    {
        self.formulas.as_ref().as_slice()
    }

    /// The same hypotheses, whose formulas are shared. It takes no memory: the error comes only where the count
    /// of those that share them is full.
    pub fn share(&self) -> Result<Hypotheses, AllocError>
        ensures { IfOk result (λ h. h ≡ self.now) }
    {
        Ok(Hypotheses {
            formulas: self.formulas.clone()?,
        })
    }

    /// No hypothesis.
    pub(crate) fn none(alloc: Global) -> Result<Hypotheses, AllocError>
        ensures { IfOk result (λ h. h ≡ []) }
    {
        Hypotheses::new(alloc, Items::new(alloc))
    }

    /// With the formula as the last, where it isn't there.
    pub(crate) fn added(&self, alloc: Global, f: &Formula) -> Result<Hypotheses, AllocError>
        ensures { IfOk result (λ h. h ≡ added self.now f.now) }
    {
        if has(self.formulas(), f) {
            return self.share();
        }
        let mut formulas = shared_formulas(alloc, self.formulas())?;
        formulas.push(f.share()?)?;
        Hypotheses::new(alloc, formulas)
    }

    /// These, then those of the others that are new. Where the others are none, they are shared.
    pub(crate) fn joined(
        &self,
        alloc: Global,
        others: &Hypotheses,
    ) -> Result<Hypotheses, AllocError>
        ensures { IfOk result (λ h. h ≡ self.now ∪ others.now) }
    {
        if others.formulas().is_empty() {
            return self.share();
        }
        let formulas = joined_formulas(alloc, self.formulas(), others.formulas())?;
        Hypotheses::new(alloc, formulas)
    }

    /// Without the formula. Where it isn't there, they are shared.
    #[tactic(auto, using(crate::proofs::HypothesesLaws::absent))]
    pub(crate) fn without(&self, alloc: Global, f: &Formula) -> Result<Hypotheses, AllocError>
        ensures { IfOk result (λ h. h ≡ self.now ∖ f.now) }
    {
        if !has(self.formulas(), f) {
            return self.share();
        }
        let formulas = left_formulas(alloc, self.formulas(), f)?;
        Hypotheses::new(alloc, formulas)
    }
}

fn has(fs: &[Formula], f: &Formula) -> bool
    ensures { result ≡ has fs.now f.now }
{
    for g in fs {
        if same_formula(g, f) {
            return true;
        }
    }
    false
}

fn shared_formulas(alloc: Global, fs: &[Formula]) -> Result<Items<Formula>, AllocError>
    ensures { IfOk result (λ gs. gs ≡ fs.now) }
{
    let mut out = Items::new(alloc);
    for f in fs {
        out.push(f.share()?)?;
    }
    Ok(out)
}

fn joined_formulas(
    alloc: Global,
    fs: &[Formula],
    gs: &[Formula],
) -> Result<Items<Formula>, AllocError>
    ensures { IfOk result (λ out. out ≡ fs.now ∪ gs.now) }
{
    let mut out = shared_formulas(alloc, fs)?;
    for g in gs {
        add_new(&mut out, g)?;
    }
    Ok(out)
}

fn add_new(out: &mut Items<Formula>, f: &Formula) -> Result<(), AllocError>
    ensures { OnOk result (out.new ≡ added out.old f.now) }
{
    if has(out.as_slice(), f) {
        return Ok(());
    }
    out.push(f.share()?)?;
    Ok(())
}

#[tactic(auto, using(crate::proofs::HypothesesLaws::leaving))]
fn left_formulas(alloc: Global, fs: &[Formula], f: &Formula) -> Result<Items<Formula>, AllocError>
    ensures { IfOk result (λ out. out ≡ fs.now ∖ f.now) }
{
    let mut out = Items::new(alloc);
    for g in fs {
        if !same_formula(g, f) {
            out.push(g.share()?)?;
        }
    }
    Ok(out)
}
