ghost use Rattle.std.specs.Prelude.{◌≡◌, ◌≤◌, IfOk};
ghost use Rattle.tg_term.specs.FormulaMeasures.{formula_nodes, formula_height, formula_range, formula_measures};
ghost use Rattle.tg_term.specs.Formulas.{formula};
ghost use Rattle.tg_term.specs.Measures.{counted, most_height};

use crate::Term;
use crate::measuring::{Measures, formula_measured};
use crate::terms::MAX_HEIGHT;
use sqlite_items::Items;
use std::alloc::{AllocError, Global};
use std::marker::Model;
use std::rc::Rc;
use tg_types::Ty;

/// A formula over terms. It shares its node with the formulas that `share` makes of it. A contract sees
/// it as a formula of the model.
#[cycle(formula)]
#[derive(Debug, Drop)]
pub struct Formula {
    node: Rc<SharedFormula>,
}

/// A node, with what its formula knows of itself.
#[cycle(formula)]
#[derive(Debug, Drop)]
struct SharedFormula {
    measures: Measures,
    node: FormulaNode,
}

/// What stands at the root of a formula, and what is below it. In the formula of a quantifier the loose
/// bound variable 0 is the quantified one.
#[cycle(formula)]
#[derive(Debug, Drop)]
pub enum FormulaNode {
    /// The term, which is of type bool, is true.
    Atom(Term),
    /// Both formulas hold.
    And(Formula, Formula),
    /// The second formula holds if the first does.
    Imp(Formula, Formula),
    /// For all values of a type.
    All(Ty, Formula),
    /// For some value of a type.
    Ex(Ty, Formula),
    /// The mark of a hypothesis. It means the formula that it marks.
    Thyp(Formula),
    /// The inputs stand in the table of those on which the program has been run.
    Tested(Items<Term>),
    /// Some of the inputs has a constructor depth above this number.
    Deep(u64, Items<Term>),
}

impl Model for Formula {
    ghost use Rattle.tg_model.specs.Formula as model;
    ghost use Rattle.tg_term.specs.FormulaCode.{coded_formula};

    ghost Value = { model.Formula };

    ghost coded = { coded_formula };

    ghost use Rattle.tg_term.specs.Formulas.{formula};

    ghost view = { λ a. formula a.node.value.node };

    ghost use Rattle.tg_term.specs.FormulaMeasures.{IsFormulaKnown, formula_height};

    ghost invariant = { λ a. IsFormulaKnown a.node.value.measures (formula a.node.value.node) };

    ghost size = { formula_height };

    ghost use Rattle.tg_term.specs.FormulaFalls.{formula_falls};

    ghost size_decreases = { λ a h. formula_falls a.node.value.node };
}

impl Formula {
    /// The formula with this node. A formula that would be higher than 10,000, its terms counted in,
    /// isn't made, which is answered as want of memory.
    pub fn new(alloc: Global, node: FormulaNode) -> Result<Formula, AllocError>
        ensures is { IfOk result (λ f. f ≡ formula node) }
        ensures bounded { IfOk result (λ f. formula_height f ≤ most_height) }
    {
        let measures = formula_measured(&node);
        if measures.height > MAX_HEIGHT {
            return Err(AllocError);
        }
        Ok(Formula {
            node: Rc::new(alloc, SharedFormula { measures, node })?,
        })
    }

    /// An equal formula, which shares its node with this one. It takes no memory: the error comes only
    /// where the node's count of formulas is full.
    pub fn share(&self) -> Result<Formula, AllocError>
        ensures { IfOk result (λ f. f ≡ self.now) }
    {
        Ok(Formula {
            node: self.node.clone()?,
        })
    }

    /// The node of the formula.
    pub fn node(&self) -> &FormulaNode
        ensures { formula result.now ≡ self.now }
    {
        &self.node.as_ref().node
    }

    /// What the formula knows of itself.
    pub(crate) fn measures(&self) -> Measures
        ensures is { result ≡ formula_measures self.now }
        ensures bounded { result.height ≤ most_height }
    {
        self.node.as_ref().measures
    }

    /// The number of nodes of the formula and of its terms, a count that stops at 2^64 - 1.
    pub fn nodes(&self) -> u64
        ensures { result ≡ counted (formula_nodes self.now) }
    {
        self.node.as_ref().measures.nodes
    }

    /// The most steps from the root of the formula down to a leaf, those in a term counted in.
    pub fn height(&self) -> u64
        ensures is { result ≡ formula_height self.now }
        ensures bounded { result ≤ most_height }
    {
        self.node.as_ref().measures.height
    }

    /// One more than the greatest index of a loose bound variable, or 0 where none is loose.
    pub fn loose_range(&self) -> u64
        ensures { result ≡ formula_range self.now }
    {
        self.node.as_ref().measures.loose_range
    }
}
