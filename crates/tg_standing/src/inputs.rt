//! Terms for the inputs of the program.
ghost use Rattle.std.specs.Prelude.{◌≡◌, IfOk, map, option_map};
ghost use Rattle.tg_accept.specs.Standing.{AreTermsAt};
ghost use Rattle.tg_infer.specs.View.{raw_terms};
ghost use Rattle.tg_model.specs.Tree.{trees};
ghost use Rattle.tg_shared_types.specs.Growth.{AreDeclared};
ghost use Rattle.tg_types.specs.Types.{ty, types};
ghost use Rattle.tg_standing.specs.Places.{IsPlace};
ghost use Rattle.tg_standing.specs.Quantified.{IsUnder, Stands, types_under};

use crate::places::Place;
use crate::quantified::Under;
use sqlite_items::Items;
use std::alloc::AllocError;
use tg_grammar::RawTerm;
use tg_term::Term;
use tg_types::Ty;

impl<'a> Place<'a> {
    /// The terms for the program's inputs that texts stand for.
    #[tactic(auto, using(crate::proofs::InputLaws::inputs))]
    pub(crate) fn inputs(
        &self,
        under: &mut Under,
        ts: &[RawTerm],
    ) -> Result<Option<Items<Term>>, AllocError>
        requires place { IsPlace self.now }
        requires under { IsUnder under.old }
        ensures { IfOk result (λ found. Stands under.old under.new
            (AreTermsAt self.now.th.now (map ty self.now.vars.now) (types_under under.old) self.now.th.now.program.inputs (raw_terms ts.now)) (option_map trees found)) }
    {
        let xs = self.terms_at(under, ts, self.th.program().inputs.as_slice())?;
        Ok(xs)
    }

    /// The terms of these types that texts stand for.
    #[tactic(auto, using(crate::proofs::InputLaws::lists))]
    fn terms_at(
        &self,
        under: &mut Under,
        ts: &[RawTerm],
        at: &[Ty],
    ) -> Result<Option<Items<Term>>, AllocError>
        requires place { IsPlace self.now }
        requires under { IsUnder under.old }
        requires at { AreDeclared (types at.now) }
        ensures { IfOk result (λ found. Stands under.old under.new
            (AreTermsAt self.now.th.now (map ty self.now.vars.now) (types_under under.old) (map ty at.now) (raw_terms ts.now)) (option_map trees found)) }
    {
        let mut all = Items::new(self.scope.alloc);
        if ts.len() != at.len() {
            return Ok(None);
        }
        for (i, t) in ts.iter().enumerate() {
            match self.term_at(under, t, &at[i])? {
                Some(x) => all.push(x)?,
                None => return Ok(None),
            }
        }
        Ok(Some(all))
    }
}
