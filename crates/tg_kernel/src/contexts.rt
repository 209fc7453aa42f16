//! The types of variables.
ghost use Rattle.std.specs.Prelude.{◌≡◌, ◌++◌, ◌-◌, [], IfOk, OnOk, length, map, option_map, take};
ghost use Rattle.tg_calculus.specs.Draft.{same_context, without_last};
ghost use Rattle.tg_types.specs.Types.{ty};

use crate::comparing::same_types;
use sqlite_items::Items;
use std::alloc::{AllocError, Global};
use std::marker::Model;
use std::rc::Rc;
use tg_types::{Ty, copy};

/// The types of the variables, that of `?1` first. A context shares its types with those that `share` makes of
/// it. A contract sees the list of them.
#[derive(Debug, Drop)]
pub struct Context {
    types: Rc<Items<Ty>>,
}

impl Model for Context {
    ghost use Rattle.std.specs.Prelude.{List, map};
    ghost use Rattle.std.specs.Coded.{coded_list};
    ghost use Rattle.tg_model.specs.Types as model;
    ghost use Rattle.tg_types.specs.Types.{ty};
    ghost use Rattle.tg_kernel.specs.Code.{coded_type};

    ghost Value = { List model.Ty };

    ghost coded = { coded_list coded_type };

    ghost view = { λ c. map ty c.types.value };
}

impl Context {
    /// A context of these types.
    pub fn new(alloc: Global, types: Items<Ty>) -> Result<Context, AllocError>
        ensures { IfOk result (λ c. c ≡ map ty types) }
    {
        Ok(Context {
            types: Rc::new(alloc, types)?,
        })
    }

    /// The context of no variable.
    pub(crate) fn empty(alloc: Global) -> Result<Context, AllocError>
        ensures { IfOk result (λ c. c ≡ []) }
    {
        Context::new(alloc, Items::new(alloc))
    }

    /// The types.
    pub fn types(&self) -> &[Ty]
        ensures { map ty result.now ≡ self.now }
    {
        self.types.as_ref().as_slice()
    }

    /// How many variables there are.
    pub fn len(&self) -> usize
        ensures { result ≡ length self.now }
    {
        self.types.as_ref().len()
    }

    /// An equal context, which shares its types with this one. It takes no memory: the error comes only where
    /// the count of the contexts that share them is full.
    pub fn share(&self) -> Result<Context, AllocError>
        ensures { IfOk result (λ c. c ≡ self.now) }
    {
        Ok(Context {
            types: self.types.clone()?,
        })
    }

    /// Whether the two have the same types, in order.
    pub(crate) fn same(&self, other: &Context) -> bool
        ensures { result ≡ same_context self.now other.now }
    {
        same_types(self.types(), other.types())
    }

    /// The context without so many variables at its end.
    #[tactic(auto, using(crate::proofs::ContextLaws::shorter))]
    pub(crate) fn shortened(&self, alloc: Global, by: usize) -> Result<Context, AllocError>
        ensures { IfOk result (λ c. c ≡ take (length self.now - by) self.now) }
    {
        let types = self.types();
        let mut kept = Items::new(alloc);
        add_copies(alloc, &mut kept, &types[..types.len().saturating_sub(by)])?;
        Context::new(alloc, kept)
    }

    /// The context with further variables.
    pub(crate) fn grown(&self, alloc: Global, more: &[Ty]) -> Result<Context, AllocError>
        ensures { IfOk result (λ c. c ≡ self.now ++ map ty more.now) }
    {
        let mut types = Items::new(alloc);
        add_copies(alloc, &mut types, self.types())?;
        add_copies(alloc, &mut types, more)?;
        Context::new(alloc, types)
    }

    /// The context without its last variable, and the type of this one, if there is one.
    pub(crate) fn without_last(&self, alloc: Global) -> Result<Option<(Context, Ty)>, AllocError>
        ensures { IfOk result (λ o. option_map (λ p. (p.0, ty p.1)) o ≡ without_last self.now) }
    {
        match self.types().split_last() {
            None => Ok(None),
            Some((last, before)) => {
                let mut types = Items::new(alloc);
                add_copies(alloc, &mut types, before)?;
                Ok(Some((Context::new(alloc, types)?, copy(alloc, last)?)))
            }
        }
    }
}

fn add_copies(alloc: Global, types: &mut Items<Ty>, more: &[Ty]) -> Result<(), AllocError>
    ensures { OnOk result (types.new ≡ types.old ++ more.now) }
{
    for t in more {
        types.push(copy(alloc, t)?)?;
    }
    Ok(())
}
