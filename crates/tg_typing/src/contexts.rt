use sqlite_items::Items;
use std::alloc::Global;
use tg_declarations::{Declarations, FunDef};

/// What all of a term is typed in: what is declared, the function that is being declared with the nodes of
/// its type parameters, and the nodes of the free variables' types.
#[derive(Drop)]
pub(crate) struct Context<'a> {
    pub(crate) alloc: Global,
    pub(crate) declared: &'a Declarations,
    pub(crate) own: Option<&'a FunDef>,
    pub(crate) parameters: Items<usize>,
    pub(crate) vars: Items<usize>,
}
