//! The types of terms, found by a table of shared types.
#![tactic(auto)]

ghost use Rattle.tg_typing.specs.KeptTypes.{KeptTypesAreClosed};

mod cases;
mod contexts;
mod framing;
mod opening;
mod operators;
mod resolved;
mod typings;
mod walking;

pub use resolved::{Branch, Head, Resolved};
pub use typings::{Typings, count_typings, count_typings_at};

/// In what is kept of a growing theory no declared type has an open one in it, which is what counting
/// typings asks of it.
pub fn kept_types()
    ensures { KeptTypesAreClosed }
{}
