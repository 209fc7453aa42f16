//! What raw theories, types and terms mean: words are looked up, and nothing else is asked of them.
#![tactic(auto)]

mod binders;
mod datatypes;
mod elaborating;
mod entering;
mod equations;
mod errors;
mod functions;
mod lefts;
mod made;
mod numbers;
mod params;
mod patterns;
mod programs;
mod refusals;
mod resolving;
mod scopes;
mod signatures;
mod sizes;
mod specifications;
mod types;
mod typings;
mod uses;
mod variables;
mod words;

ghost use Rattle.tg_infer.specs.TextNames.{TextsAreNamed};

pub use binders::Binders;
pub use elaborating::elaborate;
pub use errors::TheoryErr;
pub use numbers::Numbers;
pub use params::Params;
pub use resolving::resolve;
pub use scopes::Scope;
pub use sizes::is_larger;
pub use types::type_of_raw;
pub use variables::Variables;
pub use words::{Word, Words};

/// The names in a text are words that aren't reserved, which `elaborate` asks for.
pub fn texts_are_named()
    ensures { TextsAreNamed }
{}
