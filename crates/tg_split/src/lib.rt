//! Patterns of a theory's inputs: shapes of constructors to a depth, and variables of naturals and truth
//! values. The list of patterns is defined in `specs/`. The functions `coverage` and `typing` have no code, and
//! their contracts are the laws.
#![tactic(auto)]

mod counting;
mod known;
mod listing;
mod numbering;
mod recursion;
mod scopes;
mod sizes;
#[cfg(test)]
mod tests;

ghost use Rattle.tg_split.specs.Laws.{CoversOnce, CoversEachOnce, PatternsAreLinear, PatternsAreTyped, EachPatternIsTyped};

pub use counting::count;
pub use listing::patterns;

/// An input of the program's types matches exactly one pattern of a depth where none of its values is
/// deeper, and no pattern where one is; so too where each input has a depth of its own. Each variable of
/// a pattern stands in it, and other values of the variables give other inputs. (The depth-bounded
/// values of SmallCheck.)
pub fn coverage()
    ensures once { CoversOnce }
    ensures each_once { CoversEachOnce }
    ensures linear { PatternsAreLinear }
{}

/// The terms of a pattern of an accepted theory have the types of the inputs, where its variables have
/// theirs, and on every table the values of the pattern at the values of its variables.
pub fn typing()
    ensures patterns { PatternsAreTyped }
    ensures each { EachPatternIsTyped }
{}
