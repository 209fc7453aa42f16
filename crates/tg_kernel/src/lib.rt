//! The kernel: books, whose lines are instances of the rules of the calculus.
//!
//! A sequent says that its goal follows from its hypotheses, at all values of its variables. A book is a list of
//! lines, each with the sequent that its rule makes of the sequents of earlier lines; a theorem is the number of a
//! line. Whoever holds a book holds derivations: each sequent of it is derivable, and so it is true on every table.
//! There is no other way to make one than the methods of `Book`, one for each rule, and `try_step`.
//!
//! The rules, in the order of the calculus (`tg_calculus`, `specs/Step.antt`):
//!
//!  1. `hyp`: a formula proves itself.
//!  2. `weak`: a further hypothesis does no harm.
//!  3. `cut`: what is proved needn't be assumed.
//!  4. `grow`: a context may have more variables.
//!  5. `and_i`: two goals give their conjunction.
//!  6. `and_l`: a conjunction gives its left side.
//!  7. `and_r`: a conjunction gives its right side.
//!  8. `imp_i`: what follows from a formula makes an implication.
//!  9. `mp`: an implication and its left side give its right side.
//! 10. `all_i`: what holds of a variable of which nothing is assumed holds of all.
//! 11. `all_e`: what holds of all holds of a term.
//! 12. `ex_i`: what holds of a term holds of something.
//! 13. `ex_e`: where something is, a new variable may name it.
//! 14. `thyp_i`: a goal may be marked.
//! 15. `thyp_e`: a mark may go.
//! 16. `truth`: True is true.
//! 17. `absurd`: False gives anything.
//! 18. `split`: what follows from a term and from its negation holds.
//! 19. `refl`: a term equals itself.
//! 20. `sym`: the sides of an equation may change.
//! 21. `trans`: equations make chains.
//! 22. `replace`: equals may stand for equals.
//! 23. `schema`: a term equals what a rewrite row makes of it.
//! 24. `exhaust`: what follows however a variable of a datatype is made holds.
//! 25. `deep`: under so many constructors stands a term of a datatype, so the inputs are deeper.
//! 26. `compute`: a term that computes to True is true.
#![tactic(auto)]

mod assumptions;
mod books;
mod cases;
mod chains;
mod comparing;
mod concluding;
mod connectives;
mod constructors;
mod contexts;
mod data;
mod drafting;
mod drafts;
mod errors;
mod formulas;
mod hypotheses;
mod needs;
mod quantifiers;
mod replacing;
mod rules;
mod sequents;
mod steps;
mod terms;
mod theorems;
mod using;

pub use books::Book;
pub use contexts::Context;
pub use errors::StepErr;
pub use hypotheses::Hypotheses;
pub use rules::{Rule, RuleLine};
pub use sequents::Sequent;
pub use theorems::Thm;
