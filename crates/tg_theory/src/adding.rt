//! What adding a declaration asks, and what it takes back.
ghost use Rattle.std.specs.Prelude.{◌≡◌, ◌++◌, ◌∷◌, [], None, IfErr, OnOk, map};
ghost use Rattle.std.specs.List.{list_any};
ghost use Rattle.tg_model.specs.Accepted.{bodies};
ghost use Rattle.tg_model.specs.Calls.{has_call};
ghost use Rattle.tg_accept.specs.Faults.{first_taken};
ghost use Rattle.tg_declarations.specs.View.{body};
ghost use Rattle.tg_theory.specs.Causes.{IsCause};
ghost use Rattle.tg_theory.specs.Taking.{constructor_names, name_fault, BeginsWith};

use crate::errors::BuildErr;
use crate::names::Names;
use tg_declarations::{Body, ConDef};
use tg_term::{Term, calls_program};

/// Takes the names of constructors, as far as they are free.
#[tactic(auto, using(crate::proofs::Taken::taking))]
pub(crate) fn take_constructors(names: &mut Names, cons: &[ConDef]) -> Result<(), BuildErr>
    ensures free { OnOk result (first_taken names.old (constructor_names cons.now) ≡ None) }
    ensures taken { OnOk result (names.new ≡ names.old ++ constructor_names cons.now) }
    ensures cause { IfErr result (IsCause (name_fault (first_taken names.old (constructor_names cons.now)))) }
    ensures begins { BeginsWith names.old names.new }
{
    for con in cons {
        if !names.take(&con.name)? {
            return Err(BuildErr::Name {
                name: con.name.clone()?,
            });
        }
    }
    Ok(())
}

/// Whether the program is called in what a function means.
pub(crate) fn body_calls_program(of: &Body) -> bool
    ensures { result ≡ list_any has_call (bodies (body of.now)) }
{
    match of {
        Body::Plain(t) => calls_program(t),
        Body::Rec { cases, .. } => some_calls_program(cases.as_slice()),
    }
}

fn some_calls_program(ts: &[Term]) -> bool
    ensures { result ≡ list_any has_call ts.now }
{
    for t in ts {
        if calls_program(t) {
            return true;
        }
    }
    false
}
