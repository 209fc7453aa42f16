//! Where a term stands.
ghost use Rattle.std.specs.Prelude.{◌≡◌, option_map};
ghost use Rattle.tg_accept.specs.Faults.{is_taken};
ghost use Rattle.tg_accept.specs.Meaning.{may_bind, head_meant, taken_names};
ghost use Rattle.tg_infer.specs.Binders.{binders};
ghost use Rattle.tg_infer.specs.Scopes.{scope_of, outside};
ghost use Rattle.tg_infer.specs.View.{binder, head};
ghost use Rattle.tg_infer.specs.Words.{AreWordsOf};
ghost use Rattle.tg_typing.specs.View as typing;

use crate::binders::Binders;
use crate::variables::Variables;
use crate::words::Words;
use std::alloc::Global;
use tg_declarations::Declarations;
use tg_grammar::{Binder, RawCon};
use tg_types::Name;
use tg_typing::Head;

/// Where a term stands: in an equation, in the specification or in a certificate.
#[derive(Clone, Copy)]
pub struct Scope<'a> {
    /// For what is made of the term.
    pub alloc: Global,
    /// What is declared before.
    pub declared: &'a Declarations,
    /// The names of what is declared before.
    pub words: &'a Words,
    /// The name of the function that is being declared.
    pub own: Option<&'a Name>,
    /// Whether the function may call itself.
    pub is_recursive: bool,
    /// The free variables.
    pub variables: &'a Variables,
    /// Whether variables are numbers and no words.
    pub in_certificate: bool,
}

impl<'a> Scope<'a> {
    /// Outside of the equations of functions.
    pub fn outside(
        alloc: Global,
        declared: &'a Declarations,
        words: &'a Words,
        variables: &'a Variables,
        in_certificate: bool,
    ) -> Scope<'a>
        ensures is { scope_of result ≡ outside declared.now variables.now in_certificate }
        ensures declared { result.declared.now ≡ declared.now }
        ensures words { result.words.now ≡ words.now }
    {
        Scope {
            alloc,
            declared,
            words,
            own: None,
            is_recursive: false,
            variables,
            in_certificate,
        }
    }

    // Whether the function that is being declared has this name.
    #[tactic(auto, using(crate::proofs::ScopeLaws::scopes))]
    pub(crate) fn is_own(&self, x: &Name) -> bool
        ensures { result ≡ is_taken x.now (scope_of self.now).own }
    {
        match self.own {
            Some(own) => x == own,
            None => false,
        }
    }

    /// Whether no variable may have this name.
    #[tactic(auto, using(crate::proofs::ScopeLaws::scopes))]
    pub(crate) fn is_taken(&self, x: &Name) -> bool
        requires { AreWordsOf self.now.words.now self.now.declared.now }
        ensures { result ≡ is_taken x.now (taken_names (scope_of self.now)) }
    {
        self.words.is_value(x) || self.is_own(x)
    }

    /// Whether a variable may be bound by this binder, inside of the others.
    #[tactic(auto, using(crate::proofs::ScopeLaws::scopes))]
    pub(crate) fn may_bind(&self, outer: &Binders, x: &Binder) -> bool
        requires { AreWordsOf self.now.words.now self.now.declared.now }
        ensures { result ≡ may_bind (scope_of self.now) (binders outer.now) (binder x.now) }
    {
        match x {
            Binder::Named(x) => { !self.in_certificate && !self.is_taken(x) }
            Binder::Level(n) => self.in_certificate && *n == outer.len() as u64 + 1,
        }
    }

    /// What a branch is for.
    #[tactic(auto, using(crate::proofs::ScopeLaws::scopes))]
    pub(crate) fn head(&self, con: &RawCon) -> Option<Head>
        requires { AreWordsOf self.now.words.now self.now.declared.now }
        ensures { option_map typing.head result ≡ head_meant self.now.declared.now (head con.now) }
    {
        match con {
            RawCon::Zero => Some(Head::Zero),
            RawCon::Suc => Some(Head::Successor),
            RawCon::Named(x) => match self.words.constructors.number(x) {
                Some(c) => Some(Head::Con(c)),
                None => None,
            },
        }
    }
}
