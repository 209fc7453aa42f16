//! Theories, accepted by construction.
ghost use Rattle.std.specs.Prelude.{◌≡◌, ◌<◌, ◌≤◌, Some, IfOk, IfErr, IsSome, length, option_map};
ghost use Rattle.tg_model.specs.Accepted.{IsAccepted};
ghost use Rattle.tg_model.specs.Theory.{numbered, constructor_at};
ghost use Rattle.tg_accept.specs.Declared.{theory};
ghost use Rattle.tg_accept.specs.Kept.{IsKept};
ghost use Rattle.tg_accept.specs.Standing.{declared_in};
ghost use Rattle.tg_declarations.specs.View.{constructor, datatype, function, program, constructor_numbers};
ghost use Rattle.tg_theory.specs.Wholes.{IsWritten};

use std::marker::Model;
use tg_declarations::{ConDef, DataDef, Declarations, FunDef, ProgDef};
use tg_term::{ConId, FunId, Term};
use tg_types::{DataId, Name};

/// An accepted theory. A contract sees what it declares. It is made by a builder alone, so whoever holds one
/// needs to test nothing of it again.
#[derive(Drop)]
pub struct Theory {
    pub(crate) name: Name,
    pub(crate) declared: Declarations,
}

impl Model for Theory {
    ghost use Rattle.tg_model.specs.Theory as model;
    ghost use Rattle.tg_theory.specs.Code.{coded_theory};

    ghost Value = { model.Theory };

    ghost coded = { coded_theory };

    ghost use Rattle.tg_accept.specs.Declared.{theory};
    ghost use Rattle.tg_theory.specs.Wholes.{IsWhole};

    ghost view = { λ s. theory s.name s.declared };

    ghost invariant = { λ s. IsWhole s.name s.declared };
}

impl Theory {
    /// All that an accepted theory keeps. It does nothing.
    pub fn accepted(&self)
        ensures accepted { IsAccepted self.now }
        ensures written { IsWritten self.now }
    {
        let _ = &self.declared;
    }

    /// What the theory declares. Each declaration was accepted where it was declared, and nothing is missing.
    #[tactic(auto, using(crate::proofs::WholeLaws::wholes))]
    pub fn declarations(&self) -> &Declarations
        ensures named { theory self.now.name result.now ≡ self.now }
        ensures whole { result.now ≡ declared_in self.now }
        ensures kept { IsKept result.now }
    {
        &self.declared
    }

    /// The theory's name.
    pub fn name(&self) -> &Name
        ensures { result.now ≡ self.now.name }
    {
        &self.name
    }

    /// How many datatypes there are. They are numbered from 1.
    pub fn data_count(&self) -> u32
        ensures { result ≡ length self.now.datatypes }
    {
        self.declared.data_count()
    }

    /// How many functions there are. They are numbered from 1.
    pub fn fun_count(&self) -> u32
        ensures { result ≡ length self.now.functions }
    {
        self.declared.fun_count()
    }

    /// The datatype of a number.
    pub fn data_def(&self, d: DataId) -> &DataDef
        requires { IsSome (numbered self.now.datatypes d) }
        ensures { numbered self.now.datatypes d ≡ Some (datatype result.now) }
    {
        self.declared.data_def(d).unwrap()
    }

    /// The numbers of the constructors of a datatype, in their order.
    pub fn constructors(&self, d: DataId) -> &[ConId]
        requires { IsSome (numbered self.now.datatypes d) }
        ensures { result.now ≡ constructor_numbers self.now.datatypes d }
    {
        self.declared.constructors(d)
    }

    /// The constructor of a number.
    pub fn con(&self, c: ConId) -> &ConDef
        requires { IsSome (constructor_at self.now c) }
        ensures { option_map (λ o. o.constructor) (constructor_at self.now c) ≡ Some (constructor result.now) }
    {
        let (_, def) = self.declared.con_def(c).unwrap();
        def
    }

    /// The number of the datatype of a constructor.
    pub fn datatype_of(&self, c: ConId) -> DataId
        requires { IsSome (constructor_at self.now c) }
        ensures { option_map (λ o. o.datatype) (constructor_at self.now c) ≡ Some result }
    {
        let (d, _) = self.declared.con_def(c).unwrap();
        d
    }

    /// The function of a number.
    pub fn fun(&self, f: FunId) -> &FunDef
        requires { IsSome (numbered self.now.functions f) }
        ensures { numbered self.now.functions f ≡ Some (function result.now) }
    {
        self.declared.fun_def(f).unwrap()
    }

    /// The program under test.
    pub fn program(&self) -> &ProgDef
        ensures { program result.now ≡ self.now.program }
    {
        self.declared.program().unwrap()
    }

    /// The specification.
    pub fn specification(&self) -> &Term
        ensures { result.now ≡ self.now.specification }
    {
        self.declared.specification().unwrap()
    }
}
