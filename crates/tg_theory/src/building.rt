//! A theory that is built, declaration by declaration.
ghost use Rattle.std.specs.Prelude.{◌≡◌, ◌+◌, ◌++◌, ◌∷◌, [], None, IfOk, IfErr, OnOk, OnErr, length, is_none};
ghost use Rattle.tg_accept.specs.Declared.{nothing, theory, with_datatype, with_function, with_program, with_specification};
ghost use Rattle.tg_accept.specs.Faults.{datatype_fault, function_fault, program_fault, specification_fault};
ghost use Rattle.tg_accept.specs.Kept.{names_of_types, names_of_values};
ghost use Rattle.tg_accept.specs.Meant.{IsDatatypeMeant, IsFunctionMeant, IsProgramMeant, IsSpecificationMeant};
ghost use Rattle.tg_declarations.specs.View.{datatype, function, program};
ghost use Rattle.tg_theory.specs.Causes.{IsCause, missing_fault};
ghost use Rattle.tg_theory.specs.Names.{IsName, AreNames, HaveSameNames};
ghost use Rattle.tg_theory.specs.Right.{IsRight};
ghost use Rattle.tg_theory.specs.Taking.{constructor_names, BeginsWith};

use crate::adding::{body_calls_program, take_constructors};
use crate::calls::calls_on_inputs;
use crate::errors::BuildErr;
use crate::names::Names;
use crate::shapes::{is_body_shaped, is_datatype_shaped, is_program_fit};
use crate::theories::Theory;
use std::alloc::Global;
use std::marker::Model;
use tg_declarations::{DataDef, Declarations, FunDef, ProgDef};
use tg_term::{FunId, Term};
use tg_types::{DataId, Name};

/// A theory that is built, declaration by declaration. A contract sees what is declared. All of it was
/// accepted.
#[derive(Drop)]
pub struct Builder {
    declared: Declarations,
    types: Names,
    values: Names,
}

impl Model for Builder {
    ghost use Rattle.tg_accept.specs.Declared.{Declared};
    ghost use Rattle.tg_declarations.specs.Code.{coded_declared};

    ghost Value = { Declared };

    ghost coded = { coded_declared };

    ghost use Rattle.tg_theory.specs.Built.{IsBuilt};

    ghost view = { λ s. s.declared };

    ghost invariant = { λ s. IsBuilt s.types s.values s.declared };
}

impl Builder {
    /// Nothing is declared yet.
    pub fn new(alloc: Global) -> Builder
        ensures { result ≡ nothing }
    {
        Builder {
            declared: Declarations::new(alloc),
            types: Names::new(alloc),
            values: Names::new(alloc),
        }
    }

    /// What is declared.
    pub fn declarations(&self) -> &Declarations
        ensures declared { result.now ≡ self.now }
        ensures right { IsRight self.now }
    {
        &self.declared
    }

    /// Adds a datatype, and answers its number. Its constructors' arguments name it by this number.
    ///
    /// `Name` and `Shape` come exactly where such a rule is broken, the first in this order; then, and at
    /// `Memory`, nothing is added.
    pub fn add_data(&mut self, def: DataDef) -> Result<DataId, BuildErr>
        requires type_name { IsName def.name }
        requires value_names { AreNames (constructor_names def.cons) }
        requires meant { IsDatatypeMeant self.old (datatype def) }
        ensures right { OnOk result (datatype_fault self.old (datatype def) ≡ None) }
        ensures added { OnOk result (self.new ≡ with_datatype self.old (datatype def)) }
        ensures number { IfOk result (λ number. number ≡ length self.old.datatypes + 1) }
        ensures cause { IfErr result (IsCause (datatype_fault self.old (datatype def))) }
        ensures unchanged { OnErr result (self.new ≡ self.old) }
    {
        let types = self.types.len();
        let values = self.values.len();
        let added = add_datatype(&mut self.declared, &mut self.types, &mut self.values, def);
        if added.is_err() {
            self.types.truncate(types);
            self.values.truncate(values);
        }
        added
    }

    /// Adds a function, and answers its number. A primitive recursive function calls itself by this number.
    ///
    /// `Name`, `Shape` and `Program` come exactly where such a rule is broken, the first in this order; then,
    /// and at `Memory`, nothing is added.
    pub fn add_def(&mut self, def: FunDef) -> Result<FunId, BuildErr>
        requires named { IsName def.name }
        requires meant { IsFunctionMeant self.old (function def) }
        ensures right { OnOk result (function_fault self.old (function def) ≡ None) }
        ensures added { OnOk result (self.new ≡ with_function self.old (function def)) }
        ensures number { IfOk result (λ number. number ≡ length self.old.functions + 1) }
        ensures cause { IfErr result (IsCause (function_fault self.old (function def))) }
        ensures unchanged { OnErr result (self.new ≡ self.old) }
    {
        if self.values.contains(&def.name) {
            return Err(BuildErr::Name { name: def.name });
        }
        if !is_body_shaped(&self.declared, &def)? {
            return Err(BuildErr::Shape);
        }
        if body_calls_program(&def.body) {
            return Err(BuildErr::Program);
        }
        let before = self.values.len();
        let _ = self.values.take(&def.name)?;
        match self.declared.add_function(def) {
            Ok(number) => Ok(number),
            Err(error) => {
                self.values.truncate(before);
                Err(BuildErr::from(error))
            }
        }
    }

    /// Sets the program under test.
    ///
    /// `Name` and `Program` come exactly where such a rule is broken, the first in this order; then, and at
    /// `Memory`, nothing is set.
    pub fn set_program(&mut self, def: ProgDef) -> Result<(), BuildErr>
        requires named { IsName def.name }
        requires meant { IsProgramMeant self.old (program def) }
        ensures right { OnOk result (program_fault self.old (program def) ≡ None) }
        ensures added { OnOk result (self.new ≡ with_program self.old (program def)) }
        ensures cause { IfErr result (IsCause (program_fault self.old (program def))) }
        ensures unchanged { OnErr result (self.new ≡ self.old) }
    {
        if self.values.contains(&def.name) {
            return Err(BuildErr::Name { name: def.name });
        }
        if self.declared.program().is_some() || !is_program_fit(&def) {
            return Err(BuildErr::Program);
        }
        let _ = self.values.take(&def.name)?;
        self.declared.set_program(def);
        Ok(())
    }

    /// Sets the specification, a condition on the program's inputs.
    ///
    /// `Program` comes exactly where such a rule is broken; then, and at `Memory`, nothing is set.
    pub fn set_spec(&mut self, t: Term) -> Result<(), BuildErr>
        requires { IsSpecificationMeant (theory [] self.old) self.old.program t }
        ensures right { OnOk result (specification_fault self.old t ≡ None) }
        ensures added { OnOk result (self.new ≡ with_specification self.old t) }
        ensures cause { IfErr result (IsCause (specification_fault self.old t)) }
        ensures unchanged { OnErr result (self.new ≡ self.old) }
    {
        if !self.is_spec_fit(&t) {
            return Err(BuildErr::Program);
        }
        self.declared.set_specification(t);
        Ok(())
    }

    /// The theory of this name that has all that is declared.
    ///
    /// `Program` comes exactly where the program or the specification is missing.
    pub fn finish(self, name: Name) -> Result<Theory, BuildErr>
        requires { IsName name }
        ensures right { OnOk result (missing_fault self ≡ None) }
        ensures whole { IfOk result (λ th. th ≡ theory name self) }
        ensures cause { IfErr result (IsCause (missing_fault self)) }
    {
        if self.declared.program().is_none() || self.declared.specification().is_none() {
            return Err(BuildErr::Program);
        }
        let Builder { declared, .. } = self;
        Ok(Theory { name, declared })
    }

    // Whether a specification may be set, and this one calls the program on its inputs alone.
    fn is_spec_fit(&self, t: &Term) -> bool
        ensures { result ≡ is_none (specification_fault self.now t.now) }
    {
        match self.declared.program() {
            Some(def) => {
                self.declared.specification().is_none() && calls_on_inputs(t, def.inputs.len())
            }
            None => false,
        }
    }
}

/// Adds a datatype to the declarations and its names to those that are taken. After an error the names may be
/// taken.
#[tactic(auto, using(crate::proofs::DatatypeFaults::faults))]
fn add_datatype(
    declared: &mut Declarations,
    types: &mut Names,
    values: &mut Names,
    def: DataDef,
) -> Result<DataId, BuildErr>
    requires types { HaveSameNames types.old (names_of_types declared.old) }
    requires values { HaveSameNames values.old (names_of_values declared.old) }
    ensures right { OnOk result (datatype_fault declared.old (datatype def) ≡ None) }
    ensures added { OnOk result (declared.new ≡ with_datatype declared.old (datatype def)) }
    ensures number { IfOk result (λ number. number ≡ length declared.old.datatypes + 1) }
    ensures type_name { OnOk result (types.new ≡ types.old ++ def.name ∷ []) }
    ensures value_names { OnOk result (values.new ≡ values.old ++ constructor_names def.cons) }
    ensures cause { IfErr result (IsCause (datatype_fault declared.old (datatype def))) }
    ensures unchanged { OnErr result (declared.new ≡ declared.old) }
    ensures types_begin { BeginsWith types.old types.new }
    ensures values_begin { BeginsWith values.old values.new }
{
    let number = declared.next_datatype()?;
    if !types.take(&def.name)? {
        return Err(BuildErr::Name { name: def.name });
    }
    take_constructors(values, def.cons.as_slice())?;
    if !is_datatype_shaped(number, &def) {
        return Err(BuildErr::Shape);
    }
    Ok(declared.add_datatype(def)?)
}
