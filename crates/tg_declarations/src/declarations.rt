ghost use Rattle.std.specs.Prelude.{◌≡◌, ◌+◌, OnOk, OnErr, IfOk, IfErr, length, map, option_map, option_copied, unwrap_or};
ghost use Rattle.tg_model.specs.Theory.{numbered, constructors_from};
ghost use Rattle.tg_accept.specs.Declared.{nothing, with_datatype, with_function, with_program, with_specification, theory};
ghost use Rattle.tg_declarations.specs.Owners.{at_owner};
ghost use Rattle.tg_declarations.specs.View.{datatype, function, program, owned, constructor_numbers};

use crate::definitions::{ConDef, DataDef, FunDef, ProgDef};
use crate::owners::{Owner, add_places, number_after, numbers_after};
use sqlite_items::Items;
use std::alloc::{AllocError, Global};
use std::marker::Model;
use tg_term::{ConId, FunId, Term};
use tg_types::DataId;

/// Declarations in their order. Datatypes, constructors and functions are numbered from 1, constructors
/// through all datatypes. A contract sees what is declared.
#[derive(Debug, Drop)]
pub struct Declarations {
    alloc: Global,
    datatypes: Vec<Datatype>,
    owners: Vec<Owner>,
    functions: Vec<FunDef>,
    program: Option<ProgDef>,
    specification: Option<Term>,
}

/// A datatype, and the numbers of its constructors.
#[derive(Debug, Drop)]
struct Datatype {
    def: DataDef,
    numbers: Items<ConId>,
}

impl Model for Declarations {
    ghost use Rattle.tg_accept.specs.Declared.{Declared};
    ghost use Rattle.tg_declarations.specs.Code.{coded_declared};

    ghost Value = { Declared };

    ghost coded = { coded_declared };

    ghost use Rattle.tg_declarations.specs.Inside.{declared, AreNumbered};

    ghost view = { declared };

    ghost invariant = { AreNumbered };
}

impl Declarations {
    /// Nothing is declared yet.
    pub fn new(alloc: Global) -> Declarations
        ensures { result ≡ nothing }
    {
        Declarations {
            alloc,
            datatypes: Vec::new(alloc),
            owners: Vec::new(alloc),
            functions: Vec::new(alloc),
            program: None,
            specification: None,
        }
    }

    /// Adds a datatype, and answers its number. Where memory is wanting, and where a number would be above
    /// 2^32 - 1, nothing is added.
    #[tactic(auto, using(crate::proofs::Finding::found))]
    pub fn add_datatype(&mut self, def: DataDef) -> Result<DataId, AllocError>
        ensures added { OnOk result (self.new ≡ with_datatype self.old (datatype def)) }
        ensures number { IfOk result (λ number. number ≡ length self.old.datatypes + 1) }
        ensures unchanged { OnErr result (self.new ≡ self.old) }
    {
        let number = number_after(self.datatypes.len())?;
        let before = self.owners.len();
        let count = def.cons.len();
        let numbers = numbers_after(self.alloc, before, count)?;
        add_places(&mut self.owners, number, count)?;
        if let Err(error) = self.datatypes.push(Datatype { def, numbers }) {
            self.owners.truncate(before);
            return Err(AllocError::from(error));
        }
        Ok(number)
    }

    /// How many datatypes there are.
    pub fn data_count(&self) -> u32
        ensures { result ≡ length self.now.datatypes }
    {
        self.datatypes.len() as u32
    }

    /// How many functions there are.
    pub fn fun_count(&self) -> u32
        ensures { result ≡ length self.now.functions }
    {
        self.functions.len() as u32
    }

    /// The number that the next datatype would have, below 2^32; else want of memory.
    pub fn next_datatype(&self) -> Result<DataId, AllocError>
        ensures { IfOk result (λ number. number ≡ length self.now.datatypes + 1) }
    {
        number_after(self.datatypes.len())
    }

    /// The number that the next function would have, below 2^32; else want of memory.
    pub fn next_function(&self) -> Result<FunId, AllocError>
        ensures { IfOk result (λ number. number ≡ length self.now.functions + 1) }
    {
        number_after(self.functions.len())
    }

    /// Adds a function, and answers its number. Where memory is wanting, and where the number would be above
    /// 2^32 - 1, nothing is added.
    pub fn add_function(&mut self, def: FunDef) -> Result<FunId, AllocError>
        ensures added { OnOk result (self.new ≡ with_function self.old (function def)) }
        ensures number { IfOk result (λ number. number ≡ length self.old.functions + 1) }
        ensures unchanged { OnErr result (self.new ≡ self.old) }
    {
        let number = number_after(self.functions.len())?;
        self.functions.push(def)?;
        Ok(number)
    }

    /// Sets the program under test.
    pub fn set_program(&mut self, def: ProgDef)
        ensures { self.new ≡ with_program self.old (program def) }
    {
        self.program = Some(def);
    }

    /// Sets the specification.
    pub fn set_specification(&mut self, t: Term)
        ensures { self.new ≡ with_specification self.old t }
    {
        self.specification = Some(t);
    }

    /// The datatype of a number.
    pub fn data_def(&self, d: DataId) -> Option<&DataDef>
        ensures { option_map (λ def. datatype def.now) result ≡ numbered self.now.datatypes d }
    {
        Some(&item(self.datatypes.as_slice(), d)?.def)
    }

    /// The numbers of the constructors of a datatype, in their order. There are none of a datatype that isn't
    /// declared.
    #[tactic(auto, using(crate::proofs::Finding::found))]
    pub fn constructors(&self, d: DataId) -> &[ConId]
        ensures { result.now ≡ constructor_numbers self.now.datatypes d }
    {
        match item(self.datatypes.as_slice(), d) {
            Some(entry) => entry.numbers.as_slice(),
            None => &[],
        }
    }

    /// The constructor of a number, and the number of its datatype.
    #[tactic(auto, using(crate::proofs::Finding::found))]
    pub fn con_def(&self, c: ConId) -> Option<(DataId, &ConDef)>
        ensures { option_map (λ found. owned found.0 found.1.now) result ≡ numbered (constructors_from 1 self.now.datatypes) c }
    {
        match item(self.owners.as_slice(), c) {
            Some(owner) => self.con_at(*owner),
            None => None,
        }
    }

    /// The constructor at a place, and the number of its datatype.
    #[tactic(auto, using(crate::proofs::Finding::found))]
    fn con_at(&self, owner: Owner) -> Option<(DataId, &ConDef)>
        ensures { option_map (λ found. owned found.0 found.1.now) result ≡ at_owner self.now.datatypes owner }
    {
        match self.data_def(owner.datatype) {
            Some(def) => match def.cons.get(owner.place) {
                Some(con) => Some((owner.datatype, con)),
                None => None,
            },
            None => None,
        }
    }

    /// The function of a number.
    pub fn fun_def(&self, f: FunId) -> Option<&FunDef>
        ensures { option_map (λ def. function def.now) result ≡ numbered self.now.functions f }
    {
        item(self.functions.as_slice(), f)
    }

    /// The program under test, if it is declared.
    pub fn program(&self) -> Option<&ProgDef>
        ensures { option_map (λ def. program def.now) result ≡ self.now.program }
    {
        self.program.as_ref()
    }

    /// The specification, if there is one.
    pub fn specification(&self) -> Option<&Term>
        ensures { option_copied result ≡ self.now.specification }
    {
        self.specification.as_ref()
    }
}

/// The item of a number, from 1.
fn item<T>(items: &[T], number: u32) -> Option<&T>
    ensures { option_copied result ≡ numbered items.now number }
{
    items.get((number as usize).checked_sub(1)?)
}
