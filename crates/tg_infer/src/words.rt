//! What the names are declared as.
ghost use Rattle.std.specs.Prelude.{◌≡◌, false, OnOk, IfOk, map, option_map};
ghost use Rattle.tg_accept.specs.Declared.{nothing};
ghost use Rattle.tg_accept.specs.Datatypes.{names_in};
ghost use Rattle.tg_accept.specs.Faults.{is_taken};
ghost use Rattle.tg_infer.specs.View.{raw_constructor};
ghost use Rattle.tg_infer.specs.Words.{HaveType, Takes, HaveFunction, HaveProgram, AreWordsOf, word, word_in, values_in, program_names};

use crate::numbers::Numbers;
use std::alloc::{AllocError, Global};
use tg_grammar::RawConDef;
use tg_term::{ConId, FunId};
use tg_types::Name;

/// What a word is declared as.
#[derive(Clone, Copy, Debug)]
pub enum Word {
    /// A constructor.
    Con(ConId),
    /// A function.
    Fun(FunId),
    /// The program under test.
    Program,
}

/// The names that are declared, found by hash.
#[derive(Drop)]
pub struct Words {
    /// Those of datatypes.
    pub types: Numbers,
    /// Those of constructors, through all datatypes.
    pub constructors: Numbers,
    /// Those of functions.
    pub functions: Numbers,
    /// That of the program.
    pub program: Option<Name>,
}

impl Words {
    /// Nothing is declared yet.
    pub fn new(alloc: Global) -> Words
        ensures { AreWordsOf result nothing }
    {
        Words {
            types: Numbers::new(alloc),
            constructors: Numbers::new(alloc),
            functions: Numbers::new(alloc),
            program: None,
        }
    }

    /// What a word is declared as, but for a datatype.
    #[tactic(auto, using(crate::proofs::WordLaws::naming))]
    pub fn word(&self, x: &Name) -> Option<Word>
        ensures { option_map word result ≡ word_in self.now x.now }
    {
        if let Some(c) = self.constructors.number(x) {
            return Some(Word::Con(c));
        }
        if let Some(f) = self.functions.number(x) {
            return Some(Word::Fun(f));
        }
        if self.is_program(x) {
            return Some(Word::Program);
        }
        None
    }

    /// Whether a constructor, a function or the program has this name.
    #[tactic(auto, using(crate::proofs::WordLaws::naming))]
    pub fn is_value(&self, x: &Name) -> bool
        ensures { result ≡ is_taken x.now (values_in self.now) }
    {
        self.constructors.contains(x) || self.functions.contains(x) || self.is_program(x)
    }

    /// Adds the name of a datatype.
    pub fn add_type(&mut self, x: &Name) -> Result<(), AllocError>
        requires { is_taken x.now self.old.types ≡ false }
        ensures { OnOk result (HaveType self.old self.new x.now) }
    {
        let _ = self.types.add(x)?;
        Ok(())
    }

    /// Adds the names of constructors, and answers whether none of them was declared or stands twice. Some of
    /// them may be added where that isn't so, and after an error.
    #[tactic(auto, using(crate::proofs::WordLaws::taking))]
    pub fn add_constructors(&mut self, cons: &[RawConDef]) -> Result<bool, AllocError>
        ensures { IfOk result (λ free. Takes self.old self.new (names_in (map raw_constructor cons.now)) free) }
    {
        for con in cons {
            if self.is_value(&con.name) || !self.constructors.add(&con.name)? {
                return Ok(false);
            }
        }
        Ok(true)
    }

    /// Adds the name of a function.
    pub fn add_function(&mut self, x: &Name) -> Result<(), AllocError>
        requires { is_taken x.now self.old.functions ≡ false }
        ensures { OnOk result (HaveFunction self.old self.new x.now) }
    {
        let _ = self.functions.add(x)?;
        Ok(())
    }

    /// Sets the name of the program.
    pub fn set_program(&mut self, x: Name)
        ensures { HaveProgram self.old self.new x }
    {
        self.program = Some(x);
    }

    #[tactic(auto, using(crate::proofs::WordLaws::naming))]
    fn is_program(&self, x: &Name) -> bool
        ensures { result ≡ is_taken x.now (program_names self.now.program) }
    {
        match &self.program {
            Some(name) => x == name,
            None => false,
        }
    }
}
