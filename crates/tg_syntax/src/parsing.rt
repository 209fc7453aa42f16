ghost use Rattle.std.specs.Prelude.{◌≡◌, All};
ghost use Rattle.tg_lex.specs.Grammar.{IsTokenOf};
ghost use Rattle.tg_grammar.specs.Parts.{Theory, Judge, Check};
ghost use Rattle.tg_syntax.specs.Parsing.{Parses, TellsTexts, finished, fault_before};

use crate::declarations::theory;
use crate::entries::{theory_and_certificate, theory_and_outcomes};
use std::alloc::{AllocError, Global};
use tg_grammar::{RawCert, RawOutcomes, RawTheory, Vocabulary, place};
use tg_lex::{Token, is_nested};
use tg_reading::{Reader, Stop};

/// Why the tokens of a text aren't read.
#[derive(Clone, Copy, Debug)]
pub enum FormErr {
    /// The load of nesting is above `tg_lex::LOAD_LIMIT` at one of the tokens.
    Nested,
    /// The tokens are no text.
    Form {
        /// How many of the words `datatype`, `primrec`, `definition`, `program`, `spec`, `outcomes` and
        /// `certificate` stand before the first token that no text can have at its place, or among all
        /// tokens where only their end is wrong.
        decl: u64,
    },
    /// Memory ran out.
    Memory,
}

impl From<AllocError> for FormErr {
    ghost use Rattle.tg_syntax.specs.declared.parsing.FormErr.TheVariants as errors;

    ghost from_gives = { λ _ e. e ≡ errors.Memory };

    fn from(_error: AllocError) -> FormErr {
        FormErr::Memory
    }
}

/// Reads a theory. The answer comes after time linear in the text.
pub fn parse_theory(alloc: Global, bytes: &[u8], tokens: &[Token]) -> Result<RawTheory, FormErr>
    requires { All (IsTokenOf bytes.now) tokens.now }
    // The text that the tokens are, or why they are none: `Nested` exactly where the load passes its limit,
    // else `Form` exactly where there is a fault, with the place of it.
    ensures reading { Parses Theory bytes.now tokens.now result }
    // A text is read, unless memory runs out.
    ensures only { TellsTexts Theory bytes.now tokens.now result }
{
    if is_nested(alloc, bytes, tokens)? {
        return Err(FormErr::Nested);
    }
    let mut reader = Reader::new(Vocabulary::version_one(), bytes, tokens);
    let read = theory(alloc, &mut reader);
    finish(bytes, tokens, read, reader.len())
}

/// Reads a theory and the outcomes of its tests. The answer comes after time linear in the text.
pub fn parse_judge(
    alloc: Global,
    bytes: &[u8],
    tokens: &[Token],
) -> Result<(RawTheory, RawOutcomes), FormErr>
    requires { All (IsTokenOf bytes.now) tokens.now }
    // The text that the tokens are, or why they are none: `Nested` exactly where the load passes its limit,
    // else `Form` exactly where there is a fault, with the place of it.
    ensures reading { Parses Judge bytes.now tokens.now result }
    // A text is read, unless memory runs out.
    ensures only { TellsTexts Judge bytes.now tokens.now result }
{
    if is_nested(alloc, bytes, tokens)? {
        return Err(FormErr::Nested);
    }
    let mut reader = Reader::new(Vocabulary::version_one(), bytes, tokens);
    let read = theory_and_outcomes(alloc, &mut reader);
    finish(bytes, tokens, read, reader.len())
}

/// Reads a theory and a certificate. The answer comes after time linear in the text.
pub fn parse_check(
    alloc: Global,
    bytes: &[u8],
    tokens: &[Token],
) -> Result<(RawTheory, RawCert), FormErr>
    requires { All (IsTokenOf bytes.now) tokens.now }
    // The text that the tokens are, or why they are none: `Nested` exactly where the load passes its limit,
    // else `Form` exactly where there is a fault, with the place of it.
    ensures reading { Parses Check bytes.now tokens.now result }
    // A text is read, unless memory runs out.
    ensures only { TellsTexts Check bytes.now tokens.now result }
{
    if is_nested(alloc, bytes, tokens)? {
        return Err(FormErr::Nested);
    }
    let mut reader = Reader::new(Vocabulary::version_one(), bytes, tokens);
    let read = theory_and_certificate(alloc, &mut reader);
    finish(bytes, tokens, read, reader.len())
}

/// The answer where this was read and so many tokens are left.
fn finish<T: Drop>(
    bytes: &[u8],
    tokens: &[Token],
    read: Result<T, Stop>,
    left: usize,
) -> Result<T, FormErr>
    requires { All (IsTokenOf bytes.now) tokens.now }
    ensures { result ≡ finished bytes.now tokens.now read left }
{
    match read {
        Ok(value) if left == 0 => Ok(value),
        Ok(_) => Err(fault_before(bytes, tokens, left)),
        Err(Stop::Wrong) => Err(fault_before(bytes, tokens, left)),
        Err(Stop::Memory) => Err(FormErr::Memory),
    }
}

/// The fault before the last `left` tokens.
fn fault_before(bytes: &[u8], tokens: &[Token], left: usize) -> FormErr
    requires { All (IsTokenOf bytes.now) tokens.now }
    ensures { result ≡ fault_before bytes.now tokens.now left }
{
    let front = &tokens[..tokens.len().saturating_sub(left)];
    FormErr::Form {
        decl: place(bytes, front),
    }
}
