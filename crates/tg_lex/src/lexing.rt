ghost use Rattle.std.specs.Prelude.{◌≡◌, ℕ, ◌≤◌, List, length, slice_range, All, IfOk, IfErr};
ghost use Rattle.tg_lex.specs.Answers.{IsFirstFault, TellsReading, TellsFirstFault};
ghost use Rattle.tg_lex.specs.Grammar.{Reads, FailsAt, IsTokenOf, Rises, value};

use crate::digits::value_of;
use crate::part::{Fault, Part, first_part};
use crate::token::{Kind, LexErr, Token};
use sqlite_items::Items;
use std::alloc::Global;

/// The tokens of the bytes, in their order, or the first fault from the left.
pub fn lex(alloc: Global, bytes: &[u8]) -> Result<Vec<Token>, LexErr>
    // The tokens are those of the grammar.
    ensures ok { IfOk result (λ v. Reads bytes.now v.items) }
    // Where the grammar has tokens they are given, unless memory runs out.
    ensures only { TellsReading bytes.now result }
    // A fault is the first one from the left, with its place and the tokens before it.
    ensures fault { IfErr result (IsFirstFault bytes.now) }
    // Where there is a first fault it is given, unless memory runs out.
    ensures exact { TellsFirstFault bytes.now result }
    ensures texts { IfOk result (λ v. All (IsTokenOf bytes.now) v.items) }
    ensures rise { IfOk result (λ v. Rises 0 v.items) }
{
    tokens_of(alloc, bytes)
}

fn tokens_of(alloc: Global, bytes: &[u8]) -> Result<Vec<Token>, LexErr>
    ensures ok { IfOk result (λ v. Reads bytes.now v.items) }
    ensures fault { IfErr result (IsFirstFault bytes.now) }
{
    let mut tokens = Vec::new(alloc);
    let mut at = 0;
    while at < bytes.len() {
        match first_part(&bytes[at..]) {
            Ok(Part::Skip(len)) => at += len,
            Ok(Part::Token(kind, len)) => {
                let end = at + len;
                tokens.push(Token {
                    kind,
                    start: at,
                    end,
                })?;
                at = end;
            }
            Err(fault) => return Err(fault_at(fault, at, tokens)),
        }
    }
    Ok(tokens)
}

fn fault_at(fault: Fault, at: usize, tokens: Vec<Token>) -> LexErr
    ensures { (bytes : List ℕ) → FailsAt bytes fault at tokens.items → IsFirstFault bytes result }
{
    let before = Items::from_vec(tokens);
    match fault {
        Fault::Byte => LexErr::Byte { at, before },
        Fault::Comment => LexErr::Comment { at, before },
        Fault::Number => LexErr::Number { at, before },
    }
}

/// The value of a number token of the bytes.
pub fn number(bytes: &[u8], t: &Token) -> u64
    requires token { IsTokenOf bytes.now t.now }
    requires number { t.now.kind ≡ Kind.Number }
    ensures { result ≡ value (slice_range bytes.now t.now.start t.now.end) }
{
    value_of(&bytes[t.start..t.end]).unwrap()
}
