//! Certificates and their lines.
ghost use Rattle.std.specs.Prelude.{◌≡◌, ◌<◌, ◌≤◌, length, OnOk};
ghost use Rattle.tg_grammar.specs.Parts.{Certificate, Lines, Line};
ghost use Rattle.tg_grammar.specs.Reading.{reads};
ghost use Rattle.tg_reading.specs.Answers.{Gives};

use crate::steps::step;
use sqlite_items::Items;
use std::alloc::Global;
use tg_grammar::kinds::{BEGIN_WORD, CERTIFICATE_WORD, END_WORD, ONE_NUMBER, SEMICOLON};
use tg_grammar::{RawCert, RawLine};
use tg_reading::{Growing, Reader, Stop};

/// `certificate 1 begin`, lines and `end`.
#[tactic(auto, using(crate::proofs::CertificateRules::certificate_is))]
pub(crate) fn certificate(alloc: Global, reader: &mut Reader) -> Result<RawCert, Stop>
    ensures exact { Gives result reader.new (reads Certificate reader.old) }
    ensures less { OnOk result (length reader.new < length reader.old) }
{
    reader.take(CERTIFICATE_WORD)?;
    reader.take(ONE_NUMBER)?;
    reader.take(BEGIN_WORD)?;
    let lines = lines(alloc, reader)?;
    reader.take(END_WORD)?;
    Ok(RawCert { lines })
}

/// Lines, one after another.
#[tactic(auto, using(crate::proofs::CertificateRules::lines))]
fn lines(alloc: Global, reader: &mut Reader) -> Result<Items<RawLine>, Stop>
    ensures exact { Gives result reader.new (reads Lines reader.old) }
    ensures less { OnOk result (length reader.new ≤ length reader.old) }
{
    let mut lines = Growing::new(alloc);
    while reader.is_number_next() {
        lines.push(line(alloc, reader)?)?;
    }
    Ok(lines.done())
}

/// A number, a step and `;`.
#[tactic(auto, using(crate::proofs::CertificateRules::line_is))]
fn line(alloc: Global, reader: &mut Reader) -> Result<RawLine, Stop>
    ensures exact { Gives result reader.new (reads Line reader.old) }
    ensures less { OnOk result (length reader.new < length reader.old) }
{
    let number = reader.number()?;
    let mut line = step(alloc, reader)?;
    reader.take(SEMICOLON)?;
    line.number = number;
    Ok(line)
}
