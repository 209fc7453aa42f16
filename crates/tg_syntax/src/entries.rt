//! Whole texts of several parts.
ghost use Rattle.std.specs.Prelude.{◌≡◌, ◌<◌, length, OnOk};
ghost use Rattle.tg_grammar.specs.Parts.{Judge, Check};
ghost use Rattle.tg_grammar.specs.Reading.{reads};
ghost use Rattle.tg_reading.specs.Answers.{Gives};

use crate::certificates::certificate;
use crate::declarations::theory;
use crate::outcomes::outcomes;
use std::alloc::Global;
use tg_grammar::{RawCert, RawOutcomes, RawTheory};
use tg_reading::{Reader, Stop};

/// A theory and outcomes.
#[tactic(auto, using(crate::proofs::CertificateRules::judge_is))]
pub(crate) fn theory_and_outcomes(
    alloc: Global,
    reader: &mut Reader,
) -> Result<(RawTheory, RawOutcomes), Stop>
    ensures exact { Gives result reader.new (reads Judge reader.old) }
    ensures less { OnOk result (length reader.new < length reader.old) }
{
    let theory = theory(alloc, reader)?;
    let outcomes = outcomes(alloc, reader)?;
    Ok((theory, outcomes))
}

/// A theory and a certificate.
#[tactic(auto, using(crate::proofs::CertificateRules::check_is))]
pub(crate) fn theory_and_certificate(
    alloc: Global,
    reader: &mut Reader,
) -> Result<(RawTheory, RawCert), Stop>
    ensures exact { Gives result reader.new (reads Check reader.old) }
    ensures less { OnOk result (length reader.new < length reader.old) }
{
    let theory = theory(alloc, reader)?;
    let certificate = certificate(alloc, reader)?;
    Ok((theory, certificate))
}
