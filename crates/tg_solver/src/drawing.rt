//! Draws: random values of the variables.
ghost use Rattle.std.specs.Prelude.{◌≡◌, ◌%◌, ◌^◌, [], IfOk, OnOk, option_map};
ghost use Rattle.std.specs.List.{find};
ghost use Rattle.tg_accept.specs.Declared.{theory};
ghost use Rattle.tg_solver.specs.Candidates.{satisfies};
ghost use Rattle.tg_solver.specs.Draws.{word, after_word, of_word, draw, after_draw, draws, generator};

use crate::constraints::all_hold;
use crate::numbers::as_value;
use rand_core::utils::NextWord;
use rand_pcg::Pcg32;
use std::alloc::{AllocError, Global};
use tg_declarations::Declarations;
use tg_eval::Held;
use tg_term::Term;
use tg_types::Settings;

/// The first draw at which each constraint is True.
pub(crate) fn first_draw(
    alloc: Global,
    declared: &Declarations,
    truths: &[bool],
    constraints: &[Term],
    settings: &Settings,
    index: u32,
) -> Result<Option<Vec<Held>>, AllocError>
    ensures { let s = settings.now in IfOk result (λ r. option_map (λ vs. vs.items) r
        ≡ find (satisfies (theory [] declared.now) constraints.now) (draws s.tries s.width truths.now (generator s.seed index))) }
{
    if truths.is_empty() {
        return Ok(None);
    }
    let mut rng = generator(settings.seed, index);
    let mut vars = Vec::new(alloc);
    for _ in 0..settings.tries {
        draw(&mut rng, settings.width, truths, &mut vars)?;
        if all_hold(alloc, declared, vars.as_slice(), constraints)? {
            return Ok(Some(vars));
        }
    }
    Ok(None)
}

/// The generator of a class, whose number is that of the stream.
#[tactic(auto, using(crate::proofs::DrawLaws::generating))]
fn generator(seed: u64, index: u32) -> Pcg32
    ensures { result ≡ generator seed index }
{
    Pcg32::new(seed, u64::from(index))
}

/// A draw: one word for each variable, in order, in place of what `vars` had.
fn draw(rng: &mut Pcg32, width: u8, truths: &[bool], vars: &mut Vec<Held>) -> Result<(), AllocError>
    ensures drawn { OnOk result (vars.new.items ≡ draw width truths.now rng.old) }
    ensures left { OnOk result (rng.new ≡ after_draw truths.now rng.old) }
{
    vars.clear();
    for truth in truths {
        let value = of_word(width, *truth, next(rng));
        vars.push(value)?;
    }
    Ok(())
}

/// The next word.
fn next(rng: &mut Pcg32) -> u32
    ensures word { result ≡ word rng.old }
    ensures left { rng.new ≡ after_word rng.old }
{
    rng.next_word()
}

/// The value that a word stands for.
fn of_word(width: u8, truth: bool, word: u32) -> Held
    ensures { result ≡ of_word width truth word }
{
    if truth {
        as_value(truth, u64::from(word % 2))
    } else {
        as_value(truth, u64::from(low_bits(word, width)))
    }
}

/// The word modulo 2^width.
fn low_bits(word: u32, width: u8) -> u32
    ensures { result ≡ word % 2 ^ width }
{
    match 1_u32.checked_shl(u32::from(width)) {
        Some(modulus) => word % modulus,
        None => word,
    }
}
