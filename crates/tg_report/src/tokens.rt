//! Tokens that stand in several kinds of texts.
ghost use Rattle.std.specs.Prelude.{◌≡◌, ◌∷◌, [], OnOk, decimal};
ghost use Rattle.tg_render.specs.Render.{put, written};
ghost use Rattle.tg_report.specs.Words.{truth_token};

use std::alloc::AllocError;
use tg_render::{put_number, put_token};

/// Writes a mark and a number.
pub(crate) fn put_variable(out: &mut Vec<u8>, mark: &[u8], number: u64) -> Result<(), AllocError>
    ensures { OnOk result (out.new.items ≡ put (put out.old.items mark.now) (decimal number)) }
{
    put_token(out, mark)?;
    put_number(out, number)
}

/// Writes a truth value.
pub(crate) fn put_truth(out: &mut Vec<u8>, truth: bool) -> Result<(), AllocError>
    ensures { OnOk result (out.new.items ≡ written out.old.items (truth_token truth ∷ [])) }
{
    if truth {
        put_token(out, b"True")
    } else {
        put_token(out, b"False")
    }
}
