//! Operators.
ghost use Rattle.std.specs.Prelude.{◌≡◌, ◌<◌, [], ◌∷◌, length, OnOk};
ghost use Rattle.tg_grammar.specs.Kinds.{equal, less, less_equal, plus, minus, times, div_word, mod_word};
ghost use Rattle.tg_grammar.specs.Page.{comparison_operator, sum_operator, product_operator};
ghost use Rattle.tg_grammar.specs.TableParts.{connective};
ghost use Rattle.tg_reading.specs.Answers.{Finds, Gives, by_rule};

use crate::reader::{Reader, Stop};
use tg_grammar::{kinds, operators};

/// The comparison that is next, which is left behind, or None.
pub(crate) fn comparison_operator(reader: &mut Reader) -> Option<u32>
    ensures { Finds result (equal ∷ less ∷ less_equal ∷ []) reader.old reader.new (by_rule comparison_operator reader.old) }
{
    if reader.skips(kinds::EQUAL) {
        return Some(operators::EQUAL);
    }
    if reader.skips(kinds::LESS) {
        return Some(operators::LESS);
    }
    if reader.skips(kinds::LESS_EQUAL) {
        return Some(operators::LESS_EQUAL);
    }
    None
}

/// The `+` or `-` that is next, which is left behind, or None.
pub(crate) fn sum_operator(reader: &mut Reader) -> Option<u32>
    ensures { Finds result (plus ∷ minus ∷ []) reader.old reader.new (by_rule sum_operator reader.old) }
{
    if reader.skips(kinds::PLUS) {
        return Some(operators::PLUS);
    }
    if reader.skips(kinds::MINUS) {
        return Some(operators::MINUS);
    }
    None
}

/// The `*`, `div` or `mod` that is next, which is left behind, or None.
pub(crate) fn product_operator(reader: &mut Reader) -> Option<u32>
    ensures { Finds result (times ∷ div_word ∷ mod_word ∷ []) reader.old reader.new (by_rule product_operator reader.old) }
{
    if reader.skips(kinds::TIMES) {
        return Some(operators::TIMES);
    }
    if reader.skips(kinds::DIV_WORD) {
        return Some(operators::DIV);
    }
    if reader.skips(kinds::MOD_WORD) {
        return Some(operators::MOD);
    }
    None
}

/// The `&` or `-->` that is next.
pub(crate) fn connective(reader: &mut Reader) -> Result<u32, Stop>
    ensures exact { Gives result reader.new (by_rule connective reader.old) }
    ensures less { OnOk result (length reader.new < length reader.old) }
{
    if reader.skips(kinds::AND) {
        return Ok(operators::AND);
    }
    reader.take(kinds::ARROW)?;
    Ok(operators::IMPLIES)
}
