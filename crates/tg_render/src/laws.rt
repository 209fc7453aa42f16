ghost use Rattle.tg_render.specs.Laws.{IsLexedBack, AreLinesLexedBack, TextsAreJoined, TextsFollow, TellsTokens, WordsAreProper, NumeralsAreProper};

/// The lexer finds in the text of proper tokens these tokens, in lines those of the lines, and in two texts with LF between
/// them, or of which the first ends in LF, those of both. So two lists of proper tokens with one text are equal.
pub fn lexed_back()
    ensures tokens { IsLexedBack }
    ensures lines { AreLinesLexedBack }
    ensures joined { TextsAreJoined }
    ensures follow { TextsFollow }
    ensures told { TellsTokens }
{}

/// A word is a proper token, and so is a number below 2^64 in decimal digits.
pub fn proper_tokens()
    ensures words { WordsAreProper }
    ensures numerals { NumeralsAreProper }
{}
