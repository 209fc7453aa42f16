ghost use Rattle.tg_lex.specs.Laws.{HasReadingOrFault, HasOneReading, HasOneFault, HasNotBoth, HasTexts, HasRisingSpans, ReadingsJoin, ReadingsFollow};

/// A text has one list of tokens or one first fault, and not both. It stands on the grammar alone.
pub fn readings()
    ensures some { HasReadingOrFault }
    ensures one { HasOneReading }
    ensures one_fault { HasOneFault }
    ensures not_both { HasNotBoth }
{}

/// The tokens of a front of a text: each one's text is its slice, and they follow one another.
pub fn fronts()
    ensures texts { HasTexts }
    ensures rise { HasRisingSpans }
{}

/// Two texts with LF between them have the tokens of both, and so have two texts of which the first ends in LF.
pub fn joins()
    ensures between { ReadingsJoin }
    ensures follow { ReadingsFollow }
{}
