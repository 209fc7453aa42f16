ghost use Rattle.tg_rules.specs.Laws.{HasOneReading, HasTextOrFault, HasNotBoth, HasOneFault, HasFaultAtLongest, HaveSameReadings};
ghost use Rattle.tg_grammar.specs.Page.{page};
ghost use Rattle.tg_grammar.specs.Table.{table};
ghost use Rattle.tg_grammar.specs.Reading.{kind};
ghost use Rattle.tg_grammar.specs.Laws.{ReadsByRule, ReadsTexts, StopsAtFault, StopsBeforeFault};

/// The page and the table have the same texts, with the same values.
pub fn tables()
    ensures { HaveSameReadings kind page table }
{}

/// A text of a part has one value. Tokens are a text of a part or have a fault, not both, and the fault
/// is at one place: behind the longest front with which a text begins.
pub fn texts()
    ensures one { HasOneReading kind page }
    ensures some { HasTextOrFault kind page }
    ensures not_both { HasNotBoth kind page }
    ensures one_fault { HasOneFault kind page }
    ensures longest { HasFaultAtLongest kind page }
{}

/// Reading with one token of foresight, each part as its rule in the table says, reads to the end the
/// texts of the page and nothing else. It stops at the fault, or leaves what stands behind it.
pub fn reading()
    ensures rules { ReadsByRule }
    ensures texts { ReadsTexts }
    ensures stops { StopsAtFault }
    ensures behind { StopsBeforeFault }
{}
