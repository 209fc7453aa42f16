ghost use Rattle.tg_rules.specs.Laws.{AreByRule, HasOneReading, HasTextOrFault, HasNotBoth, HasOneFault, HasFaultAtLongest, HasFronts};
ghost use Rattle.tg_rules.specs.Laws.{IsSound, IsComplete, ReadsTexts, ReadsByRule, HasEnoughTurns, StopsAtFault, StopsBeforeFault};
ghost use Rattle.tg_rules.specs.Laws.{HasReadingsOf, HaveSameReadings, HaveSameFaults};
ghost use Rattle.tg_rules.specs.Differences.{kind, page, rule};
ghost use Rattle.tg_rules.specs.KnownTexts.{GroupsToTheLeft, IsWrongAtSecondMinus, IsWrongAtEnd, IsWrongBehindText};

use crate::grammar::{Grammar, Tables};

/// The texts of a part are those of its rule, and a text has one value.
pub fn texts<G: Grammar>()
    ensures rules { AreByRule G.kind G.rule }
    ensures one { HasOneReading G.kind G.rule }
{}

/// Reading with one token of foresight, each part as its rule says, reads all texts and nothing else.
pub fn reading<G: Grammar>()
    ensures sound { IsSound G.kind G.rule G.foresight }
    ensures complete { IsComplete G.kind G.rule G.foresight }
    ensures whole { ReadsTexts G.kind G.rule G.foresight }
    ensures rules { ReadsByRule G.kind G.rule G.foresight }
    ensures turns { HasEnoughTurns G.kind G.rule G.foresight }
{}

/// Tokens are a text of a part or have a fault, not both, and the fault is at one place: behind the
/// longest front with which a text begins. The reader stops there, or leaves what stands behind it.
pub fn faults<G: Grammar>()
    ensures some { HasTextOrFault G.kind G.rule }
    ensures not_both { HasNotBoth G.kind G.rule }
    ensures one { HasOneFault G.kind G.rule }
    ensures longest { HasFaultAtLongest G.kind G.rule }
    ensures fronts { HasFronts G.kind G.rule }
    ensures stops { StopsAtFault G.kind G.rule G.foresight }
    ensures behind { StopsBeforeFault G.kind G.rule G.foresight }
{}

/// Of two tables with the same parts, one has all readings of the other if the other's rules put
/// together nothing but what the one reads already. With the same readings they have the same faults.
pub fn pages<G: Tables>()
    ensures to_page { HasReadingsOf G.kind G.page G.rule }
    ensures from_page { HasReadingsOf G.kind G.rule G.page }
    ensures faults { HaveSameFaults G.kind G.page G.rule }
{}

/// The example, by hand: its two tables have the same readings, though in the one that people write a
/// difference begins with one; what groups to the left, and where three texts are wrong.
pub fn differences()
    ensures tables { HaveSameReadings kind page rule }
    ensures left { GroupsToTheLeft }
    ensures minus { IsWrongAtSecondMinus }
    ensures end { IsWrongAtEnd }
    ensures behind { IsWrongBehindText }
{}
