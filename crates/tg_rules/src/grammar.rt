ghost use Rattle.std.specs.Prelude.{◌≡◌, ℕ, List, true};
ghost use Rattle.tg_rules.specs.Rule.{Rule};
ghost use Rattle.tg_rules.specs.Foresight.{Foresight};
ghost use Rattle.tg_rules.specs.Reader.{passes};

/// A grammar that is read with one token of foresight: its tokens and their kinds, its parts and their
/// values, a rule for each part, what is known of the parts beforehand, and as samples a token of each
/// kind and a text of each part. All its parts pass.
pub trait Grammar {
    ghost Token: { Type 0 };

    ghost kind: { Token → ℕ };

    ghost Part: { Type 0 };

    ghost Meaning: { Part → Type 0 };

    ghost rule: { (n : Part) → Rule Token Part Meaning (Meaning n) };

    ghost foresight: { Foresight Part };

    ghost token: { ℕ → Token };

    ghost sample: { Part → List Token };

    ghost pass: { (n : Part) → passes kind rule foresight token sample n ≡ true };
}

/// Two tables of rules with the same parts: `page` as people write it, and `rule` as a reader goes by
/// it. Nothing is asked of either.
pub trait Tables {
    ghost Token: { Type 0 };

    ghost kind: { Token → ℕ };

    ghost Part: { Type 0 };

    ghost Meaning: { Part → Type 0 };

    ghost page: { (n : Part) → Rule Token Part Meaning (Meaning n) };

    ghost rule: { (n : Part) → Rule Token Part Meaning (Meaning n) };
}

/// The example: differences, grouped to the left.
pub struct Differences;

impl Grammar for Differences {
    ghost use Rattle.tg_rules.specs.Differences.{Token, kind, Part, Meaning, rule, foresight, token, sample};
    ghost use Rattle.tg_rules.specs.Passing.{all_pass};

    ghost Token = { Token };

    ghost kind = { kind };

    ghost Part = { Part };

    ghost Meaning = { Meaning };

    ghost rule = { rule };

    ghost foresight = { foresight };

    ghost token = { token };

    ghost sample = { sample };

    ghost pass = { all_pass };
}

impl Tables for Differences {
    ghost use Rattle.tg_rules.specs.Differences.{Token, kind, Part, Meaning, rule, page};

    ghost Token = { Token };

    ghost kind = { kind };

    ghost Part = { Part };

    ghost Meaning = { Meaning };

    ghost page = { page };

    ghost rule = { rule };
}
