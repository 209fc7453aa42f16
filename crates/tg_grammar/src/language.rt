use tg_rules::{Grammar, Tables};

/// The grammar of the language: its page, which is to be read by people, and its table, which a reader
/// goes by with one token of foresight.
pub struct Language;

impl Grammar for Language {
    ghost use Rattle.tg_grammar.specs.Seen.{Seen};
    ghost use Rattle.tg_grammar.specs.Parts.{Part, Value};
    ghost use Rattle.tg_grammar.specs.Table.{table};
    ghost use Rattle.tg_grammar.specs.First.{foresight};
    ghost use Rattle.tg_grammar.specs.Samples.{token, sample};
    ghost use Rattle.tg_grammar.specs.Reading.{kind};
    ghost use Rattle.tg_grammar.specs.Passing.{all_pass};

    ghost Token = { Seen };

    ghost kind = { kind };

    ghost Part = { Part };

    ghost Meaning = { Value };

    ghost rule = { table };

    ghost foresight = { foresight };

    ghost token = { token };

    ghost sample = { sample };

    ghost pass = { all_pass };
}

impl Tables for Language {
    ghost use Rattle.tg_grammar.specs.Seen.{Seen};
    ghost use Rattle.tg_grammar.specs.Parts.{Part, Value};
    ghost use Rattle.tg_grammar.specs.Page.{page};
    ghost use Rattle.tg_grammar.specs.Table.{table};
    ghost use Rattle.tg_grammar.specs.Reading.{kind};

    ghost Token = { Seen };

    ghost kind = { kind };

    ghost Part = { Part };

    ghost Meaning = { Value };

    ghost page = { page };

    ghost rule = { table };
}
