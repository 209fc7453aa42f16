ghost use Rattle.tg_report.specs.ReadBack.{TypesReadBack, ValuesReadBack, TermsReadBack, FormulasReadBack};
ghost use Rattle.tg_report.specs.ReadBack.{TypedHasText, WellFormedHasText, TellsTypes, TellsValues, TellsTerms, TellsFormulas};

/// In a theory whose names are words that aren't reserved, the grammar reads the text of a closed type as the type, that of a value as
/// the value, and those of a term and a formula as the term and the formula, with the names of what they use and with variables by
/// their numbers. The numbers are below 2^64, and what is used is declared.
pub fn read_back()
    ensures types { TypesReadBack }
    ensures values { ValuesReadBack }
    ensures terms { TermsReadBack }
    ensures formulas { FormulasReadBack }
{}

/// In an accepted theory two closed types, values, terms or formulas with one text are equal.
pub fn told_by_texts()
    ensures types { TellsTypes }
    ensures values { TellsValues }
    ensures terms { TellsTerms }
    ensures formulas { TellsFormulas }
{}

/// In an accepted theory each typed term and each well-formed formula has a text, if its numbers are below 2^64.
pub fn typed_texts()
    ensures terms { TypedHasText }
    ensures formulas { WellFormedHasText }
{}
