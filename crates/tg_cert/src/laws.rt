ghost use Rattle.tg_cert.specs.Laws.{OneSequent, OneFault, NeverBoth, ProvedIsDerivable, ProvedIsTrue};
ghost use Rattle.tg_cert.specs.ReadBack.{CertificatesAreTexts, LinesReadBack};

/// A certificate proves one sequent or fails at one place, and not both. What it proves has a derivation, and is true on every table.
pub fn certificates()
    ensures one { OneSequent }
    ensures fault { OneFault }
    ensures not_both { NeverBoth }
    ensures derivable { ProvedIsDerivable }
    ensures truth { ProvedIsTrue }
{}

/// In an accepted theory whose names are words that aren't reserved, the text that is written of a book's lines is read back: it is a
/// text of the grammar, and its lines are instances of their rules that say the lines of the book, with their sequents. The numbers in
/// the lines are below 2^64.
pub fn read_back()
    ensures texts { CertificatesAreTexts }
    ensures lines { LinesReadBack }
{}
