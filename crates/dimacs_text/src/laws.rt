//! Laws of the texts.
ghost use Rattle.std.specs.Prelude.{ℕ};
ghost use Rattle.text_rows.specs.Laws.{BadLinesAreTold};
ghost use Rattle.dimacs_text.specs.LogTexts.{IsLogText};
ghost use Rattle.dimacs_text.specs.Texts.{IsFormulaText, IsJoinedText};

/// A good text has no first bad line, and another has one at most. So each answer of the readers comes exactly where
/// its cause stands.
pub fn bad_lines_are_told()
    ensures formulas { BadLinesAreTold IsFormulaText }
    ensures logs { (variables clauses : ℕ) → BadLinesAreTold (IsLogText variables clauses) }
    ensures joined { BadLinesAreTold IsJoinedText }
{}
