//! Laws: what is written is read, as long as it holds nothing that ends a line or a word.
ghost use Rattle.text_rows.specs.Laws.{LinesAreRead, WordsAreRead};

/// Lines that hold no line feed and no carriage return are those of the text that is made of them.
pub fn lines_are_read()
    ensures { LinesAreRead }
{}

/// Words are those of the line that has single blanks between them.
pub fn words_are_read()
    ensures { WordsAreRead }
{}
