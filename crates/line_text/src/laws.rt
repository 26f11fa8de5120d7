ghost use Rattle.line_text.specs.Laws.{LinesAreRead, NumbersAreTold};

/// Lines that hold no line feed are those of the text that is made of them.
pub fn lines_are_read()
    ensures { LinesAreRead }
{}

/// Two numbers with the same decimal digits are one.
pub fn numbers_are_told()
    ensures { NumbersAreTold }
{}
