/// The signs of the graph text.
#[derive(Clone, Copy, Debug, PartialEq, Eq)]
pub(crate) enum Sign {
    /// `(`
    Open,
    /// `)`
    Close,
    /// `[`
    OpenSquare,
    /// `]`
    CloseSquare,
    /// `!`
    Not,
    /// `|`
    Or,
    /// `&`
    And,
    /// `@`
    At,
    /// `,`
    Comma,
    /// `=`
    Equals,
    /// `+`
    Plus,
    /// `->`
    Arrow,
}

/// The words that stand for themselves: the keywords and the bits.
#[derive(Clone, Copy, Debug, PartialEq, Eq)]
pub(crate) enum Fixed {
    Params,
    Graph,
    Scenario,
    With,
    Empty,
    Zero,
    One,
}
