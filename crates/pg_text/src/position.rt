ghost use Rattle.std.specs.Prelude.{◌≡◌};
ghost use Rattle.pg_text.specs.Grammar.{product, sum};
ghost use Rattle.pg_text.specs.Writing.{needs};

/// What may stand in a place of the written text without parentheses.
#[derive(Clone, Copy, Debug, PartialEq, Eq)]
pub(crate) enum Position {
    /// A sum, a product or a factor.
    Sum,
    /// A product or a factor.
    Product,
    /// A factor alone.
    Factor,
}

impl Position {
    /// Whether a product needs parentheses here.
    pub fn encloses_product(self) -> bool
        ensures { result ≡ needs self product }
    {
        match self {
            Position::Sum | Position::Product => false,
            Position::Factor => true,
        }
    }

    /// Whether a sum needs parentheses here.
    pub fn encloses_sum(self) -> bool
        ensures { result ≡ needs self sum }
    {
        match self {
            Position::Sum => false,
            Position::Product | Position::Factor => true,
        }
    }
}
