//! What the definitions of conditions and graphs promise.
ghost use Rattle.pg_algebra.specs.Algebra.{AlgebraOfGraphs};
ghost use Rattle.pg_algebra.specs.Laws.{GraphsOfExpressions, ValuationsAreNumbered, ValuesOfConditions};

/// Overlay, sequence and conditions obey the laws of parameterised graphs (Mokhov and Khomenko 2014). The arcs of a
/// sequence are those of its members, and those from each member to the later ones.
pub fn algebra_of_graphs()
    ensures { AlgebraOfGraphs }
{}

/// The value of each kind of condition, and the parameters in it, are those of the algebra.
pub fn values_of_conditions()
    ensures { ValuesOfConditions }
{}

/// The graph of each kind of expression is that of the algebra.
pub fn graphs_of_expressions()
    ensures { GraphsOfExpressions }
{}

/// A valuation's number has a bit for each parameter, which can be turned and set alone.
pub fn valuations_are_numbered()
    ensures { ValuationsAreNumbered }
{}
