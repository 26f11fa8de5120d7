//! What holds of the covering pairs of every order, whoever lists them.

ghost use Rattle.order_reduce.specs.Laws.{CoveringIsCovered, CoversKeepWalks, CoversAreFew};

/// The test that the listed pairs pass is the relation: a pair passes it exactly where its first is before its second
/// and nothing lies between.
pub fn covering_is_covered()
    ensures { CoveringIsCovered }
{}

/// The walks of the covering pairs of a finite strict order are the order (Mokhov and Yakovlev 2010: the transitive
/// reduction of a partial order has the order as its transitive closure).
pub fn covers_keep_walks()
    ensures { CoversKeepWalks }
{}

/// Covering pairs have no triangle, so an order has at most a quarter of the square of its operations of them.
pub fn covers_are_few()
    ensures { CoversAreFew }
{}
