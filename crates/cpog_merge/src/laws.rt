//! What columns and their classes tell of encodings.

ghost use Rattle.cpog_merge.specs.Laws.{FitsIsAgreeing, FitsIsFittingScenarios, ServedAgree, BelongsToOne, ClassesAreOne, SameColumnsSameClasses, ClassesAreOpen, ReferencesStay, GraphByClassAgrees, GraphServesClasses, GraphByClassIsGraph, OneGraphByClass, SmallerSetsAreFew, JoiningIsBounded, CountBounds, IncompatibleSetsAreEvidence, IncompatibleSetsAreOne};

/// An encoding fits orders exactly where each of its conditions has, on each code, the value of its column's entry
/// (Mokhov and Yakovlev 2010: the encoding constraints of a conditional partial order graph).
pub fn fits_is_agreeing()
    ensures { FitsIsAgreeing }
{}

/// An encoding fits the orders of scenarios exactly where it fits the scenarios.
pub fn fits_is_fitting_scenarios()
    ensures { FitsIsFittingScenarios }
{}

/// A reference that agrees with a column agrees, complemented where negated, with each column that this one serves.
pub fn served_agree()
    ensures { ServedAgree }
{}

/// A column belongs to one constant, or to one class with one sign.
pub fn belongs_to_one()
    ensures { BelongsToOne }
{}

/// Columns have one list of classes, and each belongs to one of them or to one constant.
pub fn classes_are_one()
    ensures { ClassesAreOne }
{}

/// Columns that are the same at each place have the same classes.
pub fn same_columns_same_classes()
    ensures { SameColumnsSameClasses }
{}

/// The classes are open columns, with an entry for each scenario.
pub fn classes_are_open()
    ensures { ClassesAreOpen }
{}

/// The reference that a column takes by its class is over the same signals as those of the classes.
pub fn references_stay()
    ensures { ReferencesStay }
{}

/// A graph whose conditions are those of the classes agrees with every column.
pub fn graph_by_class_agrees()
    ensures { GraphByClassAgrees }
{}

/// A graph that agrees with every column has, at the places of the classes, references that serve these, and no constant.
pub fn graph_serves_classes()
    ensures { GraphServesClasses }
{}

/// The graph by the classes is a conditional graph over the signals of the references, and has the conditions of the classes.
pub fn graph_by_class_is_graph()
    ensures { GraphByClassIsGraph }
{}

/// A graph whose conditions are those of the classes is the graph by the classes.
pub fn one_graph_by_class()
    ensures { OneGraphByClass }
{}

/// An operation's smaller set has at most the scenarios that lack it, a pair's at most those of which it is a covering
/// pair. Covering pairs are few (Mantel 1907), so the smaller sets of all classes together have at most 1024 times as many
/// members as there are scenarios.
pub fn smaller_sets_are_few()
    ensures { SmallerSetsAreFew }
{}

/// Summed over the classes, the members of the smaller set less one are at most 63488: so many gates of two inputs join
/// the members of each set.
pub fn joining_is_bounded()
    ensures { JoiningIsBounded }
{}

/// Places whose columns are pairwise incompatible need a signal each, and a signal is a code bit or a gate. So no encoding
/// has fewer gates than these places are, less the bits.
pub fn count_bounds()
    ensures { CountBounds }
{}

/// The places of the classes that `incompatible_set` takes have open and pairwise incompatible columns.
pub fn incompatible_sets_are_evidence()
    ensures { IncompatibleSetsAreEvidence }
{}

/// Columns have one set that is taken so.
pub fn incompatible_sets_are_one()
    ensures { IncompatibleSetsAreOne }
{}
