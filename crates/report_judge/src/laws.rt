//! What is promised of good reports and of reasons.
ghost use Rattle.report_judge.specs.Laws.{GoodReportsAreRight, GoodOrFailing, OneVerdict, ReportsOfSearchesAreGood};

/// What a good report tells is so: its codes, its conditions, its module over every run, and its bounds.
pub fn good_reports_are_right()
    ensures { GoodReportsAreRight }
{}

/// No part of a good report fails.
pub fn good_or_failing()
    ensures { GoodOrFailing }
{}

/// A report has one first reason.
pub fn one_verdict()
    ensures { OneVerdict }
{}

/// The report of a search is good.
pub fn reports_of_searches_are_good()
    ensures { ReportsOfSearchesAreGood }
{}
