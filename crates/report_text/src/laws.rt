//! What is promised of reports.
ghost use Rattle.report_text.specs.Laws.{TextTellsReport, ModuleEndsReport, EndClosesLog, WrittenIsSpelled, SpellingTellsLog, SpellingTellsReport};

/// Two reports with the same text are the same report.
pub fn text_tells_report()
    ensures { TextTellsReport }
{}

/// What stands in a report's text behind its line `netlist` is its module, to the end.
pub fn module_ends_report()
    ensures { ModuleEndsReport }
{}

/// No line of a log is `end`, so that line ends it.
pub fn end_closes_log()
    ensures { EndClosesLog }
{}

/// What is written of a report spells it.
pub fn written_is_spelled()
    ensures { WrittenIsSpelled }
{}

/// Lines up to an end spell one log.
pub fn spelling_tells_log()
    ensures { SpellingTellsLog }
{}

/// Lines spell one report.
pub fn spelling_tells_report()
    ensures { SpellingTellsReport }
{}
