// Whole logs.
ghost use Rattle.report_examples.specs.FlowLogs.{EmptyLogIsTold, FirstBadLineIsTold, LinesAreNumbered, LogIsTold, NamesArePassedOver};

/// A log of which two lines differ, one each way.
pub fn tells_a_log()
    ensures { LogIsTold }
{}

/// A log without lines.
pub fn tells_an_empty_log()
    ensures { EmptyLogIsTold }
{}

/// A line outside the grammar, also behind lines that differ; of two such lines the first.
pub fn tells_the_first_bad_line()
    ensures { FirstBadLineIsTold }
{}

/// A first line that names the fields counts, whatever follows its first word; a later one is bad.
pub fn passes_over_names()
    ensures { NamesArePassedOver }
{}

/// The newline of the last line may be missing.
pub fn needs_no_last_newline()
    ensures { LinesAreNumbered }
{}
