// What makes rows a report, or a part of one.
ghost use Rattle.vpc_examples.specs.ReportRows.{PartReportsLeaveNothingBefore, ReportsAscend};

/// The rows of a report ascend.
pub fn ascends()
    ensures { ReportsAscend }
{}

/// The rows of a part begin before the first header that they leave out.
pub fn leaves_nothing_before()
    ensures { PartReportsLeaveNothingBefore }
{}
