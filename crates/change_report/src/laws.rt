// What is known of the rows that `diff` tells, as a clause.
ghost use Rattle.change_report.specs.Told.{RowsAreJoined};

/// Of the rows from one start no two that stand beside one another could be one: its boxes differ in their sources and
/// destinations alone, and rows that could be one have the same.
pub fn rows_are_joined()
    ensures { RowsAreJoined }
{}
