//! What holds of the definitions, as contracts.
ghost use Rattle.probe_tools.specs.Laws.{RowsAreUnique, LinesAreTold};

/// Events have one table of rows.
pub fn rows_are_unique()
    ensures { RowsAreUnique }
{}

/// Two accesses have one row exactly where they are of one line and of one kind.
pub fn lines_are_told()
    ensures { LinesAreTold }
{}
