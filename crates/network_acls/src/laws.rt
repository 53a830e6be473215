// What the box walk rests on.
ghost use Rattle.network_acls.specs.Tried.{TriedRowsAreStanding};

/// All edges of an ACL's rows are among the standing cuts of its description.
pub fn tried_rows_are_standing()
    ensures { TriedRowsAreStanding }
{}
