// What a yes means, as a clause that crates above may cite.
ghost use Rattle.report_check.specs.Checked.{YesIsTruth};

/// A report gets a yes exactly where it is true.
pub fn check_laws()
    ensures { YesIsTruth }
{}
