// What a yes means, as a clause that crates above may cite.
ghost use Rattle.listing_check.specs.Found.{YesIsTruth};

/// A listing gets a yes exactly where it is true.
pub fn listing_laws()
    ensures { YesIsTruth }
{}
