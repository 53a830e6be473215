// What is known of the texts that commands print, as clauses.
ghost use Rattle.listing_laws.specs.DiffTexts.{DiffTextsAreTrue, DiffTextsFit, DiffTextsPass};
ghost use Rattle.listing_laws.specs.Networks.{BundlesCanBeListed};
ghost use Rattle.listing_laws.specs.ReachTexts.{ReachTextsAreTrue, ReachTextsFit, ReachTextsPass};

/// Of each network that is read from a bundle listings can be read, unless one of its interfaces is called `internet`, which in a
/// listing means the internet.
pub fn network_laws()
    ensures { BundlesCanBeListed }
{}

/// What `reach` prints with the status Yes or No is a true listing, and can be read as a file; so `check` answers yes to it.
pub fn reach_laws()
    ensures are_true { ReachTextsAreTrue }
    ensures fit { ReachTextsFit }
    ensures pass { ReachTextsPass }
{}

/// What `diff` prints with the status Yes or No is a true listing, and can be read as a file; so `check` answers yes to it.
pub fn diff_laws()
    ensures are_true { DiffTextsAreTrue }
    ensures fit { DiffTextsFit }
    ensures pass { DiffTextsPass }
{}
