// Laws of what blocks tell, as clauses that crates above may cite. The functions do nothing.
ghost use Rattle.block_pieces.specs.Laws as law;

/// What is told of an address, from a block that is as good as every other one that holds it.
pub fn best_is_told()
    ensures best { law.BestIsTold }
    ensures none { law.NoneIsTold }
{}

/// From what is told of an address, which block tells it.
pub fn told_is_best()
    ensures told { law.ToldIsBest }
    ensures untold { law.UntoldIsUnheld }
{}

/// Of two blocks that share an address one lies in the other.
pub fn blocks_are_nested()
    ensures { law.BlocksAreNested }
{}
