// Laws of pieces, as clauses that crates above may cite. The functions do nothing.
ghost use Rattle.std.specs.Prelude.{ℕ, ◌≤◌, ◌*◌, ◌^◌};
ghost use Rattle.piece_table.specs.Laws as law;

/// Each address lies in exactly one piece.
pub fn each_address_in_one_piece()
    ensures lies { law.EachLiesInItsPiece }
    ensures alone { law.LiesInNoOther }
{}

/// All addresses of a piece are told alike.
pub fn each_piece_tells_one_value()
    ensures of_piece { law.PieceTellsOfItsAddresses }
    ensures one { law.FoundPieceIsOne }
    ensures alike { law.FoundPieceTellsOneValue }
{}

/// The pieces follow each other without a gap, from 0 to 2^32 - 1.
pub fn pieces_fill_the_line()
    ensures some { law.NoPieceIsEmpty }
    ensures next { law.NoGapIsLeft }
    ensures end { law.LastPieceEndsTheLine }
{}

/// The piece that is found is aligned to the firsts.
pub fn found_piece_is_aligned()
    ensures { law.FoundPieceIsAligned }
{}

/// Pieces that are made from the least address on, one after another.
pub fn one_more_piece()
    ensures one { law.OnePieceTells }
    ensures pieces { law.OneMoreLeavesPieces }
    ensures tells { law.OneMoreTells }
{}

/// How many steps a search takes at most, in general, among 5 pieces and among 200,001.
pub fn few_steps()
    ensures few { law.FewPiecesFewSteps }
    ensures five { (s : ℕ) → 2 ^ s ≤ 4 * 5 → s ≤ 4 }
    ensures many { (s : ℕ) → 2 ^ s ≤ 4 * 200001 → s ≤ 19 }
{}
