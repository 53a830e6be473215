// Blocks that each tell a number.
use prefix_text::Prefix;

/// A block whose addresses are told a number. Of several blocks that hold an address the one with the
/// least rank counts, and of equal ranks the one with the least number.
#[derive(Clone, Copy)]
pub struct BlockRow {
    pub block: Prefix,
    /// Smaller is better. Ranks may be in any order: a block may be better or worse than those around it.
    pub rank: u64,
    /// The number that is told. Several blocks may tell the same.
    pub row: u32,
}
