// That reading and writing are inverse to each other, as clauses that crates above may cite.
ghost use Rattle.prefix_text.specs.Addr.{AddrsReadBack, AddrsHaveOneText};
ghost use Rattle.prefix_text.specs.Block.{PrefixesReadBack, HostBitsAreCleared, PrefixesHaveOneForm};
ghost use Rattle.prefix_text.specs.Number.{NumbersReadBack, NumbersHaveOneText};
ghost use Rattle.prefix_text.specs.Range.{RangesReadBack, RangesHaveOneText};

/// Numbers and their decimal texts.
pub fn number_laws()
    ensures reads_back { NumbersReadBack }
    ensures one_text { NumbersHaveOneText }
{}

/// Addresses and their dotted texts.
pub fn addr_laws()
    ensures reads_back { AddrsReadBack }
    ensures one_text { AddrsHaveOneText }
{}

/// Prefixes and their texts in CIDR notation. Texts whose host bits differ read as one prefix.
pub fn prefix_laws()
    ensures reads_back { PrefixesReadBack }
    ensures cleared { HostBitsAreCleared }
    ensures one_form { PrefixesHaveOneForm }
{}

/// Ranges of ports and their texts.
pub fn range_laws()
    ensures reads_back { RangesReadBack }
    ensures one_text { RangesHaveOneText }
{}
