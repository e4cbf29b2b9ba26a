ghost use Rattle.iw_tagged.specs.Laws.{PartsCover, KnownParts, PassesWhereAllowed};

/// The parts of a message cover it, in order and without a gap. No part is empty, except that of an empty message.
pub fn parts_cover()
    ensures { PartsCover }
{}

/// Parts computed by hand.
pub fn known_parts()
    ensures { KnownParts }
{}

/// `check` answers `Ok` exactly if the peer may use the region so (RFC 5042).
pub fn passes_where_allowed()
    ensures { PassesWhereAllowed }
{}
