//! What holds of all tables of regions: what each call changes, and what peers may use.
ghost use Rattle.iw_memory.specs.Laws.{PutChangesOneRegion, PutNothing, InvalidateChangesOneRegion};
ghost use Rattle.iw_memory.specs.Laws.{RegisterChangesOneStag, DeregisterChangesOneStag};
ghost use Rattle.iw_memory.specs.Laws.{DrawChangesOneStag, LastIsNotDrawn, EachIsDrawn};
ghost use Rattle.iw_memory.specs.Laws.{DrawsAreApart, RegisterTakesTheNext, DrawsAreKnown};
ghost use Rattle.iw_memory.specs.Laws.{DeniesRest, DomainsAreApart, KnownScopes};
ghost use Rattle.iw_memory.specs.Laws.{OutOfScopeLooksForeign, OutOfScopeIsKept, OutOfScopeIsHidden, RetireEndsScope};

/// What is not denied is allowed, and the other way round.
pub fn denies_rest()
    ensures { DeniesRest }
{}

/// What is put changes one region and no other, and each region keeps its length.
pub fn put_changes_one_region()
    ensures { PutChangesOneRegion }
{}

/// With no octets the table stays, whatever the STag.
pub fn put_nothing()
    ensures { PutNothing }
{}

/// An invalidation changes one region and no other.
pub fn invalidate_changes_one_region()
    ensures { InvalidateChangesOneRegion }
{}

/// A registration changes what one STag names, and no other.
pub fn register_changes_one_stag()
    ensures { RegisterChangesOneStag }
{}

/// A registration under an STag that is drawn changes what this STag names, which named nothing before, and no other.
pub fn draw_changes_one_stag()
    ensures { DrawChangesOneStag }
{}

/// An STag whose region was taken out is not drawn again before its slot was used under another key.
pub fn last_is_not_drawn()
    ensures { LastIsNotDrawn }
{}

/// Each STag whose slot has no region, and was not used under this key last, is drawn by some number.
pub fn each_is_drawn()
    ensures { EachIsDrawn }
{}

/// What is drawn for a domain depends on its own part alone, and a registration under it changes no other part.
pub fn draws_are_apart()
    ensures { DrawsAreApart }
{}

/// `register` registers under the lowest free slot's next key.
pub fn register_takes_the_next()
    ensures { RegisterTakesTheNext }
{}

/// STags that are drawn, worked by hand.
pub fn known_draws()
    ensures { DrawsAreKnown }
{}

/// A deregistration changes what one STag names, and no other.
pub fn deregister_changes_one_stag()
    ensures { DeregisterChangesOneStag }
{}

/// What a domain is answered and what its calls leave depends on its own part alone, and changes no other part.
pub fn domains_are_apart()
    ensures { DomainsAreApart }
{}

/// To the peer of another stream, a region that is limited to one stream looks as a region of another domain: the
/// answers are the same, whatever else holds (RFC 5042 6.1.1).
pub fn out_of_scope_looks_foreign()
    ensures { OutOfScopeLooksForeign }
{}

/// Whatever the peer of another stream may do leaves a region that is limited to one stream as it was.
pub fn out_of_scope_is_kept()
    ensures { OutOfScopeIsKept }
{}

/// No answer, and no octets that a peer may read, depend on a region that is limited to another stream.
pub fn out_of_scope_is_hidden()
    ensures { OutOfScopeIsHidden }
{}

/// `retire` puts the regions that are limited to the stream out of use, and changes nothing else.
pub fn retire_ends_scope()
    ensures { RetireEndsScope }
{}

/// Which streams are in the scope of a region, worked by hand.
pub fn known_scopes()
    ensures { KnownScopes }
{}
