//! What the calls of [`Islands`](crate::Islands) leave, said of each place of the stream.
ghost use Rattle.iw_ranges.specs.Laws.{KeepsFirstCopies, AddsPlaces, StaysCome, InOrderGrows};
ghost use Rattle.iw_ranges.specs.Laws.{GivesUpPlaces, GivesUpBefore, EmptiesPast};
ghost use Rattle.iw_ranges.specs.Nearest.{TellsPlaces, TellsNear, KnownPlaces};

/// Of an octet that came twice the first copy stays.
pub fn first_copies_stay()
    ensures { KeepsFirstCopies }
{}

/// The places of octets that are kept count as come, with those that came before.
pub fn segments_add_places()
    ensures { AddsPlaces }
{}

/// A release gives up the octets of its places and no other.
pub fn releases_give_up_their_places()
    ensures { GivesUpPlaces }
{}

/// Places that were given up still count as come.
pub fn released_places_stay_come()
    ensures { StaysCome }
{}

/// What lies before the in-order point is given up, and all else stays as it is.
pub fn the_in_order_point_gives_up_what_is_before()
    ensures { GivesUpBefore }
{}

/// Once what came past the in-order point is given up, no octet from there on counts as come.
pub fn nothing_stays_past_the_in_order_point()
    ensures { EmptiesPast }
{}

/// What came in order stands past the in-order point without a gap, and grows at its end with each delivery.
pub fn what_is_in_order_grows()
    ensures { InOrderGrows }
{}

/// Of the places near to one, no two have the same number.
pub fn numbers_tell_places()
    ensures { TellsPlaces }
{}

/// [`near`](crate::nearest::near) gives the nearest place, and for the number of a place of the stream that is near this one.
pub fn near_places_are_nearest()
    ensures { TellsNear }
{}

/// The definition gives worked places.
pub fn known_places()
    ensures { KnownPlaces }
{}
