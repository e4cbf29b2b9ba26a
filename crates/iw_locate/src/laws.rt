//! What is so of records and of free places whatever is called.
ghost use Rattle.iw_locate.specs.Known.{KnownPlaces};
ghost use Rattle.iw_locate.specs.Keeping.{KeptCanLocate, NoRecordKeeps};
ghost use Rattle.iw_locate.specs.Keeping.{EverythingTells, NothingTells, StartUpTells};
ghost use Rattle.iw_locate.specs.Keeping.{JudgingKeeps, DeliveryKeeps, ReleaseKeeps, TurnKeeps, GivingUpKeeps};
ghost use Rattle.iw_locate.specs.Lowest.{LowestIsTold, OverlapsAreTold};
ghost use Rattle.iw_locate.specs.Laws.{AddsOne, KeepsFrom, NextIsOne, ReleasesLoseNothing};

/// What is added is one record more.
pub fn added_records_are_one_more<T>()
    ensures { AddsOne T }
{}

/// What is kept are the records of the frames whose spans begin at the place or past it.
pub fn kept_records_begin_there<T>()
    ensures { KeepsFrom T }
{}

/// Octets of placed frames that were given up, and the markers in these frames, say nothing of free places: those that there
/// are without them are those that there are by all that came.
pub fn releases_lose_nothing<T>()
    ensures { ReleasesLoseNothing T }
{}

/// The definitions give worked values of places, wholeness and pointers.
pub fn known_values()
    ensures { KnownPlaces }
{}

/// What is kept lets frames be looked for, while the frame at the in-order point was not placed.
pub fn kept_can_locate<T>()
    ensures { KeptCanLocate T }
{}

/// It holds while there is no record.
pub fn no_record_keeps<T>()
    ensures { NoRecordKeeps T }
{}

/// [`Unsearched::everything`](crate::Unsearched::everything) tells of any direction.
pub fn everything_tells<T>()
    ensures { EverythingTells T }
{}

/// [`Unsearched::nothing`](crate::Unsearched::nothing) tells of a direction of which no octet came.
pub fn nothing_tells<T>()
    ensures { NothingTells T }
{}

/// What is unsearched still tells once the end of the start-up frame is known, which
/// [`Unsearched::start_up_ended`](crate::Unsearched::start_up_ended) was told.
pub fn the_end_of_a_start_up_frame_tells<T>()
    ensures { StartUpTells T }
{}

/// It holds once a record of the frame that was answered is added; and what is unsearched tells of that too, whether
/// [`Unsearched::recorded`](crate::Unsearched::recorded) was told or not.
pub fn judging_keeps<T>()
    ensures { JudgingKeeps T }
{}

/// Once a segment was kept, which [`Unsearched::delivered`](crate::Unsearched::delivered) was told.
pub fn a_delivery_keeps<T>()
    ensures { DeliveryKeeps T }
{}

/// Once octets of a placed frame were given up.
pub fn a_release_keeps<T>()
    ensures { ReleaseKeeps T }
{}

/// Once the in-order point moved on, which [`Unsearched::passed`](crate::Unsearched::passed) was told before, and the records
/// that lie before it were dropped.
pub fn a_turn_keeps<T>()
    ensures { TurnKeeps T }
{}

/// Once what came past the in-order point was given up, and every record, which
/// [`Unsearched::gave_up`](crate::Unsearched::gave_up) was told. Then nothing can be judged until more comes.
pub fn giving_up_keeps<T>()
    ensures { GivingUpKeeps T }
{}

/// There is one answer: it hangs on how the direction is laid out, what came from the in-order point on, and the records.
pub fn next_is_one<T>()
    ensures { NextIsOne T }
{}

/// The lowest place where a frame can be judged early can be worked out.
pub fn the_lowest_free_place_is_told<T>()
    ensures { LowestIsTold T }
{}

/// So can whether a frame overlaps one that was placed.
pub fn overlaps_are_told<T>()
    ensures { OverlapsAreTold T }
{}
