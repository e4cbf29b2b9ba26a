//! Runs that no two ends make, each refused by a law of what stands in a region.

ghost use Rattle.iw_laws.specs.HeldRuns.{RefusesOtherWritten, RefusesOtherWrittenAnew, RefusesOtherFetched, KnowsTouches};

/// When a Send is received, the octets of a Write before it stand where they were written.
pub fn refuses_other_written()
    ensures { RefusesOtherWritten }
{}

/// Nor do others, where the place was written before for a Send that had been received.
pub fn refuses_other_written_anew()
    ensures { RefusesOtherWrittenAnew }
{}

/// When a Read is done, the octets that were fetched for it stand at its sink.
pub fn refuses_other_fetched()
    ensures { RefusesOtherFetched }
{}

/// Which acts touch an octet of a region, worked by hand.
pub fn knows_touches()
    ensures { KnowsTouches }
{}
