//! Runs of servers that no two ends make, each refused by one law of a trace alone, beside that every answer follows the
//! rules.

ghost use Rattle.iw_laws.specs.ServerRuns.{RefusesRestClosed, RefusesClosedTwice, RefusesGivenTwice};
ghost use Rattle.iw_laws.specs.ServerRuns.{RefusesPickedClosed, RefusesSkippedGiven};
ghost use Rattle.iw_laws.specs.ServerRuns.{RefusesLimitedClosed, RefusesSkippedLimited, RefusesWrittenElsewhere};
ghost use Rattle.iw_laws.specs.ServerRuns.{RefusesClosedHolding, RefusesNeverClosed, RefusesLimitedTaken, RefusesDomainDenied};
ghost use Rattle.iw_laws.specs.ServerRuns.{RefusesNumberDenied, RefusesDomainsNumbered, RefusesWrittenLimited};

/// A stream that was closed does not rest.
pub fn refuses_rest_closed()
    ensures { RefusesRestClosed }
{}

/// No stream is closed twice.
pub fn refuses_closed_twice()
    ensures { RefusesClosedTwice }
{}

/// No number is given twice, not even when its stream was closed.
pub fn refuses_given_twice()
    ensures { RefusesGivenTwice }
{}

/// The application does not pick the number of a stream that was closed.
pub fn refuses_picked_closed()
    ensures { RefusesPickedClosed }
{}

/// Of two Sends the second is not received in place of the first, on a stream that was given its number either.
pub fn refuses_skipped_given()
    ensures { RefusesSkippedGiven }
{}

/// No region is registered for a stream that was closed.
pub fn refuses_limited_closed()
    ensures { RefusesLimitedClosed }
{}

/// Of two Sends the second is not received in place of the first, where a region is limited to the stream either.
pub fn refuses_skipped_limited()
    ensures { RefusesSkippedLimited }
{}

/// No octets of one stream are placed in a region that is limited to another.
pub fn refuses_written_elsewhere()
    ensures { RefusesWrittenElsewhere }
{}

/// No stream is closed before what was posted is handed back.
pub fn refuses_closed_holding()
    ensures { RefusesClosedHolding }
{}

/// A stream that has ended, and holds nothing, is closed.
pub fn refuses_never_closed()
    ensures { RefusesNeverClosed }
{}

/// No region for one stream has the STag of another region.
pub fn refuses_limited_taken()
    ensures { RefusesLimitedTaken }
{}

/// No stream is refused for a domain that is there.
pub fn refuses_domain_denied()
    ensures { RefusesDomainDenied }
{}

/// Nor for a number that no stream has.
pub fn refuses_number_denied()
    ensures { RefusesNumberDenied }
{}

/// The slots of one domain are not counted on in another.
pub fn refuses_domains_numbered()
    ensures { RefusesDomainsNumbered }
{}

/// In a region that is limited to a stream, too, the octets of a Write stand where they were written once a Send behind it is
/// received.
pub fn refuses_written_limited()
    ensures { RefusesWrittenLimited }
{}
