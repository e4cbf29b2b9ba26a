ghost use Rattle.iw_reads.specs.Laws.{AnswersAreAskedFor, ChecksTell};
ghost use Rattle.iw_reads.specs.Laws.{AnswersInOrder, KnownResponses, PartsMayBeFetched, ResponsesAreWhole};

/// The parts of a response, joined, are all octets that were asked for.
pub fn responses_are_whole()
    ensures { ResponsesAreWhole }
{}

/// Responses are fetched part by part, each whole, in the order of the requests (RFC 5040 5.2.2).
pub fn answers_in_order()
    ensures { AnswersInOrder }
{}

/// While a region stays as it is, a request that passes its checks passes those of each part.
pub fn parts_may_be_fetched()
    ensures { PartsMayBeFetched }
{}

/// What one end answers is what the other asked for: each part passes the checks there when it is placed, and at its
/// turn.
pub fn answers_are_asked_for()
    ensures { AnswersAreAskedFor }
{}

/// `check` of [`Reads`](crate::Reads) passes exactly what was asked for, and `turn` exactly what goes on with the response
/// of the oldest Read.
pub fn checks_tell()
    ensures { ChecksTell }
{}

/// Responses worked by hand.
pub fn known_responses()
    ensures { KnownResponses }
{}
