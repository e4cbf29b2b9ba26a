//! Runs of streams by revision 2 of MPA (RFC 6581) that no two ends make, each refused by one law of a trace alone.

ghost use Rattle.iw_laws.specs.EnhancedRuns.{RefusesReadPosted, RefusesReadPastOrd, RefusesOpenedUnfit};
ghost use Rattle.iw_laws.specs.EnhancedRuns.{RefusesFaultFit, RefusesHiddenWord};
ghost use Rattle.iw_laws.specs.EnhancedRuns.{RefusesLongAnswer, RefusesLongRequest};
ghost use Rattle.iw_laws.specs.EnhancedRuns.{RefusesRtrOvertaken, RefusesResponseBeforeRtr};
ghost use Rattle.iw_laws.specs.EnhancedRuns.{RefusesRtrWithheld, RefusesDoneByRtr};

/// A Read is not taken if the peer takes none.
pub fn refuses_read_posted()
    ensures { RefusesReadPosted }
{}

/// Nor does one go out.
pub fn refuses_read_past_ord()
    ensures { RefusesReadPastOrd }
{}

/// A Reply that wants 17 Reads at once does not open the stream.
pub fn refuses_opened_unfit()
    ensures { RefusesOpenedUnfit }
{}

/// One that wants 16 does not end it.
pub fn refuses_fault_fit()
    ensures { RefusesFaultFit }
{}

/// The word of a Request is shown.
pub fn refuses_hidden_word()
    ensures { RefusesHiddenWord }
{}

/// Beside a word, an answer has no room for 509 octets of private data.
pub fn refuses_long_answer()
    ensures { RefusesLongAnswer }
{}

/// Nor has a Request.
pub fn refuses_long_request()
    ensures { RefusesLongRequest }
{}

/// No message goes out before the RTR.
pub fn refuses_rtr_overtaken()
    ensures { RefusesRtrOvertaken }
{}

/// Nor does a response.
pub fn refuses_response_before_rtr()
    ensures { RefusesResponseBeforeRtr }
{}

/// The RTR is not held back.
pub fn refuses_rtr_withheld()
    ensures { RefusesRtrWithheld }
{}

/// The response to an RTR that is a Read finishes no Read that was posted.
pub fn refuses_done_by_rtr()
    ensures { RefusesDoneByRtr }
{}
