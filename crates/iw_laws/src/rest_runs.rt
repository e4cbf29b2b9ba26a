//! Runs that no two ends make, each refused by a law of streams at rest.

ghost use Rattle.iw_laws.specs.RestRuns.{RefusesNothingReceived, RefusesUnsentReceived, RefusesNothingPlaced, RefusesNothingAsked, RefusesNoRest, KnowsSentWhole};

/// A Send whose frames came whole is received before there is nothing to do.
pub fn refuses_nothing_received()
    ensures { RefusesNothingReceived }
{}

/// A Send is not received whose frames were not sent.
pub fn refuses_unsent_received()
    ensures { RefusesUnsentReceived }
{}

/// A Write whose frames came whole is placed before there is nothing to do.
pub fn refuses_nothing_placed()
    ensures { RefusesNothingPlaced }
{}

/// A Read whose request came whole is taken up before there is nothing to do.
pub fn refuses_nothing_asked()
    ensures { RefusesNothingAsked }
{}

/// Of two Sends, the frame of the first of which went out, the first alone was sent whole.
pub fn knows_sent_whole()
    ensures { KnowsSentWhole }
{}

/// Work does not answer that something was done again and again, though nothing came.
pub fn refuses_no_rest()
    ensures { RefusesNoRest }
{}
