//! Runs that no two ends make, each refused by a law of frames that are placed before their turn, or once.

ghost use Rattle.iw_laws.specs.EarlyRuns.{RefusesIdleWhileFree, RefusesTriedSend, RefusesSecondCheck, RefusesSecondPlacement};

/// A stream is not idle while a frame can be judged before its turn.
pub fn refuses_idle_while_free()
    ensures { RefusesIdleWhileFree }
{}

/// A Send that passes its checks before its turn is placed in its buffer then.
pub fn refuses_tried_send()
    ensures { RefusesTriedSend }
{}

/// A frame that was placed is not checked again, though its region was invalidated since.
pub fn refuses_second_check()
    ensures { RefusesSecondCheck }
{}

/// A frame is not placed a second time.
pub fn refuses_second_placement()
    ensures { RefusesSecondPlacement }
{}
