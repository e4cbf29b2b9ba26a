//! What holds of all refusals, of cleared limits, and of calls at one stream for the others.
ghost use Rattle.iw_handle.specs.Elsewhere.{CallsGiveWorkToTheirOwnStream};
ghost use Rattle.iw_handle.specs.Limits.{ClearedSetsNone};
ghost use Rattle.iw_handle.specs.Refusals.{CodesAreDistinct};

/// No two refusals have the same code.
pub fn codes_are_distinct()
    ensures { CodesAreDistinct }
{}

/// Limits of which all but the size is cleared set none, and are not refused.
pub fn cleared_limits_set_none()
    ensures { ClearedSetsNone }
{}

/// A call gives work to no stream but its own: one at which `work` is idle and nothing is due stays so until a call on it,
/// whatever is done to other streams, to regions and to pools. So a program of many streams need not ask each.
pub fn calls_give_work_to_their_own_stream()
    ensures { CallsGiveWorkToTheirOwnStream }
{}
