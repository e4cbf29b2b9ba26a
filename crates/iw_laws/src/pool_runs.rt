//! Runs that no two ends make, each refused by what one law says of streams that share a pool.

ghost use Rattle.iw_laws.specs.PoolRuns.{RefusesYoungestBound, RefusesTakenBound, RefusesForeignBound};
ghost use Rattle.iw_laws.specs.PoolRuns.{RefusesUnsharedBound, RefusesBoundElsewhere, RefusesPastBound};
ghost use Rattle.iw_laws.specs.PoolRuns.{RefusesLaterBound, RefusesOldestLeft, RefusesYoungestTaken};
ghost use Rattle.iw_laws.specs.PoolRuns.{RefusesTriedBound, RefusesFaultedBound, RefusesBoundTwice};
ghost use Rattle.iw_laws.specs.PoolRuns.{RefusesReceivedPooled, RefusesUnboundDropped, RefusesSharedAgain};
ghost use Rattle.iw_laws.specs.PoolRuns.{RefusesPooledUnshared, RefusesPooledOver, RefusesOpenedUnshared};
ghost use Rattle.iw_laws.specs.PoolRuns.{RefusesNumberTaken, RefusesIdleUnopened, RefusesOwnBuffers};
ghost use Rattle.iw_laws.specs.PoolRuns.{RefusesEndFirst, RefusesForeignTaken, RefusesDeniedPooled};
ghost use Rattle.iw_laws.specs.PoolRuns.{RefusesDeniedShort, RefusesRestPooled, RefusesTriedPooled};
ghost use Rattle.iw_laws.specs.PoolRuns.{RefusesPoolAskedAgain, RefusesPlacedAgain, RefusesOtherHandedOut};
ghost use Rattle.iw_laws.specs.PoolRuns.{RefusesOtherReceived, RefusesUncovered, RefusesUnboundReturned};
ghost use Rattle.iw_laws.specs.PoolRuns.{RefusesBoundKept, RefusesLaterFirst};

/// A message gets the oldest buffer of the pool, and not the youngest, even if only that has room.
pub fn refuses_youngest_bound()
    ensures { RefusesYoungestBound }
{}

/// No message gets a buffer that was taken back out of the pool.
pub fn refuses_taken_bound()
    ensures { RefusesTakenBound }
{}

/// No message gets a buffer out of the pool of another domain.
pub fn refuses_foreign_bound()
    ensures { RefusesForeignBound }
{}

/// A stream that has a queue of its own gets no buffer out of its domain's pool.
pub fn refuses_unshared_bound()
    ensures { RefusesUnsharedBound }
{}

/// No message gets a buffer that is bound to a message of another stream.
pub fn refuses_bound_elsewhere()
    ensures { RefusesBoundElsewhere }
{}

/// The rest of a message goes to the buffer that is bound to it, and not to the pool's oldest.
pub fn refuses_past_bound()
    ensures { RefusesPastBound }
{}

/// The buffer of a later message that came early is not given to an earlier one.
pub fn refuses_later_bound()
    ensures { RefusesLaterBound }
{}

/// The buffer that a message gets is the pool's oldest: the pool does not keep that.
pub fn refuses_oldest_left()
    ensures { RefusesOldestLeft }
{}

/// What is taken back out of a pool is its oldest buffer.
pub fn refuses_youngest_taken()
    ensures { RefusesYoungestTaken }
{}

/// A frame that is tried takes no buffer out of the pool.
pub fn refuses_tried_bound()
    ensures { RefusesTriedBound }
{}

/// A frame that has a fault takes no buffer out of the pool.
pub fn refuses_faulted_bound()
    ensures { RefusesFaultedBound }
{}

/// A message has one buffer, however many of its segments come.
pub fn refuses_bound_twice()
    ensures { RefusesBoundTwice }
{}

/// The buffer of a message that was received does not come back into the pool.
pub fn refuses_received_pooled()
    ensures { RefusesReceivedPooled }
{}

/// What is in the pool stays there when a stream ends.
pub fn refuses_unbound_dropped()
    ensures { RefusesUnboundDropped }
{}

/// A domain that has a pool gets no other one.
pub fn refuses_shared_again()
    ensures { RefusesSharedAgain }
{}

/// No buffer is posted to the pool of a domain that has none.
pub fn refuses_pooled_unshared()
    ensures { RefusesPooledUnshared }
{}

/// A pool of 1,024 buffers takes no other one.
pub fn refuses_pooled_over()
    ensures { RefusesPooledOver }
{}

/// No stream shares the pool of a domain that has none.
pub fn refuses_opened_unshared()
    ensures { RefusesOpenedUnshared }
{}

/// The number of a stream that shares a pool is taken.
pub fn refuses_number_taken()
    ensures { RefusesNumberTaken }
{}

/// A stream whose domain had no pool to share was not opened: it does nothing, not even rest.
pub fn refuses_idle_unopened()
    ensures { RefusesIdleUnopened }
{}

/// No buffer is posted to a stream that shares a pool.
pub fn refuses_own_buffers()
    ensures { RefusesOwnBuffers }
{}

/// That a stream shares a pool is named before that it has ended.
pub fn refuses_end_first()
    ensures { RefusesEndFirst }
{}

/// No buffer is taken back out of the pool of another domain.
pub fn refuses_foreign_taken()
    ensures { RefusesForeignTaken }
{}

/// A Send whose message has no buffer is not at fault while the pool has one with room.
pub fn refuses_denied_pooled()
    ensures { RefusesDeniedPooled }
{}

/// If the pool's oldest buffer has no room for a Send, that is the fault, and not that there is no buffer.
pub fn refuses_denied_short()
    ensures { RefusesDeniedShort }
{}

/// A stream does not rest while a Send of its is whole and the pool has a buffer.
pub fn refuses_rest_pooled()
    ensures { RefusesRestPooled }
{}

/// A Send that came early is placed then if the pool's oldest buffer has room for it.
pub fn refuses_tried_pooled()
    ensures { RefusesTriedPooled }
{}

/// A Send that was placed needs no other buffer at its turn.
pub fn refuses_pool_asked_again()
    ensures { RefusesPoolAskedAgain }
{}

/// A Send's frame is not placed again in another buffer of the pool.
pub fn refuses_placed_again()
    ensures { RefusesPlacedAgain }
{}

/// No stream hands out what was placed in a buffer that is bound to another stream's message.
pub fn refuses_other_handed_out()
    ensures { RefusesOtherHandedOut }
{}

/// On an honest stream no Send of another stream is received, though both share a pool.
pub fn refuses_other_received()
    ensures { RefusesOtherReceived }
{}

/// On an honest stream that shares a pool no Send is received before the Write in front of it was placed.
pub fn refuses_uncovered()
    ensures { RefusesUncovered }
{}

/// A stream that ends hands back no buffer that is bound to none of its messages.
pub fn refuses_unbound_returned()
    ensures { RefusesUnboundReturned }
{}

/// A stream that ends hands back the buffers that are bound to its messages.
pub fn refuses_bound_kept()
    ensures { RefusesBoundKept }
{}

/// A stream that ends hands back the bound buffers in the order of their messages, whichever was bound first.
pub fn refuses_later_first()
    ensures { RefusesLaterFirst }
{}
