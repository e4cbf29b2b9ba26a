ghost use Rattle.iw_untagged.specs.Laws.{NumbersFollow, PlacesThereAlone, BindsThereAlone};
ghost use Rattle.iw_untagged.specs.Laws.{KnownAnswers, PooledAnswers};

/// The oldest buffer is for the due message, and each next buffer for the next number, modulo 2^32 (RFC 5041 4.3).
pub fn numbers_follow()
    ensures { NumbersFollow }
{}

/// Placing a segment changes the octets that it names in the buffer that it names, and nothing else.
pub fn places_there_alone()
    ensures { PlacesThereAlone }
{}

/// Binding gives the pool's oldest buffer to a message that has none, and changes nothing else.
pub fn binds_there_alone()
    ensures { BindsThereAlone }
{}

/// Answers near the last message sequence number, computed by hand.
pub fn known_answers()
    ensures { KnownAnswers }
{}

/// Answers of queues that share a pool, computed by hand.
pub fn pooled_answers()
    ensures { PooledAnswers }
{}
