//! Runs of ends that serve any number of connections keep the laws.
//!
//! Such a run also opens streams under numbers that it is given, reads in place, registers regions for one stream alone, and
//! closes streams ([`iw_events::ServerEntry`]). Two streams, one at each end, are connected if they belong to one connection, whatever
//! numbers they have. The run follows the rules if each answer is that of the endpoint in the state that the entries before
//! leave. What it tells, in words of schedules, is what it did: each stream under the name of its connection, opened where
//! it was given its number, each read as the delivery that it is, and of a close, and of a region for one stream, nothing.

ghost use Rattle.iw_laws.specs.ServerLaws.{OfServers, OfUnlimited, OfServerRuns, OfConnections, GivesOnce, ClosedIsOver, CloseLeavesOthers, CloseLeavesRegions};
ghost use Rattle.iw_laws.specs.Safe.{InOrder, Covered, Within};
ghost use Rattle.iw_laws.specs.Faithful.{Faithful, Answering};
ghost use Rattle.iw_laws.specs.Sends.{Emission, Sized, Speaks, NothingOnlyAtRest, Finished, FewReads};
ghost use Rattle.iw_laws.specs.Turns.{Turns};
ghost use Rattle.iw_laws.specs.Rest.{IdleOnlyAtRest};
ghost use Rattle.iw_laws.specs.AtRest.{AllArrived};
ghost use Rattle.iw_laws.specs.Busy.{WorkComesToRest};
ghost use Rattle.iw_laws.specs.Holds.{HoldsWritten, HoldsFetched};
ghost use Rattle.iw_laws.specs.Early.{JudgesEarly, ChecksOnce};
ghost use Rattle.iw_laws.specs.Once.{PlacesOnce, NonePlacedTwice};
ghost use Rattle.iw_laws.specs.Ends.{Ends};
ghost use Rattle.iw_laws.specs.Calls.{Answered, KeepsOctets, CarriesOctets, OpensFirst};
ghost use Rattle.iw_laws.specs.Plain.{ShowsRegions};
ghost use Rattle.iw_laws.specs.ServerRegions.{OfServerRegions, WithinAs, FetchAs, TurnsAs, EarlyAs, SecondAs, PlacedAs};
ghost use Rattle.iw_laws.specs.ServerMemory.{ServerShowsMemory};
ghost use Rattle.iw_laws.specs.ServerHolds.{ServerHoldsWritten, ServerHoldsFetched};
ghost use Rattle.iw_laws.specs.ServerIsolated.{ServerIsolated};

/// Each law of schedules that names a stream, and does not speak of the regions as they stand, holds of the streams of servers,
/// whatever their numbers, and whichever streams are connected.
pub fn keep_the_laws()
    // What was received is a prefix of what was sent.
    ensures in_order { OfServers InOrder }
    // When a Send is received, each octet of the Writes before it was placed, and none more often than it was posted.
    ensures covered { OfServers Covered }
    // What was sent is the frames of the posted messages and of the responses to the peer's Reads, no two of them mingled;
    // and after them a Terminate, if one was sent.
    ensures emission { OfServers Emission }
    // Each frame follows what was sent before, and keeps to the maximum ULPDU that was set last.
    ensures sized { OfServers Sized }
    // Start-up frame and Terminate aside, a frame is sent only if the stream is open, has not ended and need not keep
    // silent.
    ensures speaks { OfServers Speaks }
    // Emit answers nothing only if all was sent, or all before a Read that waits, and no Terminate is due.
    ensures nothing { OfServers NothingOnlyAtRest }
    // A message that is done is the oldest that was not handed back, and all its segments were sent; a Read that is done
    // was answered.
    ensures finished { OfServers Finished }
    // Each act of a stream comes after its opening, and a delivery after both.
    ensures opened { OfServers OpensFirst }
    // The octets of a delivery from the other end are those that it sent.
    ensures carried { OfServers CarriesOctets }
    // Octets that come are kept, unless the stream has ended or there is no room for them.
    ensures kept { OfServers KeepsOctets }
    // No two frames that were placed overlap.
    ensures none_twice { OfServers NonePlacedTwice }
    // Work answers idle only if no frame can be judged or have its turn, and no message can be handed back.
    ensures idle { OfServers IdleOnlyAtRest }
    // Then, if all came that the other end sent, all messages have arrived that it sent whole.
    ensures arrived { OfServers AllArrived }
    // Of steps of work one after another, so many at most are not idle, unless the stream ends.
    ensures rests { OfServers WorkComesToRest }
    // A stream that has ended hands back what was posted, the messages first, and sends only what is still due.
    ensures ended { OfServers Ends }
    // When a Read is done, each octet of its response was placed, and none too often.
    ensures answering { OfServers Answering }
    // No Read goes out while as many are outstanding as both ends agreed on.
    ensures few_reads { OfServers FewReads }
    // Each call on a stream is refused exactly when it must be.
    ensures answered { OfServers Answered }
{}

/// The laws of single acts that speak of the regions hold by the regions as they stand, those that are limited to one stream
/// too.
pub fn keep_the_laws_by_regions()
    // Every octet that a stream changed lay where it was allowed to.
    ensures within { OfServerRegions WithinAs }
    // A Read Response has only octets that were fetched for it: the current contents of what the peer asked for, if it may
    // read them.
    ensures faithful { OfServerRegions FetchAs }
    // Each frame that came is judged, and has its turn, in order, while the stream is open and has not ended.
    ensures turns { OfServerRegions TurnsAs }
    // If work answers idle, no frame is left that could be judged before its turn. A frame judged so is placed at once, or
    // left.
    ensures early { OfServerRegions EarlyAs }
    // A frame that was placed is not checked again at its turn, except for the order of segments.
    ensures no_second_check { OfServerRegions SecondAs }
    // Each placement is that of the frame that is judged then.
    ensures placed { OfServerRegions PlacedAs }
    // Each call on regions or pools, each opening, each registration and each close is answered by the regions, the pools
    // and the streams as they stand: so a stream that is closed has ended, holds nothing, and has no more to send.
    ensures memory { OfConnections ServerShowsMemory }
    // When a Send is received, the octets of the Writes before it stand where they were written; when a Read is done,
    // those that were fetched for it stand at its sink; unless others were put there.
    ensures holds_written { OfConnections ServerHoldsWritten }
    ensures holds_fetched { OfConnections ServerHoldsFetched }
{}

/// The acts of an end that concern a domain are answered as where no other domain is, if no number that the application picks is
/// asked for in two domains.
pub fn keep_domains_apart()
    ensures { OfServerRuns ServerIsolated }
{}

/// In words of schedules, which tell nothing of a region that is limited to one stream, the laws that speak of regions hold of
/// the servers' runs in which none was registered.
pub fn keep_the_laws_unlimited()
    // Each frame that came is judged, and has its turn, as the regions then say.
    ensures turns { OfUnlimited Turns }
    // If work answers idle, no frame is left that could be judged before its turn. A frame judged so is placed at once, or
    // left.
    ensures early { OfUnlimited JudgesEarly }
    // A frame that was placed is not checked again at its turn, except for the order of segments.
    ensures no_second_check { OfUnlimited ChecksOnce }
    // Each placement is that of another frame, and no two of these frames overlap.
    ensures once { OfUnlimited PlacesOnce }
    // Every octet that a stream changed lay where it was allowed to.
    ensures within { OfUnlimited Within }
    // A Read Response has only octets that were fetched for it: the current contents of what the peer asked for, if it may
    // read them.
    ensures faithful { OfUnlimited Faithful }
    // When a Send is received, the octets of the Writes before it stand where they were written; when a Read is done,
    // those that were fetched for it stand at its sink; unless others were put there.
    ensures holds_written { OfUnlimited HoldsWritten }
    ensures holds_fetched { OfUnlimited HoldsFetched }
    // Each call on regions or pools is answered by them, as the entries before it leave them.
    ensures regions { OfUnlimited ShowsRegions }
{}

/// A stream number is opened at most once at an end, whether the application picks it or is given it.
pub fn give_numbers_once()
    ensures { OfServerRuns GivesOnce }
{}

/// Once a stream was closed, nothing is told of its number: it is not opened, no call is made on it, no region is registered
/// for it, and it is not closed again.
pub fn close_for_good()
    ensures { OfServerRuns ClosedIsOver }
{}

/// A close takes one stream away, and puts the regions out of use that are limited to it. All other regions, the pools and all
/// other streams are as they were.
pub fn close_leaves_others()
    ensures others { CloseLeavesOthers }
    // Where no region is limited to one stream, all regions are as they were.
    ensures regions { CloseLeavesRegions }
{}
