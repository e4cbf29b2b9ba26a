//! Both ends, and runs of events.

ghost use Rattle.std.specs.Prelude.{◌≡◌, ℕ, ◌+◌, ◌<◌, ◌≤◌, ◌^◌, [], map, length, IfOk, IfErr, OnOk};
ghost use Rattle.iw_events.specs.Events.{event_of};
ghost use Rattle.iw_laws.specs.Words.{other};
ghost use Rattle.iw_laws.specs.Rules.{start, after_entry, end_of, Rule, Follows};
ghost use Rattle.iw_laws.specs.Safe.{InOrder, Covered, Within};
ghost use Rattle.iw_laws.specs.Faithful.{Faithful, Answering};
ghost use Rattle.iw_laws.specs.Sends.{Emission, Sized, Speaks, NothingOnlyAtRest, Finished, FewReads};
ghost use Rattle.iw_laws.specs.Turns.{Turns};
ghost use Rattle.iw_laws.specs.Rest.{IdleOnlyAtRest};
ghost use Rattle.iw_laws.specs.AtRest.{AllArrived};
ghost use Rattle.iw_laws.specs.Busy.{WorkComesToRest};
ghost use Rattle.iw_laws.specs.Holds.{HoldsWritten, HoldsFetched};
ghost use Rattle.iw_laws.specs.Early.{JudgesEarly, ChecksOnce};
ghost use Rattle.iw_laws.specs.Once.{PlacesOnce, NonePlacedTwice};
ghost use Rattle.iw_laws.specs.Ends.{Ends};
ghost use Rattle.iw_laws.specs.Calls.{ShowsMemory, Answered, KeepsOctets, CarriesOctets, OpensFirst};
ghost use Rattle.iw_laws.specs.Isolated.{Isolated};
ghost use Rattle.iw_laws.specs.Bounds.{IsShortState, LacksStream, AsksTooMuch};
ghost use Rattle.iw_laws.specs.Stops.{StopsAt};
ghost use Rattle.iw_events.specs.Servers.{server_event_of};
ghost use Rattle.iw_laws.specs.Plain.{ShowsRegions};
ghost use Rattle.iw_laws.specs.Servers.{told, ServerRule, ServerFollows, after_server_entry};
ghost use Rattle.iw_laws.specs.ServerLaws.{by_number, NoneLimited, GivesOnce, ClosedIsOver};
ghost use Rattle.iw_laws.specs.ServerStops.{LacksServerStream, AsksServerTooMuch, ServerStopsAt};

use crate::fault::Failure;
use crate::host::Host;
use bytes::Bytes;
use iw_events::{End, Entry, Event, ServerEntry, ServerEvent};
use iw_laws::WorldFault;
use std::alloc::{AllocError, Allocator, Global};
use std::marker::Model;

/// Two ends. Streams of the same number are connected.
#[derive(Drop)]
pub struct World<A: Allocator = Global> {
    a: Host<A>,
    b: Host<A>,
    alloc: A,
}

impl<A: Allocator> Model for World<A> {
    ghost use Rattle.iw_laws.specs.Rules.{State};

    ghost Value = { State };

    ghost view = { λ w. record { a = w.a; b = w.b } };
}

impl<A: Allocator + Copy> World<A> {
    fn new(alloc: A) -> Result<World<A>, AllocError>
        ensures { IfOk result (λ world. world ≡ start) }
    {
        Ok(World {
            a: Host::new(alloc)?,
            b: Host::new(alloc)?,
            alloc,
        })
    }

    // Makes the call of one event.
    fn happen(&mut self, event: &Event<Bytes<A>>) -> Result<Entry<Bytes<A>>, Failure>
        requires { IsShortState self.old }
        ensures rule { IfOk result (λ e. Rule (end_of e.end self.old) (end_of (other e.end) self.old) e.act) }
        ensures event { IfOk result (λ e. event_of e ≡ event.now) }
        ensures state { IfOk result (λ e. self.new ≡ after_entry self.old e) }
        ensures no_stream { result ≡ Err Failure.NoSuchStream
            → LacksStream (end_of event.now.end self.old) (end_of (other event.now.end) self.old) event.now.call }
        ensures not_sent { result ≡ Err Failure.NotSent
            → AsksTooMuch (end_of event.now.end self.old) (end_of (other event.now.end) self.old) event.now.call }
    {
        match event.end {
            End::A => {
                let act = self.a.act(self.alloc, &self.b, &event.call)?;
                Ok(Entry { end: End::A, act })
            }
            End::B => {
                let act = self.b.act(self.alloc, &self.a, &event.call)?;
                Ok(Entry { end: End::B, act })
            }
        }
    }

    /// The trace of these events, in order, at two new ends, with no domain, region or stream.
    ///
    /// Every event has one entry, even if its call is refused. There is no trace if an event names a stream that was
    /// never opened, or delivers octets that were not emitted (the `Err` has its number, counted from 1), or if memory
    /// runs out.
    pub fn run(alloc: A, events: &[Event<Bytes<A>>]) -> Result<Vec<Entry<Bytes<A>>, A>, WorldFault>
        requires { length events.now ≤ 2 ^ 45 }
        ensures events { IfOk result (λ trace. map event_of trace.items ≡ events.now) }
        ensures follows { IfOk result (λ trace. Follows start trace.items) }
        // What was received is a prefix of what was sent.
        ensures in_order { IfOk result (λ trace. InOrder trace.items) }
        // When a Send is received, each octet of the Writes before it was placed, and none more often than it was
        // posted.
        ensures covered { IfOk result (λ trace. Covered trace.items) }
        // What was sent is the frames of the posted messages and of the responses to the peer's Reads, no two of them
        // mingled; and after them a Terminate, if one was sent.
        ensures emission { IfOk result (λ trace. Emission trace.items) }
        // Each frame follows what was sent before, and keeps to the maximum ULPDU that was set last.
        ensures sized { IfOk result (λ trace. Sized trace.items) }
        // Start-up frame and Terminate aside, a frame is sent only if the stream is open, has not ended and need not
        // keep silent.
        ensures speaks { IfOk result (λ trace. Speaks trace.items) }
        // Emit answers nothing only if all was sent, or all before a Read that waits, and no Terminate is due.
        ensures nothing { IfOk result (λ trace. NothingOnlyAtRest trace.items) }
        // A message that is done is the oldest that was not handed back, and all its segments were sent; a Read that is
        // done was answered.
        ensures finished { IfOk result (λ trace. Finished trace.items) }
        // Each act of a stream comes after its opening, and a delivery after both.
        ensures opened { IfOk result (λ trace. OpensFirst trace.items) }
        // The octets of a delivery from the other end are those that it sent.
        ensures carried { IfOk result (λ trace. CarriesOctets trace.items) }
        // Octets that come are kept, unless the stream has ended or there is no room for them.
        ensures kept { IfOk result (λ trace. KeepsOctets trace.items) }
        // Each frame that came is judged, and has its turn, in order, while the stream is open and has not ended.
        ensures turns { IfOk result (λ trace. Turns trace.items) }
        // Work answers idle only if no frame can be judged or have its turn, and no message can be handed back.
        ensures idle { IfOk result (λ trace. IdleOnlyAtRest trace.items) }
        // Then, if all came that the other end sent, all messages have arrived that it sent whole.
        ensures arrived { IfOk result (λ trace. AllArrived trace.items) }
        // Of steps of work one after another, so many at most are not idle, unless the stream ends.
        ensures rests { IfOk result (λ trace. WorkComesToRest trace.items) }
        // Then no frame is left that could be judged before its turn. A frame judged so is placed at once, or left.
        ensures early { IfOk result (λ trace. JudgesEarly trace.items) }
        // A frame that was placed is not checked again at its turn, except for the order of segments.
        ensures no_second_check { IfOk result (λ trace. ChecksOnce trace.items) }
        // Each placement is that of another frame, and no two of these frames overlap.
        ensures once { IfOk result (λ trace. PlacesOnce trace.items) }
        // A stream that has ended hands back what was posted, the messages first, and sends only what is still due.
        ensures ended { IfOk result (λ trace. Ends trace.items) }
        // Every octet that a stream changed lay where it was allowed to.
        ensures within { IfOk result (λ trace. Within trace.items) }
        // A Read Response has only octets that were fetched for it: the current contents of what the peer asked for, if
        // it may read them.
        ensures faithful { IfOk result (λ trace. Faithful trace.items) }
        // When a Read is done, each octet of its response was placed, and none too often.
        ensures answering { IfOk result (λ trace. Answering trace.items) }
        // When a Send is received, the octets of the Writes before it stand where they were written; when a Read is done,
        // those that were fetched for it stand at its sink; unless others were put there.
        ensures holds_written { IfOk result (λ trace. HoldsWritten trace.items) }
        ensures holds_fetched { IfOk result (λ trace. HoldsFetched trace.items) }
        // No Read goes out while as many are outstanding as both ends agreed on.
        ensures few_reads { IfOk result (λ trace. FewReads trace.items) }
        // Each call at an end is answered by its regions, pools and streams, as the entries before it leave them.
        ensures memory { IfOk result (λ trace. ShowsMemory trace.items) }
        // Each call on a stream is refused exactly when it must be.
        ensures answered { IfOk result (λ trace. Answered trace.items) }
        // Each domain of an end gets the answers that it would get if there were no other domain.
        ensures isolated { IfOk result (λ trace. Isolated trace.items) }
        // Which event has no entry, and why.
        ensures refused { IfErr result (λ fault. StopsAt events.now fault) }
    {
        World::trace_of(alloc, events)
    }

    // The trace of these events; or which of them has no entry, and why.
    fn trace_of(alloc: A, events: &[Event<Bytes<A>>]) -> Result<Vec<Entry<Bytes<A>>, A>, WorldFault>
        requires { length events.now ≤ 2 ^ 45 }
        ensures events { IfOk result (λ trace. map event_of trace.items ≡ events.now) }
        ensures follows { IfOk result (λ trace. Follows start trace.items) }
        ensures refused { IfErr result (λ fault. StopsAt events.now fault) }
    {
        let mut world = World::new(alloc)?;
        let mut trace = Vec::new(alloc);
        world.happen_all(events, &mut trace)?;
        Ok(trace)
    }

    // Makes the calls of the events at two new ends, one after the other, and appends an entry for each.
    fn happen_all(
        &mut self,
        events: &[Event<Bytes<A>>],
        trace: &mut Vec<Entry<Bytes<A>>, A>,
    ) -> Result<(), WorldFault>
        requires few { length events.now ≤ 2 ^ 45 }
        requires new { self.old ≡ start }
        requires none { trace.old.items ≡ [] }
        ensures events { OnOk result (map event_of trace.new.items ≡ events.now) }
        ensures follows { OnOk result (Follows start trace.new.items) }
        ensures refused { IfErr result (λ fault. StopsAt events.now fault) }
    {
        for event in events {
            let entry = match self.happen(event) {
                Ok(entry) => entry,
                Err(Failure::NotSent) => return Err(WorldFault::NotSent(trace.len() + 1)),
                Err(Failure::NoSuchStream) => {
                    return Err(WorldFault::NoSuchStream(trace.len() + 1));
                }
                Err(Failure::NoMemory) => return Err(WorldFault::NoMemory),
            };
            trace.push(entry)?;
        }
        Ok(())
    }

    // Makes the call of one event of a server.
    fn serve_one(&mut self, event: &ServerEvent<Bytes<A>>) -> Result<ServerEntry<Bytes<A>>, Failure>
        requires { IsShortState self.old }
        ensures rule { IfOk result (λ e. ServerRule (by_number e.end) (by_number (other e.end)) (end_of e.end self.old) (end_of (other e.end) self.old) e.act) }
        ensures event { IfOk result (λ e. server_event_of e ≡ Some event.now) }
        ensures state { IfOk result (λ e. self.new ≡ after_server_entry self.old e) }
        ensures no_stream { result ≡ Err Failure.NoSuchStream
            → LacksServerStream (end_of event.now.end self.old) (end_of (other event.now.end) self.old) event.now.call }
        ensures not_sent { result ≡ Err Failure.NotSent
            → AsksServerTooMuch (end_of event.now.end self.old) (end_of (other event.now.end) self.old) event.now.call }
    {
        match event.end {
            End::A => {
                let act = self.a.serve(self.alloc, &self.b, &event.call)?;
                Ok(ServerEntry { end: End::A, act })
            }
            End::B => {
                let act = self.b.serve(self.alloc, &self.a, &event.call)?;
                Ok(ServerEntry { end: End::B, act })
            }
        }
    }

    /// The trace of these events, in order, at two new ends that serve any number of connections. Streams of the same
    /// number are connected: those that the application picked, and those that the ends were given one after the other.
    ///
    /// Every event has one entry, even if its call is refused. There is no trace if an event names a stream that was never
    /// opened or was closed, at its end or, for a delivery, at the other; if it delivers octets that were not emitted (the
    /// `Err` has its number, counted from 1); or if memory runs out.
    pub fn serve(
        alloc: A,
        events: &[ServerEvent<Bytes<A>>],
    ) -> Result<Vec<ServerEntry<Bytes<A>>, A>, WorldFault>
        requires { length events.now ≤ 2 ^ 45 }
        ensures events { IfOk result (λ trace. map server_event_of trace.items ≡ map Some events.now) }
        ensures follows { IfOk result (λ trace. ServerFollows by_number start trace.items) }
        // What was received is a prefix of what was sent.
        ensures in_order { IfOk result (λ trace. InOrder (told by_number trace.items)) }
        // When a Send is received, each octet of the Writes before it was placed, and none more often than it was
        // posted.
        ensures covered { IfOk result (λ trace. Covered (told by_number trace.items)) }
        // What was sent is the frames of the posted messages and of the responses to the peer's Reads, no two of them
        // mingled; and after them a Terminate, if one was sent.
        ensures emission { IfOk result (λ trace. Emission (told by_number trace.items)) }
        // Each frame follows what was sent before, and keeps to the maximum ULPDU that was set last.
        ensures sized { IfOk result (λ trace. Sized (told by_number trace.items)) }
        // Start-up frame and Terminate aside, a frame is sent only if the stream is open, has not ended and need not
        // keep silent.
        ensures speaks { IfOk result (λ trace. Speaks (told by_number trace.items)) }
        // Emit answers nothing only if all was sent, or all before a Read that waits, and no Terminate is due.
        ensures nothing { IfOk result (λ trace. NothingOnlyAtRest (told by_number trace.items)) }
        // A message that is done is the oldest that was not handed back, and all its segments were sent; a Read that is
        // done was answered.
        ensures finished { IfOk result (λ trace. Finished (told by_number trace.items)) }
        // Each act of a stream comes after its opening, and a delivery after both.
        ensures opened { IfOk result (λ trace. OpensFirst (told by_number trace.items)) }
        // The octets of a delivery from the other end are those that it sent.
        ensures carried { IfOk result (λ trace. CarriesOctets (told by_number trace.items)) }
        // Octets that come are kept, unless the stream has ended or there is no room for them.
        ensures kept { IfOk result (λ trace. KeepsOctets (told by_number trace.items)) }
        // No two frames that were placed overlap.
        ensures none_twice { IfOk result (λ trace. NonePlacedTwice (told by_number trace.items)) }
        // Work answers idle only if no frame can be judged or have its turn, and no message can be handed back.
        ensures idle { IfOk result (λ trace. IdleOnlyAtRest (told by_number trace.items)) }
        // Then, if all came that the other end sent, all messages have arrived that it sent whole.
        ensures arrived { IfOk result (λ trace. AllArrived (told by_number trace.items)) }
        // Of steps of work one after another, so many at most are not idle, unless the stream ends.
        ensures rests { IfOk result (λ trace. WorkComesToRest (told by_number trace.items)) }
        // A stream that has ended hands back what was posted, the messages first, and sends only what is still due.
        ensures ended { IfOk result (λ trace. Ends (told by_number trace.items)) }
        // When a Read is done, each octet of its response was placed, and none too often.
        ensures answering { IfOk result (λ trace. Answering (told by_number trace.items)) }
        // No Read goes out while as many are outstanding as both ends agreed on.
        ensures few_reads { IfOk result (λ trace. FewReads (told by_number trace.items)) }
        // Each call on a stream is refused exactly when it must be.
        ensures answered { IfOk result (λ trace. Answered (told by_number trace.items)) }

        // The laws that speak of the regions, where none was registered for one stream alone. (By the regions as they stand
        // most hold of each run: `keep_the_laws_by_regions` of `iw_laws::servers`.)
        // Each frame that came is judged, and has its turn, in order, while the stream is open and has not ended.
        ensures turns { IfOk result (λ trace. NoneLimited trace.items → Turns (told by_number trace.items)) }
        // If work answers idle, no frame is left that could be judged before its turn. A frame judged so is placed at
        // once, or left.
        ensures early { IfOk result (λ trace. NoneLimited trace.items → JudgesEarly (told by_number trace.items)) }
        // A frame that was placed is not checked again at its turn, except for the order of segments.
        ensures no_second_check { IfOk result (λ trace. NoneLimited trace.items → ChecksOnce (told by_number trace.items)) }
        // Each placement is that of another frame, and no two of these frames overlap.
        ensures once { IfOk result (λ trace. NoneLimited trace.items → PlacesOnce (told by_number trace.items)) }
        // Every octet that a stream changed lay where it was allowed to.
        ensures within { IfOk result (λ trace. NoneLimited trace.items → Within (told by_number trace.items)) }
        // A Read Response has only octets that were fetched for it: the current contents of what the peer asked for, if
        // it may read them.
        ensures faithful { IfOk result (λ trace. NoneLimited trace.items → Faithful (told by_number trace.items)) }
        // When a Send is received, the octets of the Writes before it stand where they were written; when a Read is done,
        // those that were fetched for it stand at its sink; unless others were put there.
        ensures holds_written { IfOk result (λ trace. NoneLimited trace.items → HoldsWritten (told by_number trace.items)) }
        ensures holds_fetched { IfOk result (λ trace. NoneLimited trace.items → HoldsFetched (told by_number trace.items)) }
        // Each call on regions or pools is answered by them, as the entries before it leave them.
        ensures regions { IfOk result (λ trace. NoneLimited trace.items → ShowsRegions (told by_number trace.items)) }

        // A stream number is opened at most once at an end, and nothing is told of it once its stream was closed.
        ensures given { IfOk result (λ trace. GivesOnce trace.items) }
        ensures closed { IfOk result (λ trace. ClosedIsOver trace.items) }
        // Which event has no entry, and why.
        ensures refused { IfErr result (λ fault. ServerStopsAt events.now fault) }
    {
        World::served(alloc, events)
    }

    // The trace of these events; or which of them has no entry, and why.
    fn served(
        alloc: A,
        events: &[ServerEvent<Bytes<A>>],
    ) -> Result<Vec<ServerEntry<Bytes<A>>, A>, WorldFault>
        requires { length events.now ≤ 2 ^ 45 }
        ensures events { IfOk result (λ trace. map server_event_of trace.items ≡ map Some events.now) }
        ensures follows { IfOk result (λ trace. ServerFollows by_number start trace.items) }
        ensures refused { IfErr result (λ fault. ServerStopsAt events.now fault) }
    {
        let mut world = World::new(alloc)?;
        let mut trace = Vec::new(alloc);
        world.serve_all(events, &mut trace)?;
        Ok(trace)
    }

    // Makes the calls of the events at two new ends, one after the other, and appends an entry for each.
    fn serve_all(
        &mut self,
        events: &[ServerEvent<Bytes<A>>],
        trace: &mut Vec<ServerEntry<Bytes<A>>, A>,
    ) -> Result<(), WorldFault>
        requires few { length events.now ≤ 2 ^ 45 }
        requires new { self.old ≡ start }
        requires none { trace.old.items ≡ [] }
        ensures events { OnOk result (map server_event_of trace.new.items ≡ map Some events.now) }
        ensures follows { OnOk result (ServerFollows by_number start trace.new.items) }
        ensures refused { IfErr result (λ fault. ServerStopsAt events.now fault) }
    {
        for event in events {
            let entry = match self.serve_one(event) {
                Ok(entry) => entry,
                Err(Failure::NotSent) => {
                    let number = trace.len() + 1;
                    return Err(WorldFault::NotSent(number));
                }
                Err(Failure::NoSuchStream) => {
                    return Err(WorldFault::NoSuchStream(trace.len() + 1));
                }
                Err(Failure::NoMemory) => return Err(WorldFault::NoMemory),
            };
            trace.push(entry)?;
        }
        Ok(())
    }
}
