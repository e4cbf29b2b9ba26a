use crate::meter::{Call, Heap, Meter, Stopped};
use crate::side::Side;
use bytes::Bytes;
use iw_endpoint::{LimitRefusal, OpenNextRefusal, Rights, Stag};
use iw_events::{Act, Call as EndCall, End, Entry, Event, Options, StreamCall};

/// Two ends. Streams of the same number are connected.
#[derive(Drop)]
pub struct Ends<'h> {
    a: Side<'h>,
    b: Side<'h>,
    meter: Meter<'h>,
}

impl<'h> Ends<'h> {
    /// Two ends with no domain, no region and no stream.
    pub fn new(heap: Heap<'h>, is_refusing: bool) -> Result<Ends<'h>, Stopped> {
        let mut meter = Meter::new(heap, is_refusing);
        Ok(Ends {
            a: Side::new(&mut meter)?,
            b: Side::new(&mut meter)?,
            meter,
        })
    }

    /// How often a call was made, and how many of its requests for memory were refused.
    pub fn counted(&self, call: Call) -> (u64, u64) {
        self.meter.counted(call)
    }

    /// Makes the call of one event.
    pub fn happen(
        &mut self,
        event: &Event<Bytes<Heap<'h>>>,
    ) -> Result<Entry<Bytes<Heap<'h>>>, Stopped> {
        let act = match event.end {
            End::A => act(&mut self.a, &self.b, &mut self.meter, &event.call)?,
            End::B => act(&mut self.b, &self.a, &mut self.meter, &event.call)?,
        };
        Ok(Entry {
            end: event.end,
            act,
        })
    }

    /// Opens a stream of end A under the next number, which no event of a schedule does. It has no octets on their way.
    pub fn open_next(
        &mut self,
        pd: u8,
        options: Options,
    ) -> Result<Result<u32, OpenNextRefusal>, Stopped> {
        self.a.open_next(&mut self.meter, pd, options)
    }

    /// The same for a stream that shares its domain's pool.
    pub fn open_shared_next(
        &mut self,
        pd: u8,
        options: Options,
    ) -> Result<Result<u32, OpenNextRefusal>, Stopped> {
        self.a.open_shared_next(&mut self.meter, pd, options)
    }

    /// Registers this many octets for one stream of end A alone, which no event of a schedule does.
    pub fn register_for(
        &mut self,
        number: u32,
        rights: Rights,
        len: usize,
    ) -> Result<Result<Stag, LimitRefusal>, Stopped> {
        self.a.register_for(&mut self.meter, number, rights, len)
    }

    /// Drops what was emitted on a stream and had its turn at the other end. It cannot be delivered again.
    pub fn forget(&mut self, number: u8) {
        self.a.forget(number.into(), &self.b);
        self.b.forget(number.into(), &self.a);
    }
}

// Makes a call at an end.
fn act<'h>(
    end: &mut Side<'h>,
    peer: &Side<'h>,
    meter: &mut Meter<'h>,
    call: &EndCall<Bytes<Heap<'h>>>,
) -> Result<Act<Bytes<Heap<'h>>>, Stopped> {
    match call {
        EndCall::Domain { pd } => end.add_domain(meter, *pd),
        EndCall::Register {
            pd,
            base,
            rights,
            octets,
        } => end.register(meter, *pd, *base, *rights, octets),
        EndCall::Deregister { stag } => end.deregister(meter, *stag),
        EndCall::Invalidate { stag } => end.invalidate(meter, *stag),
        EndCall::Store { stag, to, octets } => end.store(meter, *stag, *to, octets),
        EndCall::Open {
            stream,
            pd,
            role,
            options,
            private,
        } => end.open(meter, *stream, *pd, *role, *options, private),
        EndCall::Share { pd } => end.share(meter, *pd),
        EndCall::Pool { pd, len } => end.pool(meter, *pd, *len),
        EndCall::Unpool { pd } => end.unpool(meter, *pd),
        EndCall::OpenShared {
            stream,
            pd,
            role,
            options,
            private,
        } => end.open_shared(meter, *stream, *pd, *role, *options, private),
        EndCall::Stream { stream, call } => act_at(end, peer, meter, *stream, call),
    }
}

// Makes a call on a stream of an end.
fn act_at<'h>(
    end: &mut Side<'h>,
    peer: &Side<'h>,
    meter: &mut Meter<'h>,
    stream: u8,
    call: &StreamCall<Bytes<Heap<'h>>>,
) -> Result<Act<Bytes<Heap<'h>>>, Stopped> {
    let number = u32::from(stream);
    if !end.has_stream(number) {
        return Err(Stopped::NoSuchStream);
    }
    let came: &[u8] = match call {
        StreamCall::Deliver { from, len } => peer.emitted(number, *from, *len)?,
        _ => &[],
    };
    let act = end.call(meter, number, call, came)?;
    Ok(Act::Stream { stream, act })
}
