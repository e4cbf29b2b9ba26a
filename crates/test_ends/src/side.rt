//! One end: its endpoint, and what its streams emitted.

use crate::meter::{Call, Heap, MOST_TRIES, Meter, Stopped};
use crate::wire::Wire;
use bytes::Bytes;
use iw_endpoint::{
    Agreed, CallRefusal, Config, Delivery, DomainRefusal, Emission, Endpoint, EnhancedData,
    LimitRefusal, MAX_PLACE, NoSuchStream, Octets, OpenNextRefusal, OpenRefusal, OpenSharedRefusal,
    PoolRefusal, PostRefusal, RecvRefusal, RegisterRefusal, Request, Right, Rights, Role,
    STREAM_NUMBERS, ShareRefusal, Stag, Step,
};
use iw_events::{
    Act, Options, Seen, Shown, StreamAct, StreamCall, message_in, private_data, shared, standing,
    whole,
};
use std::alloc::AllocError;

#[derive(Drop)]
pub(crate) struct Side<'h> {
    endpoint: Endpoint<Heap<'h>>,
    wires: Vec<Wire<'h>, Heap<'h>>,
}

type Answer<'h> = Result<Act<Bytes<Heap<'h>>>, Stopped>;

type StreamAnswer<'h> = Result<StreamAct<Bytes<Heap<'h>>>, Stopped>;

type SeenStep<'h> = Result<Seen<Bytes<Heap<'h>>>, Stopped>;

// A stream with the number.
fn there<T>(answer: Result<T, NoSuchStream>) -> Result<T, Stopped> {
    answer.map_err(|_| Stopped::NoSuchStream)
}

fn endpoint<'h>(meter: &mut Meter<'h>) -> Result<Endpoint<Heap<'h>>, Stopped> {
    meter.begin(0);
    let endpoint = Endpoint::new(meter.heap());
    meter.end(Call::New, 0)?;
    Ok(endpoint)
}

fn see_flushed<'h>(buffer: Octets<Heap<'h>>) -> SeenStep<'h> {
    Ok(Seen::FlushedRecv(whole(buffer)?))
}

fn see_received<'h>(
    buffer: Octets<Heap<'h>>,
    len: usize,
    solicited: bool,
    invalidate: Option<Stag>,
) -> SeenStep<'h> {
    let octets = message_in(buffer, len)?;
    Ok(Seen::Received {
        octets,
        solicited,
        invalidate,
    })
}

// What a call that opens a stream asks for.
fn config_for(options: Options, private: &[u8]) -> Config {
    Config {
        markers: options.markers,
        crc: options.crc,
        establishment: options.establishment,
        private: private_data(private),
    }
}

impl<'h> Side<'h> {
    pub(crate) fn new(meter: &mut Meter<'h>) -> Result<Side<'h>, Stopped> {
        let endpoint = endpoint(meter)?;
        let mut wires = Vec::with_capacity(meter.heap(), STREAM_NUMBERS)?;
        for _ in 0..STREAM_NUMBERS {
            wires.push(Wire::new(meter.heap()))?;
        }
        Ok(Side { endpoint, wires })
    }

    pub(crate) fn has_stream(&self, number: u32) -> bool {
        self.endpoint.sent(number).is_ok()
    }

    /// The octets that a stream emitted at a place.
    pub(crate) fn emitted(&self, number: u32, from: u64, len: u64) -> Result<&[u8], Stopped> {
        let Some(wire) = self.wires.get(number as usize) else {
            return Err(Stopped::NoSuchStream);
        };
        wire.part(from, len).ok_or(Stopped::NotSent)
    }

    /// What the other end emitted before this end's in-order point is not needed any more.
    pub(crate) fn forget(&mut self, number: u32, peer: &Side<'h>) {
        if let (Ok(point), Some(wire)) = (
            peer.endpoint.in_order_point(number),
            self.wires.get_mut(number as usize),
        ) {
            wire.forget(point);
        }
    }

    pub(crate) fn add_domain(&mut self, meter: &mut Meter<'h>, pd: u8) -> Answer<'h> {
        for n in 0..MOST_TRIES {
            meter.begin(n);
            let added = self.endpoint.add_domain(pd);
            if added == Err(DomainRefusal::NoMemory) {
                continue;
            }
            meter.end(Call::AddDomain, n)?;
            return Ok(Act::Domain {
                pd,
                refused: added.err(),
            });
        }
        Err(Stopped::Endless(Call::AddDomain))
    }

    pub(crate) fn register(
        &mut self,
        meter: &mut Meter<'h>,
        pd: u8,
        base: u64,
        rights: Rights,
        octets: &Bytes<Heap<'h>>,
    ) -> Answer<'h> {
        let copy = Vec::from_slice(meter.heap(), octets.as_slice())?;
        let answer = self.registered(meter, pd, base, rights, copy)?;
        Ok(Act::Register {
            pd,
            base,
            rights,
            octets: octets.clone()?,
            answer,
        })
    }

    fn registered(
        &mut self,
        meter: &mut Meter<'h>,
        pd: u8,
        base: u64,
        rights: Rights,
        octets: Vec<u8, Heap<'h>>,
    ) -> Result<Result<Stag, RegisterRefusal>, Stopped> {
        let mut octets = octets;
        for n in 0..MOST_TRIES {
            meter.begin(n);
            let answer = match self.endpoint.register(pd, base, octets, rights) {
                Ok(stag) => Ok(stag),
                Err((RegisterRefusal::NoMemory, back)) => {
                    octets = back;
                    continue;
                }
                Err((refusal, _)) => Err(refusal),
            };
            meter.end(Call::Register, n)?;
            return Ok(answer);
        }
        Err(Stopped::Endless(Call::Register))
    }

    pub(crate) fn deregister(&mut self, meter: &mut Meter<'h>, stag: Stag) -> Answer<'h> {
        meter.begin(0);
        let answer = self.endpoint.take_region(stag);
        meter.end(Call::Deregister, 0)?;
        let answer = match answer {
            Ok(octets) => Ok(Bytes::from_vec(octets.into_vec(meter.heap())?)?),
            Err(missing) => Err(missing),
        };
        Ok(Act::Deregister { stag, answer })
    }

    pub(crate) fn invalidate(&mut self, meter: &mut Meter<'h>, stag: Stag) -> Answer<'h> {
        meter.begin(0);
        let refused = self.endpoint.invalidate(stag).err();
        meter.end(Call::Invalidate, 0)?;
        Ok(Act::Invalidate { stag, refused })
    }

    pub(crate) fn store(
        &mut self,
        meter: &mut Meter<'h>,
        stag: Stag,
        to: u64,
        octets: &Bytes<Heap<'h>>,
    ) -> Answer<'h> {
        let copy = octets.clone()?;
        meter.begin(0);
        let refused = self.endpoint.store(stag, to, octets.as_slice()).err();
        meter.end(Call::Store, 0)?;
        Ok(Act::Store {
            stag,
            to,
            octets: copy,
            refused,
        })
    }

    pub(crate) fn open(
        &mut self,
        meter: &mut Meter<'h>,
        stream: u8,
        pd: u8,
        role: Role,
        options: Options,
        private: &Bytes<Heap<'h>>,
    ) -> Answer<'h> {
        let copy = private.clone()?;
        for n in 0..MOST_TRIES {
            let config = config_for(options, private.as_slice());
            meter.begin(n);
            let opened = self.endpoint.open(stream.into(), pd, role, config);
            if opened == Err(OpenRefusal::NoMemory) {
                continue;
            }
            meter.end(Call::Open, n)?;
            return Ok(Act::Open {
                stream,
                pd,
                role,
                options,
                private: copy,
                refused: opened.err(),
            });
        }
        Err(Stopped::Endless(Call::Open))
    }

    pub(crate) fn share(&mut self, meter: &mut Meter<'h>, pd: u8) -> Answer<'h> {
        for n in 0..MOST_TRIES {
            meter.begin(n);
            let shared = self.endpoint.share(pd);
            if shared == Err(ShareRefusal::NoMemory) {
                continue;
            }
            meter.end(Call::Share, n)?;
            return Ok(Act::Share {
                pd,
                refused: shared.err(),
            });
        }
        Err(Stopped::Endless(Call::Share))
    }

    pub(crate) fn pool(&mut self, meter: &mut Meter<'h>, pd: u8, len: u32) -> Answer<'h> {
        let mut buffer = vec![in meter.heap(); 0; len as usize]?;
        for n in 0..MOST_TRIES {
            meter.begin(n);
            let refused = match self.endpoint.post_shared(pd, buffer) {
                Ok(()) => None,
                Err((PoolRefusal::NoMemory, back)) => {
                    buffer = back;
                    continue;
                }
                Err((refusal, _)) => Some(refusal),
            };
            meter.end(Call::PostShared, n)?;
            return Ok(Act::Pool { pd, len, refused });
        }
        Err(Stopped::Endless(Call::PostShared))
    }

    pub(crate) fn unpool(&mut self, meter: &mut Meter<'h>, pd: u8) -> Answer<'h> {
        meter.begin(0);
        let answer = self.endpoint.take_shared(pd);
        meter.end(Call::TakeShared, 0)?;
        let answer = match answer {
            Ok(Some(buffer)) => Ok(Some(Bytes::from_vec(buffer)?)),
            Ok(None) => Ok(None),
            Err(refusal) => Err(refusal),
        };
        Ok(Act::Unpool { pd, answer })
    }

    pub(crate) fn open_shared(
        &mut self,
        meter: &mut Meter<'h>,
        stream: u8,
        pd: u8,
        role: Role,
        options: Options,
        private: &Bytes<Heap<'h>>,
    ) -> Answer<'h> {
        let copy = private.clone()?;
        for n in 0..MOST_TRIES {
            let config = config_for(options, private.as_slice());
            meter.begin(n);
            let opened = self.endpoint.open_shared(stream.into(), pd, role, config);
            if opened == Err(OpenSharedRefusal::NoMemory) {
                continue;
            }
            meter.end(Call::OpenShared, n)?;
            return Ok(Act::OpenShared {
                stream,
                pd,
                role,
                options,
                private: copy,
                refused: opened.err(),
            });
        }
        Err(Stopped::Endless(Call::OpenShared))
    }

    /// Opens a stream under the next number.
    pub(crate) fn open_next(
        &mut self,
        meter: &mut Meter<'h>,
        pd: u8,
        options: Options,
    ) -> Result<Result<u32, OpenNextRefusal>, Stopped> {
        for n in 0..MOST_TRIES {
            let config = config_for(options, &[]);
            meter.begin(n);
            let opened = self.endpoint.open_next(pd, Role::Preset, config);
            if opened == Err(OpenNextRefusal::NoMemory) {
                continue;
            }
            meter.end(Call::OpenNext, n)?;
            return Ok(opened);
        }
        Err(Stopped::Endless(Call::OpenNext))
    }

    /// The same for a stream that shares its domain's pool.
    pub(crate) fn open_shared_next(
        &mut self,
        meter: &mut Meter<'h>,
        pd: u8,
        options: Options,
    ) -> Result<Result<u32, OpenNextRefusal>, Stopped> {
        for n in 0..MOST_TRIES {
            let config = config_for(options, &[]);
            meter.begin(n);
            let opened = self.endpoint.open_shared_next(pd, Role::Preset, config);
            if opened == Err(OpenNextRefusal::NoMemory) {
                continue;
            }
            meter.end(Call::OpenSharedNext, n)?;
            return Ok(opened);
        }
        Err(Stopped::Endless(Call::OpenSharedNext))
    }

    /// Registers octets for one stream alone.
    pub(crate) fn register_for(
        &mut self,
        meter: &mut Meter<'h>,
        number: u32,
        rights: Rights,
        len: usize,
    ) -> Result<Result<Stag, LimitRefusal>, Stopped> {
        let mut octets = vec![in meter.heap(); 0; len]?;
        for n in 0..MOST_TRIES {
            meter.begin(n);
            let answer = match self.endpoint.register_for(number, 0, octets, rights) {
                Ok(stag) => Ok(stag),
                Err(
                    (CallRefusal::Refused(LimitRefusal::Refused(RegisterRefusal::NoMemory)), back),
                ) => {
                    octets = back;
                    continue;
                }
                Err((CallRefusal::Refused(refusal), _)) => Err(refusal),
                Err((CallRefusal::NoSuchStream, _)) => return Err(Stopped::NoSuchStream),
            };
            meter.end(Call::RegisterFor, n)?;
            return Ok(answer);
        }
        Err(Stopped::Endless(Call::RegisterFor))
    }

    /// Makes a call on a stream; `came` are the octets that it delivers.
    pub(crate) fn call(
        &mut self,
        meter: &mut Meter<'h>,
        number: u32,
        call: &StreamCall<Bytes<Heap<'h>>>,
        came: &[u8],
    ) -> StreamAnswer<'h> {
        match call {
            StreamCall::Recv { len } => self.recv(meter, number, *len),
            StreamCall::Post { message } => self.post(meter, number, message),
            StreamCall::Emit => Ok(StreamAct::Emit(self.emit(meter, number)?)),
            StreamCall::First { number: first } => self.first(meter, number, *first),
            StreamCall::Deliver { from, .. } => self.deliver_emitted(meter, number, *from, came),
            StreamCall::Raw {
                number: from,
                octets,
            } => Ok(StreamAct::Raw {
                number: *from,
                octets: octets.clone()?,
                delivery: self.deliver(meter, number, *from, octets.as_slice())?,
            }),
            StreamCall::Mulpdu { size } => self.mulpdu(meter, number, *size),
            StreamCall::Accept { private } => self.accept(meter, number, private),
            StreamCall::Reject { private } => self.reject(meter, number, private),
            StreamCall::Work => Ok(StreamAct::Work(self.see(meter, number)?)),
            StreamCall::Break => self.break_link(meter, number),
        }
    }

    fn recv(&mut self, meter: &mut Meter<'h>, number: u32, len: u32) -> StreamAnswer<'h> {
        let mut buffer = vec![in meter.heap(); 0; len as usize]?;
        for n in 0..MOST_TRIES {
            meter.begin(n);
            let refused = match self.endpoint.post_recv(number, buffer) {
                Ok(()) => None,
                Err((CallRefusal::Refused(RecvRefusal::NoMemory), back)) => {
                    buffer = back;
                    continue;
                }
                Err((CallRefusal::Refused(refusal), _)) => Some(refusal),
                Err((CallRefusal::NoSuchStream, _)) => return Err(Stopped::NoSuchStream),
            };
            meter.end(Call::PostRecv, n)?;
            return Ok(StreamAct::Recv { len, refused });
        }
        Err(Stopped::Endless(Call::PostRecv))
    }

    fn post(
        &mut self,
        meter: &mut Meter<'h>,
        number: u32,
        message: &Request<Bytes<Heap<'h>>>,
    ) -> StreamAnswer<'h> {
        let call = Call::posting(message);
        let mut request = shared(message)?;
        for n in 0..MOST_TRIES {
            meter.begin(n);
            let refused = match self.endpoint.post(number, request) {
                Ok(()) => None,
                Err((CallRefusal::Refused(PostRefusal::NoMemory), back)) => {
                    request = back;
                    continue;
                }
                Err((CallRefusal::Refused(refusal), _)) => Some(refusal),
                Err((CallRefusal::NoSuchStream, _)) => return Err(Stopped::NoSuchStream),
            };
            meter.end(call, n)?;
            return Ok(StreamAct::Post {
                message: shared(message)?,
                refused,
            });
        }
        Err(Stopped::Endless(call))
    }

    fn first(&mut self, meter: &mut Meter<'h>, number: u32, first: u32) -> StreamAnswer<'h> {
        meter.begin(0);
        let answer = self.endpoint.first_number(number, first);
        meter.end(Call::FirstNumber, 0)?;
        match answer {
            Ok(()) => Ok(StreamAct::First {
                number: first,
                refused: None,
            }),
            Err(CallRefusal::Refused(refusal)) => Ok(StreamAct::First {
                number: first,
                refused: Some(refusal),
            }),
            Err(CallRefusal::NoSuchStream) => Err(Stopped::NoSuchStream),
        }
    }

    // Delivers octets that the other end emitted at a place: the first has the number of that place.
    fn deliver_emitted(
        &mut self,
        meter: &mut Meter<'h>,
        number: u32,
        from: u64,
        came: &[u8],
    ) -> StreamAnswer<'h> {
        let Ok(first) = self.endpoint.peer_first(number) else {
            return Err(Stopped::NoSuchStream);
        };
        let handed_in = first.wrapping_add((from % (1 << 32)) as u32);
        Ok(StreamAct::Deliver {
            from,
            number: handed_in,
            octets: Bytes::copy_from_slice(meter.heap(), came)?,
            delivery: self.deliver(meter, number, handed_in, came)?,
        })
    }

    fn deliver(
        &mut self,
        meter: &mut Meter<'h>,
        number: u32,
        from: u32,
        octets: &[u8],
    ) -> Result<Delivery, Stopped> {
        for n in 0..MOST_TRIES {
            meter.begin(n);
            match self.endpoint.deliver(number, from, octets) {
                Ok(delivery) => {
                    meter.end(Call::Deliver, n)?;
                    return Ok(delivery);
                }
                Err(CallRefusal::Refused(AllocError)) => {}
                Err(CallRefusal::NoSuchStream) => return Err(Stopped::NoSuchStream),
            }
        }
        Err(Stopped::Endless(Call::Deliver))
    }

    // Emits what is due, after what was emitted.
    fn emission(&mut self, meter: &mut Meter<'h>, number: u32) -> Result<Emission, Stopped> {
        let Some(wire) = self.wires.get_mut(number as usize) else {
            return Err(Stopped::NoSuchStream);
        };
        for n in 0..MOST_TRIES {
            match self.endpoint.sent(number) {
                Ok(sent) if sent <= MAX_PLACE => {}
                _ => return Err(Stopped::NoSuchStream),
            }
            meter.begin(n);
            match self.endpoint.emit(number, &mut wire.octets) {
                Ok(emission) => {
                    meter.end(Call::Emit, n)?;
                    return Ok(emission);
                }
                Err(CallRefusal::Refused(AllocError)) => {}
                Err(CallRefusal::NoSuchStream) => return Err(Stopped::NoSuchStream),
            }
        }
        Err(Stopped::Endless(Call::Emit))
    }

    fn emit(
        &mut self,
        meter: &mut Meter<'h>,
        number: u32,
    ) -> Result<Shown<Bytes<Heap<'h>>>, Stopped> {
        let emission = self.emission(meter, number)?;
        match emission {
            Emission::Frame { from, len } => Ok(Shown::Frame {
                from,
                octets: self.frame(meter, number, from, len)?,
            }),
            Emission::Fetched {
                from,
                len,
                stag,
                to,
                n,
            } => Ok(Shown::Fetched {
                from,
                frame: self.frame(meter, number, from, len)?,
                stag,
                to,
                octets: standing(meter.heap(), self.endpoint.memory(), stag, to, n)?,
            }),
            Emission::Fault(fault) => Ok(Shown::Fault(fault)),
            Emission::Nothing => Ok(Shown::Nothing),
        }
    }

    fn frame(
        &self,
        meter: &Meter<'h>,
        number: u32,
        from: u64,
        len: usize,
    ) -> Result<Bytes<Heap<'h>>, Stopped> {
        let octets = self.emitted(number, from, len as u64)?;
        Ok(Bytes::copy_from_slice(meter.heap(), octets)?)
    }

    fn mulpdu(&mut self, meter: &mut Meter<'h>, number: u32, size: u32) -> StreamAnswer<'h> {
        meter.begin(0);
        let answer = self.endpoint.set_mulpdu(number, size);
        meter.end(Call::SetMulpdu, 0)?;
        match answer {
            Ok(()) => Ok(StreamAct::Mulpdu {
                size,
                refused: None,
            }),
            Err(CallRefusal::Refused(refusal)) => Ok(StreamAct::Mulpdu {
                size,
                refused: Some(refusal),
            }),
            Err(CallRefusal::NoSuchStream) => Err(Stopped::NoSuchStream),
        }
    }

    fn accept(
        &mut self,
        meter: &mut Meter<'h>,
        number: u32,
        private: &Bytes<Heap<'h>>,
    ) -> StreamAnswer<'h> {
        let copy = private.clone()?;
        meter.begin(0);
        let answer = self
            .endpoint
            .accept(number, private_data(private.as_slice()));
        meter.end(Call::Accept, 0)?;
        let answer = match answer {
            Ok(agreed) => Ok(agreed),
            Err(CallRefusal::Refused(refusal)) => Err(refusal),
            Err(CallRefusal::NoSuchStream) => return Err(Stopped::NoSuchStream),
        };
        Ok(StreamAct::Accept {
            private: copy,
            answer,
        })
    }

    fn reject(
        &mut self,
        meter: &mut Meter<'h>,
        number: u32,
        private: &Bytes<Heap<'h>>,
    ) -> StreamAnswer<'h> {
        let copy = private.clone()?;
        meter.begin(0);
        let answer = self
            .endpoint
            .reject(number, private_data(private.as_slice()));
        meter.end(Call::Reject, 0)?;
        let refused = match answer {
            Ok(()) => None,
            Err(CallRefusal::Refused(refusal)) => Some(refusal),
            Err(CallRefusal::NoSuchStream) => return Err(Stopped::NoSuchStream),
        };
        Ok(StreamAct::Reject {
            private: copy,
            refused,
        })
    }

    // Does one step.
    fn work(
        &mut self,
        meter: &mut Meter<'h>,
        number: u32,
    ) -> Result<Step<Octets<Heap<'h>>>, Stopped> {
        for n in 0..MOST_TRIES {
            match self.endpoint.in_order_point(number) {
                Ok(point) if point <= MAX_PLACE => {}
                _ => return Err(Stopped::NoSuchStream),
            }
            meter.begin(n);
            match self.endpoint.work(number) {
                Ok(step) => {
                    meter.end(Call::Work, n)?;
                    return Ok(step);
                }
                Err(CallRefusal::Refused(AllocError)) => {}
                Err(CallRefusal::NoSuchStream) => return Err(Stopped::NoSuchStream),
            }
        }
        Err(Stopped::Endless(Call::Work))
    }

    // The private data of the peer's start-up frame.
    fn private(&self, meter: &mut Meter<'h>, number: u32) -> Result<Bytes<Heap<'h>>, Stopped> {
        meter.begin(0);
        let private = self.endpoint.private(number);
        meter.end(Call::Private, 0)?;
        let octets = there(private)?;
        Ok(Bytes::copy_from_slice(meter.heap(), octets)?)
    }

    // The octets of a region at the place where some were placed.
    fn placed(
        &self,
        meter: &mut Meter<'h>,
        stag: Stag,
        to: u64,
        len: usize,
    ) -> Result<Bytes<Heap<'h>>, Stopped> {
        meter.begin(0);
        let is_there = self.endpoint.local(stag).is_some() && self.endpoint.facts(stag).is_some();
        meter.end(Call::Local, 0)?;
        if is_there {
            Ok(standing(meter.heap(), self.endpoint.memory(), stag, to, len)?)
        } else {
            Ok(Bytes::new())
        }
    }

    fn see_asked(&self, meter: &mut Meter<'h>, number: u32) -> SeenStep<'h> {
        let private = self.private(meter, number)?;
        let told = there(self.endpoint.peer_enhanced(number))?;
        Ok(Seen::Asked { told, private })
    }

    fn see_opened(&self, meter: &mut Meter<'h>, number: u32, agreed: Agreed) -> SeenStep<'h> {
        let private = self.private(meter, number)?;
        let told = there(self.endpoint.peer_enhanced(number))?;
        Ok(Seen::Opened {
            agreed,
            told,
            private,
        })
    }

    fn see_placed(
        &self,
        meter: &mut Meter<'h>,
        right: Right,
        stag: Stag,
        to: u64,
        len: usize,
    ) -> SeenStep<'h> {
        let octets = self.placed(meter, stag, to, len)?;
        Ok(Seen::Placed {
            right,
            stag,
            to,
            octets,
        })
    }

    // Does one step, and returns what the trace shows of it.
    fn see(&mut self, meter: &mut Meter<'h>, number: u32) -> SeenStep<'h> {
        match self.work(meter, number)? {
            Step::Done(kind) => Ok(Seen::Done(kind)),
            Step::Flushed(kind) => Ok(Seen::Flushed(kind)),
            Step::FlushedRecv(buffer) => see_flushed(buffer),
            Step::Asked => self.see_asked(meter, number),
            Step::Opened(agreed) => self.see_opened(meter, number, agreed),
            Step::Closed(fault) => Ok(Seen::Closed(fault)),
            Step::Placed {
                right,
                stag,
                to,
                len,
            } => self.see_placed(meter, right, stag, to, len),
            Step::Buffered { msn, mo, len } => Ok(Seen::Buffered { msn, mo, len }),
            Step::Requested { size, stag, to } => Ok(Seen::Requested { size, stag, to }),
            Step::Passed => Ok(Seen::Passed),
            Step::Tried(place) => Ok(Seen::Tried(place)),
            Step::Received {
                buffer,
                len,
                solicited,
                invalidate,
            } => see_received(buffer, len, solicited, invalidate),
            Step::Terminated(fault) => Ok(Seen::Terminated(fault)),
            Step::Fault(fault) => Ok(Seen::Fault(fault)),
            Step::Idle => Ok(Seen::Idle),
        }
    }

    fn break_link(&mut self, meter: &mut Meter<'h>, number: u32) -> StreamAnswer<'h> {
        meter.begin(0);
        let answer = self.endpoint.break_link(number);
        meter.end(Call::BreakLink, 0)?;
        there(answer)?;
        Ok(StreamAct::Break)
    }
}
