//! One end of a connection by the endpoint's own calls. It hands in octets with their sequence numbers, as a program does that
//! has them already, or gets them out of order; and it reads from a socket.

use crate::end::{STREAM, is_for_later, open_endpoint};
use anyhow::{Result, bail};
use iw_endpoint::{
    CallRefusal, Delivery, Emission, Endpoint, Intake, MAX_PLACE, Octets, PrivateData, Role,
    Standing, Step,
};
use std::alloc::Global;
use std::io::Read;
use std::rt::Runtime;

/// An endpoint with one stream, and the sequence number of the octet that comes next.
#[derive(Drop)]
pub(crate) struct NumberedEnd {
    name: &'static str,
    endpoint: Endpoint,
    next: u32,
}

/// The sequence number after these octets, given that of the first. It wraps.
fn number_after(number: u32, octets: &[u8]) -> u32 {
    ((u64::from(number) + octets.len() as u64) % (1 << 32)) as u32
}

impl NumberedEnd {
    /// An end with a domain and a stream in it, which waits for a peer.
    pub(crate) fn open(alloc: Global, name: &'static str) -> Result<NumberedEnd> {
        Ok(NumberedEnd {
            name,
            endpoint: open_endpoint(alloc, Role::Responder)?,
            next: 0,
        })
    }

    pub(crate) fn post_recv(&mut self, buffer: Vec<u8>) -> Result<()> {
        match self.endpoint.post_recv(STREAM, buffer) {
            Ok(()) => Ok(()),
            Err((refusal, _)) => bail!("post_recv: {refusal}"),
        }
    }

    /// Call it when the socket is readable.
    pub(crate) fn is_readable<R, S>(&mut self, rt: &R, socket: &mut S) -> Result<()>
    where
        R: Runtime + AllocGlobal,
        S: Read,
    {
        match self.endpoint.read_from(STREAM, socket) {
            Ok(Intake::Came(_) | Intake::Full) => self.work(rt),
            Ok(Intake::End) => self.closed(rt),
            Err(CallRefusal::Refused(error)) if is_for_later(error.kind()) => Ok(()),
            Err(refusal) => bail!("read_from: {refusal}"),
        }
    }

    fn has_ended(&self) -> bool {
        matches!(self.endpoint.standing(STREAM), Ok(Standing::Ended))
    }

    // Hands in octets that came, of which the first has this sequence number.
    fn deliver(&mut self, number: u32, octets: &[u8]) -> Result<()> {
        match self.endpoint.deliver(STREAM, number, octets) {
            Ok(Delivery::Kept) => Ok(()),
            // A stream that has ended drops what comes. On one that runs the octets would be missing for good.
            Ok(Delivery::Dropped) if self.has_ended() => Ok(()),
            Ok(Delivery::Dropped) => bail!("octets came too far ahead"),
            Err(refusal) => bail!("deliver: {refusal}"),
        }
    }

    /// Call it when octets came in order.
    pub(crate) fn octets_came<R: Runtime + AllocGlobal>(
        &mut self,
        rt: &R,
        octets: &[u8],
    ) -> Result<()> {
        self.deliver(self.next, octets)?;
        self.next = number_after(self.next, octets);
        self.work(rt)
    }

    /// Call it when octets came of which the back came before the front.
    pub(crate) fn back_came_first<R: Runtime + AllocGlobal>(
        &mut self,
        rt: &R,
        front: &[u8],
        back: &[u8],
    ) -> Result<()> {
        self.deliver(number_after(self.next, front), back)?;
        self.work(rt)?;
        self.octets_came(rt, front)?;
        self.next = number_after(self.next, back);
        Ok(())
    }

    /// Fills `out` with all that is to be written.
    pub(crate) fn is_writable<R: Runtime + AllocGlobal>(
        &mut self,
        rt: &R,
        out: &mut Vec<u8>,
    ) -> Result<()> {
        out.clear();
        for _ in 0..u64::MAX {
            if !self.emit(out)? {
                break;
            }
        }
        self.work(rt)
    }

    // Appends what is to be written next. Returns whether there was anything to do.
    fn emit(&mut self, out: &mut Vec<u8>) -> Result<bool> {
        match self.endpoint.sent(STREAM) {
            Ok(sent) if sent <= MAX_PLACE => {}
            _ => bail!("too many octets were emitted"),
        }
        match self.endpoint.emit(STREAM, out) {
            // After a fault the Terminate is due.
            Ok(Emission::Frame { .. } | Emission::Fetched { .. } | Emission::Fault(_)) => Ok(true),
            Ok(Emission::Nothing) => Ok(false),
            Err(refusal) => bail!("emit: {refusal}"),
        }
    }

    /// Call it when the connection closed. All that was posted and is not done is handed back.
    pub(crate) fn closed<R: Runtime + AllocGlobal>(&mut self, rt: &R) -> Result<()> {
        if self.endpoint.break_link(STREAM).is_err() {
            bail!("no such stream");
        }
        self.work(rt)
    }

    // Works until there is nothing to do.
    fn work<R: Runtime + AllocGlobal>(&mut self, rt: &R) -> Result<()> {
        for _ in 0..u64::MAX {
            if !self.step(rt)? {
                break;
            }
        }
        Ok(())
    }

    // Does one step. Returns whether there was anything to do.
    fn step<R: Runtime + AllocGlobal>(&mut self, rt: &R) -> Result<bool> {
        match self.endpoint.in_order_point(STREAM) {
            Ok(point) if point <= MAX_PLACE => {}
            _ => bail!("too many octets came"),
        }
        match self.endpoint.work(STREAM) {
            Ok(Step::Idle) => Ok(false),
            Ok(step) => {
                self.tell(rt, step)?;
                Ok(true)
            }
            Err(refusal) => bail!("work: {refusal}"),
        }
    }

    // Prints a step, and accepts the peer's Request.
    fn tell<R: Runtime + AllocGlobal>(&mut self, rt: &R, step: Step<Octets>) -> Result<()> {
        let name = self.name;
        match step {
            Step::Asked => {
                println!(rt; "{name}: asked, and accepts")?;
                self.accept()
            }
            Step::Received { len, .. } => {
                println!(rt; "{name}: received a message of {len} octets")?;
                Ok(())
            }
            step => {
                println!(rt; "{name}: {step:?}")?;
                Ok(())
            }
        }
    }

    fn accept(&mut self) -> Result<()> {
        match self.endpoint.accept(STREAM, PrivateData::new()) {
            Ok(_) => Ok(()),
            Err(refusal) => bail!("accept: {refusal}"),
        }
    }
}
