ghost use Rattle.std.specs.Prelude.{◌≡◌, [], IfOk, OnOk, OnErr};
ghost use Rattle.iw_lines.specs.Line.{new_line, with_handed, with_payload, oldest_token, without_oldest, with_sent};
ghost use Rattle.iw_lines.specs.Line.{with_posted, with_octets, without_payload, oldest_payload};
ghost use Rattle.iw_lines.specs.Line.{counted_dropped, counted_tried};
ghost use Rattle.iw_lines.specs.Handed.{nothing_handed};

use crate::handed::Handed;
use crate::payload::Payload;
use crate::slow::SlowPaths;
use crate::waiting::{MAX_WAITING, Waiting};
use bytes::Bytes;
use iw_buffer::Contents;
use std::alloc::{AllocError, Global};
use std::collections::LinkedList;

/// What waits for the program at one stream.
#[derive(Drop)]
pub struct Line {
    /// The buffer that was handed back last and not yet fetched.
    pub handed: Handed,
    /// The tokens of the messages that are posted and not yet told to be done or flushed, oldest first.
    pub tokens: Waiting<u64>,
    /// Which of those messages were posted from a buffer.
    pub from_buffer: Waiting<bool>,
    /// The octets of those that were, oldest first.
    pub payloads: LinkedList<Bytes>,
    /// The octets of the message that was done or flushed last and not yet fetched; none if it was not posted from a buffer.
    pub sent: Bytes,
    /// How often it took a slow path.
    pub slow: SlowPaths,
}

impl Line {
    /// Nothing waits. An `Err` means out of memory.
    pub(crate) fn new(alloc: Global) -> Result<Line, AllocError>
        ensures { IfOk result (λ line. line ≡ new_line) }
    {
        let tokens = Waiting::new(alloc)?;
        let from_buffer = Waiting::new(alloc)?;
        Ok(Line {
            handed: Handed::nothing(alloc),
            tokens,
            from_buffer,
            payloads: LinkedList::new(alloc),
            sent: Bytes::new(),
            slow: SlowPaths::new(),
        })
    }

    /// Keeps what was handed back; what was kept before is freed.
    pub(crate) fn keep(&mut self, handed: Handed)
        ensures { self.new ≡ with_handed self.old handed }
    {
        self.handed = handed;
    }

    /// Hands out what is kept, and keeps it no longer.
    pub(crate) fn fetch(&mut self, alloc: Global) -> Handed
        ensures handed { result ≡ self.old.handed }
        ensures after { self.new ≡ with_handed self.old nothing_handed }
    {
        std::mem::replace(&mut self.handed, Handed::nothing(alloc))
    }

    // Puts a message's octets behind the others.
    fn push_octets(&mut self, payload: Payload)
        ensures { self.new ≡ with_octets self.old payload }
    {
        if self.payloads.len() < MAX_WAITING {
            let mut list = payload.into_list();
            let _ = self.payloads.append(&mut list);
        }
    }

    /// Puts a token behind the others. There is room for 256.
    pub(crate) fn push(&mut self, token: u64)
        ensures { self.new ≡ with_posted self.old token }
    {
        self.tokens.push(token);
        self.from_buffer.push(false);
    }

    /// The same for a message that was posted from a buffer, whose octets are kept.
    pub(crate) fn push_payload(&mut self, token: u64, payload: Payload)
        ensures { self.new ≡ with_payload self.old token payload }
    {
        self.tokens.push(token);
        self.from_buffer.push(true);
        self.push_octets(payload);
    }

    // Takes out the oldest octets that are kept.
    fn pop_octets(&mut self) -> Bytes
        ensures octets { result ≡ oldest_payload self.old }
        ensures after { self.new ≡ without_payload self.old }
    {
        match self.payloads.pop_front() {
            Some(octets) => octets,
            None => Bytes::new(),
        }
    }

    /// Keeps octets to be fetched; those that were kept for that before are freed.
    pub(crate) fn keep_sent(&mut self, sent: Bytes)
        ensures { self.new ≡ with_sent self.old sent }
    {
        self.sent = sent;
    }

    /// Moves the octets that are kept to be fetched to where they are wanted, in place of those that were there. An `Err`
    /// means out of memory, and changes nothing.
    pub(crate) fn fetch_sent(&mut self, alloc: Global, to: &mut Contents) -> Result<(), AllocError>
        ensures octets { OnOk result (to.new.octets ≡ self.old.sent) }
        ensures ok { OnOk result (self.new ≡ with_sent self.old []) }
        ensures err { OnErr result (self.new ≡ self.old) }
        ensures back { OnErr result (to.new.octets ≡ to.old.octets) }
    {
        let sent = std::mem::replace(&mut self.sent, Bytes::new());
        match to.take_back(alloc, sent) {
            Ok(()) => Ok(()),
            Err(sent) => {
                self.sent = sent;
                Err(AllocError)
            }
        }
    }

    /// Takes the oldest message out, and returns its token; 0 if there is none. Its octets are kept to be fetched if it was
    /// posted from a buffer, and else none are.
    pub(crate) fn pop(&mut self) -> u64
        ensures token { result ≡ oldest_token self.old }
        ensures after { self.new ≡ without_oldest self.old }
    {
        let token = self.tokens.pop().unwrap_or(0);
        self.sent = if self.from_buffer.pop().unwrap_or(false) {
            self.pop_octets()
        } else {
            Bytes::new()
        };
        token
    }

    /// Counts a delivery that was dropped.
    pub(crate) fn count_dropped(&mut self)
        ensures { self.new ≡ counted_dropped self.old }
    {
        self.slow.count_dropped();
    }

    /// Counts a frame that was judged before its turn.
    pub(crate) fn count_tried(&mut self)
        ensures { self.new ≡ counted_tried self.old }
    {
        self.slow.count_tried();
    }
}
