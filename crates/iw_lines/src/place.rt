ghost use Rattle.std.specs.Prelude.{◌≡◌, [], IfOk, OnOk, OnErr};
ghost use Rattle.iw_lines.specs.Line.{new_line, with_handed, with_posted, with_payload, oldest_token, without_oldest, with_sent};
ghost use Rattle.iw_lines.specs.Line.{counted_dropped, counted_tried};
ghost use Rattle.iw_lines.specs.Handed.{nothing_handed, told_of};

use crate::handed::Handed;
use crate::line::Line;
use crate::payload::Payload;
use crate::slow::SlowPaths;
use bytes::Bytes;
use iw_buffer::Contents;
use std::alloc::{AllocError, Global};
use std::marker::Model;

/// A line, in memory of its own.
#[derive(Drop)]
pub struct Place {
    line: Box<Line>,
}

impl Model for Place {
    ghost use Rattle.iw_lines.specs.declared.line.Line.{Line};

    ghost Value = { Line };

    ghost view = { λ p. p.line.value };
}

impl Place {
    pub(crate) fn new(alloc: Global) -> Result<Place, AllocError>
        ensures { IfOk result (λ place. place ≡ new_line) }
    {
        let line = Box::new(alloc, Line::new(alloc)?)?;
        Ok(Place { line })
    }

    pub(crate) fn keep(&mut self, handed: Handed)
        ensures { self.new ≡ with_handed self.old handed }
    {
        self.line.keep(handed);
    }

    pub(crate) fn told(&self) -> &[u8]
        ensures { result.now ≡ told_of self.now.handed }
    {
        self.line.as_ref().handed.told()
    }

    pub(crate) fn fetch(&mut self, alloc: Global) -> Handed
        ensures handed { result ≡ self.old.handed }
        ensures after { self.new ≡ with_handed self.old nothing_handed }
    {
        self.line.fetch(alloc)
    }

    pub(crate) fn push(&mut self, token: u64)
        ensures { self.new ≡ with_posted self.old token }
    {
        self.line.push(token);
    }

    pub(crate) fn push_payload(&mut self, token: u64, payload: Payload)
        ensures { self.new ≡ with_payload self.old token payload }
    {
        self.line.push_payload(token, payload);
    }

    pub(crate) fn keep_sent(&mut self, sent: Bytes)
        ensures { self.new ≡ with_sent self.old sent }
    {
        self.line.keep_sent(sent);
    }

    pub(crate) fn fetch_sent(&mut self, alloc: Global, to: &mut Contents) -> Result<(), AllocError>
        ensures octets { OnOk result (to.new.octets ≡ self.old.sent) }
        ensures ok { OnOk result (self.new ≡ with_sent self.old []) }
        ensures err { OnErr result (self.new ≡ self.old) }
        ensures back { OnErr result (to.new.octets ≡ to.old.octets) }
    {
        self.line.fetch_sent(alloc, to)
    }

    pub(crate) fn pop(&mut self) -> u64
        ensures token { result ≡ oldest_token self.old }
        ensures after { self.new ≡ without_oldest self.old }
    {
        self.line.pop()
    }

    pub(crate) fn count_dropped(&mut self)
        ensures { self.new ≡ counted_dropped self.old }
    {
        self.line.count_dropped();
    }

    pub(crate) fn count_tried(&mut self)
        ensures { self.new ≡ counted_tried self.old }
    {
        self.line.count_tried();
    }

    pub(crate) fn slow_paths(&self) -> SlowPaths
        ensures { result ≡ self.now.slow }
    {
        self.line.as_ref().slow
    }
}
