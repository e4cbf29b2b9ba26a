ghost use Rattle.std.specs.Prelude.{◌≡◌, ◌≤◌, length, true, None};
ghost use Rattle.iw_startup.specs.Peer.{peer_key};
ghost use Rattle.iw_startup.specs.declared.side.Reply.TheVariants.{Accept, Reject};
ghost use Rattle.iw_startup.specs.declared.side.Side.TheVariants as sides;
ghost use Rattle.iw_startup.specs.State.{asks_as, own_frame, is_responder, is_unanswered, has_agreed, replied};

use crate::config::{Config, Establishment, MAX_FRAME, PrivateData};
use crate::frame::{self, written};
use crate::negotiation::{asked_revision, at_responder, in_kind};
use crate::progress::Progress;
use crate::side::{REPLY_KEY, REQUEST_KEY};
use arrayvec::ArrayVec;
use std::marker::Model;

// Which end of the connection this is, and what a responder answered.
#[derive(Clone, Copy)]
enum Standing {
    Initiator,
    Unanswered,
    Accepted,
    Rejected,
}

/// What this end's frame is made of. There is one place for private data: a Request's, or that of an answer.
#[derive(Drop)]
pub(crate) struct Own {
    pub(crate) markers: bool,
    pub(crate) crc: bool,
    pub(crate) establishment: Establishment,
    standing: Standing,
    private: PrivateData,
}

impl Model for Own {
    ghost use Rattle.iw_startup.specs.Own.{OwnState, private_asked, side_of};

    ghost Value = { OwnState };

    ghost view = { λ o. record {
      config = record { markers = o.markers; crc = o.crc; establishment = o.establishment; private = private_asked o.standing o.private };
      side = side_of o.standing o.private;
    } };
}

impl Own {
    /// An initiator's, which asks for this.
    pub(crate) fn initiator(config: Config) -> Own
        ensures { result ≡ record { config = config; side = sides.Initiator } }
    {
        Own {
            markers: config.markers,
            crc: config.crc,
            establishment: config.establishment,
            standing: Standing::Initiator,
            private: config.private,
        }
    }

    /// A responder's, which asks for this and has not answered. Its private data comes with its answer.
    pub(crate) fn responder(config: Config) -> Own
        ensures { result ≡ record { config = asks_as (sides.Responder None) config; side = sides.Responder None } }
    {
        Own {
            markers: config.markers,
            crc: config.crc,
            establishment: at_responder(config.establishment),
            standing: Standing::Unanswered,
            private: ArrayVec::new(),
        }
    }

    /// A responder accepts.
    pub(crate) fn accept(&mut self, private: PrivateData)
        requires { is_unanswered self.old.side ≡ true }
        ensures { self.new ≡ record self.old { side = replied (Accept private) } }
    {
        self.standing = Standing::Accepted;
        self.private = private;
    }

    /// A responder rejects.
    pub(crate) fn reject(&mut self, private: PrivateData)
        requires { is_unanswered self.old.side ≡ true }
        ensures { self.new ≡ record self.old { side = replied (Reject private) } }
    {
        self.standing = Standing::Rejected;
        self.private = private;
    }

    /// Whether this is the end that receives the Request.
    pub(crate) fn is_responder(&self) -> bool
        ensures { result ≡ is_responder self.now.side }
    {
        match self.standing {
            Standing::Initiator => false,
            Standing::Unanswered | Standing::Accepted | Standing::Rejected => true,
        }
    }

    /// Whether this is a responder that has not answered.
    pub(crate) fn is_unanswered(&self) -> bool
        ensures { result ≡ is_unanswered self.now.side }
    {
        match self.standing {
            Standing::Unanswered => true,
            Standing::Initiator | Standing::Accepted | Standing::Rejected => false,
        }
    }

    /// Whether this end has agreed, where the peer's frame came to this.
    pub(crate) fn has_agreed(&self, progress: Progress) -> bool
        ensures { result ≡ has_agreed self.now.side progress }
    {
        match (self.standing, progress) {
            (Standing::Initiator, Progress::Agreed) | (Standing::Accepted, Progress::Asked) => true,
            _ => false,
        }
    }

    /// The key of the frame that the other end sends.
    pub(crate) fn peer_key(&self) -> &'static [u8]
        ensures { result.now ≡ peer_key self.now.side }
    {
        match self.standing {
            Standing::Initiator => REPLY_KEY,
            Standing::Unanswered | Standing::Accepted | Standing::Rejected => REQUEST_KEY,
        }
    }

    /// The frame that this end sends where these octets came of the peer's, no octets at a responder without an answer.
    pub(crate) fn frame(&self, octets: &[u8]) -> ArrayVec<u8, MAX_FRAME>
        requires { length (own_frame self.now.config self.now.side octets.now) ≤ MAX_FRAME }
        ensures { result.items ≡ own_frame self.now.config self.now.side octets.now }
    {
        let (markers, crc) = (self.markers, self.crc);
        match self.standing {
            Standing::Unanswered => ArrayVec::new(),
            Standing::Initiator => {
                let revision = asked_revision(self.establishment);
                written(REQUEST_KEY, markers, crc, false, revision, &self.private)
            }
            Standing::Accepted => {
                let revision = in_kind(false, frame::revision_of(self, octets));
                written(REPLY_KEY, markers, crc, false, revision, &self.private)
            }
            Standing::Rejected => {
                let revision = in_kind(true, frame::revision_of(self, octets));
                written(REPLY_KEY, markers, crc, true, revision, &self.private)
            }
        }
    }

    /// How many octets that frame has.
    #[tactic(auto, using(crate::proofs::Lengths::length_request, crate::proofs::Lengths::length_reply))]
    pub(crate) fn frame_len(&self, octets: &[u8]) -> usize
        ensures { result ≡ length (own_frame self.now.config self.now.side octets.now) }
    {
        match self.standing {
            Standing::Unanswered => 0,
            Standing::Initiator => {
                frame::written_len(
                    asked_revision(self.establishment).is_enhanced(),
                    &self.private,
                )
            }
            Standing::Accepted => frame::written_len(frame::has_word(self, octets), &self.private),
            Standing::Rejected => frame::written_len(frame::has_word(self, octets), &self.private),
        }
    }
}
