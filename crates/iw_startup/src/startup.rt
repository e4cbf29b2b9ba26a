ghost use Rattle.std.specs.Prelude.{◌≡◌, ◌≤◌, length, IsTrue, is_ok, OnOk, OnErr, IfOk, Some, None};
ghost use Rattle.iw_startup.specs.declared.side.Reply.{Reply};
ghost use Rattle.iw_startup.specs.declared.side.Side.{Side};
ghost use Rattle.iw_startup.specs.Enhanced.{asked_revision};
ghost use Rattle.iw_startup.specs.Frame.{private_room, revision_of};
ghost use Rattle.iw_startup.specs.Peer.{progress_of};
ghost use Rattle.iw_startup.specs.State.{begun, is_responder, pushed, used, progress, IsReached};
ghost use Rattle.iw_startup.specs.State.{private_of, told_of, options_of, frame_of, agreement, agreed_of, mismatch_of, awaits_answer, answered, answer_room};

use crate::config::{
    Agreed, Config, FIXED_OCTETS, MAX_ENHANCED_PRIVATE, MAX_FRAME, PeerOptions, PrivateData,
};
use crate::enhanced::{EnhancedData, Mismatch};
use crate::own::Own;
use crate::progress::Progress;
use crate::{frame, negotiation};
use arrayvec::ArrayVec;
use iw_octets::MAX_PRIVATE;
use std::marker::Model;
use thiserror::Error;

/// Nobody waits for an answer: this end is an initiator, or the Request is not whole, faulty, or answered already.
#[derive(Clone, Copy, Debug, PartialEq, Eq, Error)]
#[error("no MPA Request waits for an answer")]
pub struct NotAsked;

/// One end's part in the start-up of a connection.
#[derive(Drop)]
pub struct Startup {
    own: Own,
    // The peer's octets.
    octets: ArrayVec<u8, MAX_FRAME>,
}

impl Model for Startup {
    ghost use Rattle.iw_startup.specs.State.{StartupState, IsReached};

    ghost Value = { StartupState };

    ghost view = { λ a. record { config = a.own.config; side = a.own.side; octets = a.octets.items } };

    ghost invariant = { λ a. IsReached (record { config = a.own.config; side = a.own.side; octets = a.octets.items }) };
}

impl Startup {
    /// The end that sends the Request, before anything came from the peer.
    ///
    /// The private data has at most [`MAX_ENHANCED_PRIVATE`] octets unless the establishment is `Plain`.
    pub fn initiator(config: Config) -> Startup
        requires { length config.private.items ≤ private_room (asked_revision config.establishment) }
        ensures { result ≡ begun Side.Initiator config }
    {
        Startup {
            own: Own::initiator(config),
            octets: ArrayVec::new(),
        }
    }

    /// The end that waits for the Request, before anything came from the peer.
    pub fn responder(config: Config) -> Startup
        ensures { result ≡ begun (Side.Responder None) config }
    {
        Startup {
            own: Own::responder(config),
            octets: ArrayVec::new(),
        }
    }

    /// Takes the next octets from the peer as far as its frame goes. It tells how many octets were used, and how far
    /// the frame has come (RFC 5044 7.1.1, 7.1.2).
    ///
    /// The flags that are reserved, and R in a Request, are not looked at. Nothing past the frame is used. After any
    /// answer but [`Progress::More`] it uses none and answers the same.
    pub fn push(&mut self, octets: &[u8]) -> (usize, Progress)
        ensures used { result.0 ≡ used self.old octets.now }
        ensures after { self.new ≡ pushed self.old octets.now }
        ensures progress { result.1 ≡ progress self.new }
        ensures reached { IsReached self.new }
    {
        let fixed = frame::take_up_to(FIXED_OCTETS, &mut self.octets, octets);
        let end = frame::end_of_frame(&self.own, self.octets.as_slice());
        let private = frame::take_up_to(end, &mut self.octets, &octets[fixed..]);
        let progress = frame::progress_in(&self.own, self.octets.as_slice());
        (fixed + private, progress)
    }

    /// How far the peer's frame has come where these octets are all that came of it. It only looks.
    pub fn progress_of(&self, octets: &[u8]) -> Progress
        ensures { result ≡ progress_of self.now.config.establishment self.now.side octets.now }
    {
        frame::progress_in(&self.own, octets)
    }

    /// Whether this is the end that receives the Request.
    pub fn is_responder(&self) -> bool
        ensures { result ≡ is_responder self.now.side }
    {
        self.own.is_responder()
    }

    /// How many octets of the peer's frame were taken.
    pub fn taken(&self) -> usize
        ensures taken { result ≡ length self.now.octets }
        ensures fits { result ≤ MAX_FRAME }
    {
        self.octets.len()
    }

    /// How many octets of private data an answer may carry: 508 to an enhanced Request, else 512.
    pub fn answer_room(&self) -> usize
        ensures { result ≡ answer_room self.now }
    {
        if frame::has_word(&self.own, self.octets.as_slice()) {
            return MAX_ENHANCED_PRIVATE;
        }
        MAX_PRIVATE
    }

    /// Answers the Request: the connection is to be. The Reply is of the Request's revision, and carries this private
    /// data, for which [`Startup::answer_room`] tells the room.
    ///
    /// An `Err` changes nothing. It comes at an initiator, before the Request is whole, for a faulty one, and after an
    /// answer was given.
    pub fn accept(&mut self, private: PrivateData) -> Result<Agreed, NotAsked>
        requires { length private.items ≤ answer_room self.old }
        ensures refused { is_ok result ≡ awaits_answer self.old }
        ensures ok { OnOk result (self.new ≡ answered self.old (Reply.Accept private)) }
        ensures err { OnErr result (self.new ≡ self.old) }
        ensures agreed { IfOk result (λ agreed. agreed_of self.new ≡ Some agreed) }
        ensures value { IfOk result (λ agreed. agreed ≡ agreement self.old.config self.old.octets) }
    {
        if !self.awaits_answer() {
            return Err(NotAsked);
        }
        self.own.accept(private);
        Ok(frame::agreement_with(&self.own, self.octets.as_slice()))
    }

    /// Answers the Request: the connection is not to be. The Reply carries this private data, and M, C and the word as one
    /// that accepts, with an ORD of 16 unless the Request's IRD is not negotiated.
    ///
    /// An `Err` changes nothing. It comes where that of [`Startup::accept`] does.
    pub fn reject(&mut self, private: PrivateData) -> Result<(), NotAsked>
        requires { length private.items ≤ answer_room self.old }
        ensures refused { is_ok result ≡ awaits_answer self.old }
        ensures ok { OnOk result (self.new ≡ answered self.old (Reply.Reject private)) }
        ensures err { OnErr result (self.new ≡ self.old) }
    {
        if !self.awaits_answer() {
            return Err(NotAsked);
        }
        self.own.reject(private);
        Ok(())
    }

    /// The frame that this end sends: an initiator's Request, a responder's Reply (RFC 5044 7.1.1).
    ///
    /// It is empty at a responder without an answer.
    pub fn frame(&self) -> ArrayVec<u8, MAX_FRAME>
        ensures { result.items ≡ frame_of self.now }
    {
        self.own.frame(self.octets.as_slice())
    }

    /// The peer's private data, empty before its frame is whole.
    #[tactic(auto, unfolding(crate::specs::State::private_of))]
    pub fn private(&self) -> &[u8]
        ensures private { result.now ≡ private_of self.now }
        ensures reached { IsReached self.now }
    {
        frame::private_in(&self.own, self.octets.as_slice())
    }

    /// What the peer told in its word of IRD and ORD, once its frame was read: also where a Reply rejects, and where it wants
    /// what this end does not have (RFC 6581 9.1). It is `None` if the frame has no word.
    #[tactic(auto, unfolding(crate::specs::State::told_of))]
    pub fn told(&self) -> Option<EnhancedData>
        ensures { result ≡ told_of self.now }
    {
        let octets = self.octets.as_slice();
        if !frame::is_read(&self.own, octets) {
            return None;
        }
        frame::told(&self.own, octets)
    }

    /// What the peer asks for in its frame, once that was read: also where a Reply rejects.
    #[tactic(auto, unfolding(crate::specs::State::options_of))]
    pub fn peer_options(&self) -> Option<PeerOptions>
        ensures { result ≡ options_of self.now }
    {
        let octets = self.octets.as_slice();
        if frame::is_read(&self.own, octets) {
            return Some(frame::options_in(octets));
        }
        None
    }

    /// How many octets the frame has that this end sends.
    pub fn frame_len(&self) -> usize
        ensures len { result ≡ length (frame_of self.now) }
        ensures fits { result ≤ MAX_FRAME }
    {
        self.own.frame_len(self.octets.as_slice())
    }

    /// What both frames agree on: at an initiator once the Reply accepts, at a responder once its user did.
    #[tactic(auto, unfolding(crate::specs::State::agreed_of))]
    pub fn agreed(&self) -> Option<Agreed>
        ensures { result ≡ agreed_of self.now }
    {
        let octets = self.octets.as_slice();
        let progress = frame::progress_in(&self.own, octets);
        if !self.own.has_agreed(progress) {
            return None;
        }
        Some(frame::agreement_with(&self.own, octets))
    }

    /// What an initiator does not have that the Reply wants, which accepts (RFC 6581 8, 9). The stream is then to be
    /// terminated, and what was agreed stands.
    #[tactic(auto, unfolding(crate::specs::State::mismatch_of))]
    pub fn mismatch(&self) -> Option<Mismatch>
        ensures { result ≡ mismatch_of self.now }
    {
        let octets = self.octets.as_slice();
        match frame::progress_in(&self.own, octets) {
            Progress::Agreed => {
                let told = frame::told(&self.own, octets);
                negotiation::mismatch_in(self.own.establishment, told)
            }
            Progress::More | Progress::Asked | Progress::Faulted(_) => None,
        }
    }

    /// Whether a responder's user may answer: the Request is whole, and there is no answer yet.
    pub fn awaits_answer(&self) -> bool
        ensures { result ≡ awaits_answer self.now }
    {
        self.own.is_unanswered()
            && frame::progress_in(&self.own, self.octets.as_slice()) == Progress::Asked
    }
}
