//! The fixed words of schedules and traces: the table from which they are read and printed.

ghost use Rattle.std.specs.Prelude.{◌≡◌};
ghost use Rattle.iw_schedules.specs.Words.{end_text, end_word, role_text, role_word, call_text, call_word};

use crate::fault::FaultName;
use iw_events::{End, Role};

/// The call of a line: its second word.
#[derive(Clone, Copy)]
pub(crate) enum CallWord {
    Domain,
    Register,
    Deregister,
    Invalidate,
    Store,
    Open,
    Share,
    Pool,
    Unpool,
    OpenShared,
    Accept,
    Reject,
    Recv,
    Send,
    Write,
    Read,
    Emit,
    Work,
    Deliver,
    Raw,
    First,
    Mulpdu,
    Break,
}

// How many places the table of words has.
const PLACE_COUNT: usize = 64;

// What `likely` multiplies the third letter by: the least factor that gives each of the 23 words a place of its own among
// 64, by trial of all. Among 32 places none does.
const LETTER_FACTOR: usize = 36;

// The words at the places that `likely` goes to. `Domain` fills the places at which no word belongs.
static PLACES: [CallWord; PLACE_COUNT] = [
    CallWord::Domain,
    CallWord::Domain,
    CallWord::Domain,
    CallWord::Domain,
    CallWord::Register,
    CallWord::Domain,
    CallWord::Unpool,
    CallWord::Domain,
    CallWord::Emit,
    CallWord::Write,
    CallWord::Domain,
    CallWord::Domain,
    CallWord::Work,
    CallWord::First,
    CallWord::Domain,
    CallWord::Domain,
    CallWord::Domain,
    CallWord::Domain,
    CallWord::Deregister,
    CallWord::Domain,
    CallWord::Domain,
    CallWord::Domain,
    CallWord::Domain,
    CallWord::Domain,
    CallWord::Domain,
    CallWord::Domain,
    CallWord::Domain,
    CallWord::Domain,
    CallWord::Domain,
    CallWord::Domain,
    CallWord::Domain,
    CallWord::Domain,
    CallWord::Pool,
    CallWord::Store,
    CallWord::Invalidate,
    CallWord::Domain,
    CallWord::Domain,
    CallWord::Domain,
    CallWord::Domain,
    CallWord::Domain,
    CallWord::Read,
    CallWord::Share,
    CallWord::Domain,
    CallWord::Domain,
    CallWord::Domain,
    CallWord::Domain,
    CallWord::Reject,
    CallWord::Domain,
    CallWord::Recv,
    CallWord::Domain,
    CallWord::Accept,
    CallWord::Domain,
    CallWord::Domain,
    CallWord::Domain,
    CallWord::Mulpdu,
    CallWord::Deliver,
    CallWord::Open,
    CallWord::Break,
    CallWord::Domain,
    CallWord::Domain,
    CallWord::Send,
    CallWord::Domain,
    CallWord::OpenShared,
    CallWord::Raw,
];

impl CallWord {
    pub(crate) fn text(self) -> &'static str
        ensures { result.now ≡ call_text self }
    {
        match self {
            CallWord::Domain => "domain",
            CallWord::Register => "register",
            CallWord::Deregister => "deregister",
            CallWord::Invalidate => "invalidate",
            CallWord::Store => "store",
            CallWord::Open => "open",
            CallWord::Share => "share",
            CallWord::Pool => "pool",
            CallWord::Unpool => "unpool",
            CallWord::OpenShared => "openshared",
            CallWord::Accept => "accept",
            CallWord::Reject => "reject",
            CallWord::Recv => "recv",
            CallWord::Send => "send",
            CallWord::Write => "write",
            CallWord::Read => "read",
            CallWord::Emit => "emit",
            CallWord::Work => "work",
            CallWord::Deliver => "deliver",
            CallWord::Raw => "raw",
            CallWord::First => "first",
            CallWord::Mulpdu => "mulpdu",
            CallWord::Break => "break",
        }
    }

    #[tactic(auto, unfolding(crate::specs::Words::call_word))]
    pub(crate) fn read(word: &[u8]) -> Result<CallWord, FaultName>
        ensures { result ≡ call_word word.now }
    {
        let call = CallWord::likely(word);
        if word == call.text().as_bytes() {
            return Ok(call);
        }
        Err(FaultName::BadWord)
    }

    // The only word that a text may be: no two words have the same length and third letter.
    fn likely(word: &[u8]) -> CallWord
        ensures { (call : CallWord) → word.now ≡ call_text call → result ≡ call }
    {
        let third = word.get(2).copied().unwrap_or(0);
        PLACES[(word.len() % PLACE_COUNT + LETTER_FACTOR * third as usize) % PLACE_COUNT]
    }
}

pub(crate) fn end_name(end: End) -> &'static str
    ensures { result.now ≡ end_text end }
{
    match end {
        End::A => "a",
        End::B => "b",
    }
}

pub(crate) fn end(word: &[u8]) -> Result<End, FaultName>
    ensures { result ≡ end_word word.now }
{
    for end in [End::A, End::B] {
        if word == end_name(end).as_bytes() {
            return Ok(end);
        }
    }
    Err(FaultName::BadWord)
}

fn role_name(role: Role) -> &'static str
    ensures { result.now ≡ role_text role }
{
    match role {
        Role::Preset => "preset",
        Role::Initiator => "initiator",
        Role::Responder => "responder",
    }
}

pub(crate) fn role(word: &[u8]) -> Result<Role, FaultName>
    ensures { result ≡ role_word word.now }
{
    for role in [Role::Preset, Role::Initiator, Role::Responder] {
        if word == role_name(role).as_bytes() {
            return Ok(role);
        }
    }
    Err(FaultName::BadWord)
}
