//! The kinds of Sends (RFC 5040 1.2): the table from which they are read and printed.

ghost use Rattle.std.specs.Prelude.{◌≡◌};
ghost use Rattle.iw_schedules.specs.Words.{one_of};
ghost use Rattle.iw_schedules.specs.SendKind.{send_text, kind_word, kind_of, is_solicited};
ghost use Rattle.iw_schedules.specs.SendKind.{no_stag_word, invalidated_word};

use crate::fault::FaultName;
use crate::kinds;
use iw_octets::Stag;

/// The kind of a Send.
#[derive(Clone, Copy)]
pub(crate) enum SendKind {
    /// Not solicited, and invalidates nothing.
    Plain,
    /// With Solicited Event.
    Solicited,
    /// With Invalidate.
    Invalidate,
    /// With Solicited Event and Invalidate.
    Both,
}

impl SendKind {
    /// All kinds.
    const ALL: [SendKind; 4] = [
        SendKind::Plain,
        SendKind::Solicited,
        SendKind::Invalidate,
        SendKind::Both,
    ];

    /// The kind of a Send that is solicited or not, and invalidates this.
    pub(crate) fn of(solicited: bool, invalidate: &Option<Stag>) -> SendKind
        ensures { result ≡ kind_of solicited invalidate.now }
    {
        match (solicited, invalidate) {
            (false, None) => SendKind::Plain,
            (true, None) => SendKind::Solicited,
            (false, Some(_)) => SendKind::Invalidate,
            (true, Some(_)) => SendKind::Both,
        }
    }

    pub(crate) fn text(self) -> &'static str
        ensures { result.now ≡ send_text self }
    {
        match self {
            SendKind::Plain => "plain",
            SendKind::Solicited => "solicited",
            SendKind::Invalidate => "invalidate",
            SendKind::Both => "both",
        }
    }

    pub(crate) fn read(word: &[u8]) -> Result<SendKind, FaultName>
        ensures { result ≡ kind_word word.now }
    {
        SendKind::one_of(&SendKind::ALL, word)
    }

    // The one of these that the word names.
    fn one_of(all: &[SendKind], word: &[u8]) -> Result<SendKind, FaultName>
        ensures { result ≡ one_of send_text all.now word.now }
    {
        for kind in all {
            if word == kind.text().as_bytes() {
                return Ok(*kind);
            }
        }
        Err(FaultName::BadWord)
    }

    pub(crate) fn is_solicited(self) -> bool
        ensures { result ≡ is_solicited self }
    {
        match self {
            SendKind::Plain | SendKind::Invalidate => false,
            SendKind::Solicited | SendKind::Both => true,
        }
    }

    /// The STag that a Send of this kind invalidates; the word must be `-` if the kind invalidates none.
    pub(crate) fn invalidated(self, word: &[u8]) -> Result<Option<Stag>, FaultName>
        ensures { result ≡ invalidated_word self word.now }
    {
        match self {
            SendKind::Plain | SendKind::Solicited => no_stag(word),
            SendKind::Invalidate | SendKind::Both => Ok(Some(kinds::stag(word)?)),
        }
    }
}

// No STag: `-`.
fn no_stag(word: &[u8]) -> Result<Option<Stag>, FaultName>
    ensures { result ≡ no_stag_word word.now }
{
    if word == b"-".as_slice() {
        return Ok(None);
    }
    Err(FaultName::BadNumber)
}
