//! Whether a stream has ended, and what is still to be emitted then.
ghost use Rattle.std.specs.Prelude.{◌≡◌, ◌≤◌, is_some, length, IfSome};
ghost use Rattle.std.specs.Option.{option_map};
ghost use Rattle.iw_stream.specs.Ending.{has_ended, is_broken, last_word};

use arrayvec::ArrayVec;
use iw_rdmap::MAX_TERMINATE;

/// How a stream stands to its end.
#[derive(Debug, Drop)]
pub enum Ending {
    /// It has not ended.
    Runs,
    /// It has ended, by a fault, a Terminate or its start-up. With the payload of the Terminate that is still to be
    /// emitted, if one is due.
    Over(Option<ArrayVec<u8, MAX_TERMINATE>>),
    /// Its link broke: nothing more is emitted.
    Broken,
}

impl Ending {
    #[inline(always)]
    pub(crate) fn has_ended(&self) -> bool
        ensures { result ≡ has_ended self.now }
    {
        !matches!(self, Ending::Runs)
    }

    pub(crate) fn is_broken(&self) -> bool
        ensures { result ≡ is_broken self.now }
    {
        matches!(self, Ending::Broken)
    }

    // How long the payload of the Terminate is that is due, if one is.
    pub(crate) fn last_word_len(&self) -> Option<usize>
        ensures len { result ≡ option_map length (last_word self.now) }
        ensures few { IfSome result (λ n. n ≤ MAX_TERMINATE) }
    {
        match self {
            Ending::Over(Some(payload)) => Some(payload.len()),
            _ => None,
        }
    }

    // Whether a Terminate is due.
    pub(crate) fn has_last_word(&self) -> bool
        ensures { result ≡ is_some (last_word self.now) }
    {
        matches!(self, Ending::Over(Some(_)))
    }
}
