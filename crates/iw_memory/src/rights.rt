//! What peers may use a region for, and the uses that ask for a right.
ghost use Rattle.std.specs.Prelude.{◌≡◌};
ghost use Rattle.iw_memory.specs.RightsText.{letter_of};
ghost use Rattle.iw_memory.specs.Region.{grants};

use std::fmt;

/// What a region may be used for. It prints as letters of `wrsi`, in this order, or as `-` if nothing is granted.
#[derive(Clone, Copy, Debug, Default, PartialEq, Eq)]
pub struct Rights {
    /// A peer's Writes may be placed in it.
    pub write: bool,
    /// It may be the source of a peer's Reads.
    pub read: bool,
    /// It may be the sink of this end's Reads.
    pub sink: bool,
    /// A peer may invalidate it.
    pub invalidate: bool,
}

/// One use of a region.
#[derive(Clone, Copy, Debug, PartialEq, Eq)]
pub enum Right {
    /// A peer's Write is placed.
    Write,
    /// A peer's Read is answered.
    Read,
    /// The response to a Read of this end is placed.
    Sink,
}

impl Rights {
    /// Whether this use is granted.
    pub fn grant(self, right: Right) -> bool
        ensures { result ≡ grants self right }
    {
        match right {
            Right::Write => self.write,
            Right::Read => self.read,
            Right::Sink => self.sink,
        }
    }
}

impl fmt::Display for Rights {
    ghost use Rattle.std.specs.Prelude.{Some};
    ghost use Rattle.iw_memory.specs.RightsText.{rights_text};

    ghost output = { λ rights. Some (rights_text rights) };

    fn fmt<W: fmt::Write>(&self, f: &mut fmt::Formatter<W>) -> fmt::Result {
        let Rights {
            write,
            read,
            sink,
            invalidate,
        } = *self;
        if !(write || read || sink || invalidate) {
            return f.write_str("-");
        }
        f.write_str(letter(write, "w"))?;
        f.write_str(letter(read, "r"))?;
        f.write_str(letter(sink, "s"))?;
        f.write_str(letter(invalidate, "i"))
    }
}

// The letter, if the right is granted.
fn letter(granted: bool, letter: &str) -> &str
    ensures { result.now ≡ letter_of granted letter.now }
{
    if granted { letter } else { "" }
}
