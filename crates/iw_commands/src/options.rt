use iw_endpoint::Establishment;
use iw_links::Terms;

/// What a command's connections ask for in their start-up frames.
#[derive(Clone, Copy, Debug, PartialEq, Eq)]
pub struct Options {
    /// That the peer sends markers.
    pub markers: bool,
    /// That both ends use CRCs.
    pub crc: bool,
    /// That revision 2 of MPA is used, with its enhanced frames (RFC 6581).
    pub enhanced: bool,
}

impl Options {
    ghost use Rattle.std.specs.Prelude.{◌≡◌};
    ghost use Rattle.iw_commands.specs.Printed.{establishment_of, terms_at};

    fn establishment(self) -> Establishment
        ensures { result ≡ establishment_of self.enhanced }
    {
        if self.enhanced {
            Establishment::Enhanced
        } else {
            Establishment::Plain
        }
    }

    /// The terms of one connection.
    pub(crate) fn at(self, stream: u8) -> Terms
        ensures { result ≡ terms_at self stream }
    {
        Terms {
            number: u32::from(stream),
            markers: self.markers,
            crc: self.crc,
            establishment: self.establishment(),
        }
    }
}
