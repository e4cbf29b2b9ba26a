ghost use Rattle.std.specs.Prelude.{◌≡◌, ◌-◌, ◌<◌};
ghost use Rattle.iw_octets.specs.Parts.{parts};

use crate::parts::Cut;
use iw_octets::TAGGED_HEADER;

/// Cuts a message of `len` octets into parts for segments of at most `max` octets each, the 14 octets of the header
/// included: `max` must be more than 14. Each part but the last is full. The last part is empty only if the message is.
pub fn cut(len: usize, max: usize) -> Cut
    requires { 14 < max }
    ensures { result ≡ parts len (max - 14) }
{
    Cut::new(len, max - TAGGED_HEADER)
}
