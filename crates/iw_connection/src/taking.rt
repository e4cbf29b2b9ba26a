ghost use Rattle.std.specs.Prelude.{◌≡◌, ◌≤◌, ◌↔◌, max, false, is_ok, Err, IfOk, OnOk, OnErr};
ghost use Rattle.std.specs.Io.KnownBytes.{Keeps};
ghost use Rattle.iw_stream.specs.Reading.{octets_read};
ghost use Rattle.iw_endpoint.specs.Endpoint.{has_stream, broken};
ghost use Rattle.iw_endpoint.specs.Reading.{IsRead};

use crate::StreamNumber;
use iw_endpoint::{CallRefusal, Endpoint, Intake, NoSuchStream};
use std::alloc::Allocator;
use std::io::{self, Read};

/// Reads once from a stream's connection, right to where the octets are to stand ([`Endpoint::read_from`]). What was read is
/// delivered, past all that came before, and none of it is dropped unless the stream has ended. It asks for 4,096 octets at
/// first, and for four times as many, 65,536 at most, behind a read that brought all that it asked for.
///
/// `Refused` has the error of the reader, also if the read would block or was interrupted, or one of the kind
/// `OutOfMemory`: nothing was read. An `Err` changes nothing.
pub fn take<A: Allocator, R: Read>(
    endpoint: &mut Endpoint<A>,
    number: StreamNumber,
    from: &mut R,
) -> Result<Intake, CallRefusal<io::Error>>
    ensures stream { (result ≡ Err CallRefusal.NoSuchStream) ↔ (has_stream endpoint.old number ≡ false) }
    ensures ok { IfOk result (λ intake. IsRead endpoint.old endpoint.new number (R.remaining from.old) (R.remaining from.new) intake) }
    ensures err { OnErr result ((endpoint.new ≡ endpoint.old) × Keeps (R.remaining from.old) (R.remaining from.new)) }
{
    endpoint.read_from(number, from)
}

/// As [`take`], but at most `most` octets are read, 1 if `most` is 0, and memory is asked for and cleared for that many alone
/// ([`Endpoint::read_some`]).
pub fn take_some<A: Allocator, R: Read>(
    endpoint: &mut Endpoint<A>,
    number: StreamNumber,
    from: &mut R,
    most: usize,
) -> Result<Intake, CallRefusal<io::Error>>
    ensures stream { (result ≡ Err CallRefusal.NoSuchStream) ↔ (has_stream endpoint.old number ≡ false) }
    ensures few { IfOk result (λ intake. octets_read intake ≤ max most 1) }
    ensures ok { IfOk result (λ intake. IsRead endpoint.old endpoint.new number (R.remaining from.old) (R.remaining from.new) intake) }
    ensures err { OnErr result ((endpoint.new ≡ endpoint.old) × Keeps (R.remaining from.old) (R.remaining from.new)) }
{
    endpoint.read_some(number, from, most)
}

/// Says that a stream's connection has ended, as [`Endpoint::break_link`] does. [`next`](crate::next) hands back what was
/// posted, and [`fill`](crate::fill) appends nothing more, not even a Terminate that is due.
pub fn break_link<A: Allocator>(
    endpoint: &mut Endpoint<A>,
    number: StreamNumber,
) -> Result<(), NoSuchStream>
    ensures stream { is_ok result ≡ has_stream endpoint.old number }
    ensures ok { OnOk result (endpoint.new ≡ broken endpoint.old number) }
    ensures err { OnErr result (endpoint.new ≡ endpoint.old) }
{
    endpoint.break_link(number)
}

/// The older name of [`break_link`]. **Deprecated**: it goes with the next release.
pub fn close<A: Allocator>(
    endpoint: &mut Endpoint<A>,
    number: StreamNumber,
) -> Result<(), NoSuchStream>
    ensures stream { is_ok result ≡ has_stream endpoint.old number }
    ensures ok { OnOk result (endpoint.new ≡ broken endpoint.old number) }
    ensures err { OnErr result (endpoint.new ≡ endpoint.old) }
{
    break_link(endpoint, number)
}
