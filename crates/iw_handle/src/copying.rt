//! Octets copied out to C, and checks that several calls share.
ghost use Rattle.std.specs.Prelude.{◌≡◌, Some, length, OnOk, OnErr};
ghost use Rattle.std.specs.Result.{result_err};
ghost use Rattle.iw_handle.specs.State.{room_refusal, length_refusal, stream_refusal, filled};

use crate::refusal::Refusal;
use iw_endpoint::Endpoint;
use iw_octets::MAX_OCTETS;

/// Copies octets to the front of a buffer. `len` becomes their number, even if they do not fit (`NoRoom`). An `Err`
/// leaves the buffer as it was.
pub(crate) fn copy_out(octets: &[u8], out: &mut [u8], len: &mut usize) -> Result<(), Refusal>
    ensures refused { result_err result ≡ room_refusal (length octets.now) (length out.old) }
    ensures len { len.new ≡ length octets.now }
    ensures ok { OnOk result (out.new ≡ filled (Some octets.now) out.old) }
    ensures err { OnErr result (out.new ≡ out.old) }
{
    let n = octets.len();
    *len = n;
    if n > out.len() {
        return Err(Refusal::NoRoom);
    }
    out[..n].copy_from_slice(octets);
    Ok(())
}

/// Whether there is a stream of this number.
pub(crate) fn check_stream(endpoint: &Endpoint, number: u32) -> Result<(), Refusal>
    ensures { result_err result ≡ stream_refusal endpoint.now number }
{
    match endpoint.standing(number) {
        Ok(_) => Ok(()),
        Err(_) => Err(Refusal::NoSuchStream),
    }
}

/// Whether a receive buffer may have so many octets.
pub(crate) fn check_length(n: usize) -> Result<(), Refusal>
    ensures { result_err result ≡ length_refusal n }
{
    if n > MAX_OCTETS {
        return Err(Refusal::BufferTooLong);
    }
    Ok(())
}
