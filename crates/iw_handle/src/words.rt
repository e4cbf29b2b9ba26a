//! What C passes as numbers, turned into types.
ghost use Rattle.std.specs.Prelude.{◌≡◌, ◌<◌, ◌≤◌, length, Some, None, IfOk};
ghost use Rattle.std.specs.Option.{option_map};
ghost use Rattle.std.specs.Result.{result_err};
ghost use Rattle.iw_octets.specs.Stag.{stag_of};
ghost use Rattle.iw_handle.specs.Words.{domain_number, has_bit, rights_of, role_of, role_refusal, role_in};
ghost use Rattle.iw_handle.specs.Words.{bits_refusal, private_of, private_refusal, config_refusal, config_of, establishment_of};
ghost use Rattle.iw_handle.specs.Words.{is_initiator, model_refusal, options_refusal};
ghost use Rattle.iw_handle.specs.Words.{invalidated_by, read_request};

use crate::refusal::Refusal;
use iw_codes::numbers;
use iw_endpoint::{Config, Establishment, PrivateData, ReadRequest, Rights, Role, Stag};

/// The STag with this number.
pub fn stag_of(n: u32) -> Stag
    ensures { result ≡ stag_of n }
{
    Stag::new(
        (n / 0x1000000) as u8,
        (n / 0x100 % 0x10000) as u16,
        (n % 0x100) as u8,
    )
}

/// The number of a domain: above 255 it names none, and so it is 0.
pub fn domain_number(n: u32) -> u8
    ensures { result ≡ domain_number n }
{
    if n < 256 { n as u8 } else { 0 }
}

/// Whether a sum of powers of two has this power.
pub(crate) fn has_bit(n: u32, bit: u32) -> bool
    requires { 0 < bit }
    ensures { result ≡ has_bit n bit }
{
    n / bit % 2 == 1
}

/// Whether this is a sum of powers of two below the bound, itself one.
pub(crate) fn check_bits(bound: u32, n: u32) -> Result<(), Refusal>
    ensures { result_err result ≡ bits_refusal bound n }
{
    if n < bound {
        Ok(())
    } else {
        Err(Refusal::BadBits)
    }
}

/// The rights of a sum of 1 (write), 2 (read), 4 (sink) and 8 (invalidate).
pub(crate) fn rights_of(n: u32) -> Rights
    ensures { result ≡ rights_of n }
{
    Rights {
        write: has_bit(n, numbers::WRITE),
        read: has_bit(n, numbers::READ),
        sink: has_bit(n, numbers::SINK),
        invalidate: has_bit(n, numbers::INVALIDATE),
    }
}

/// The role of 0 (preset), 1 (initiator) or 2 (responder).
pub(crate) fn role_of(n: u32) -> Result<Role, Refusal>
    ensures refused { result_err result ≡ role_refusal n }
    ensures role { IfOk result (λ role. role ≡ role_in n) }
{
    match n {
        numbers::PRESET => Ok(Role::Preset),
        numbers::INITIATOR => Ok(Role::Initiator),
        numbers::RESPONDER => Ok(Role::Responder),
        _ => Err(Refusal::BadRole),
    }
}

/// Octets as private data; `PrivateTooLong` if there are more than 512.
pub(crate) fn private_of(octets: &[u8]) -> Result<PrivateData, Refusal>
    ensures refused { result_err result ≡ private_refusal (length octets.now) }
    ensures private { IfOk result (λ private. private ≡ private_of octets.now) }
{
    let mut private = PrivateData::new();
    match private.try_extend_from_slice(octets) {
        Ok(()) => Ok(private),
        Err(_) => Err(Refusal::PrivateTooLong),
    }
}

/// The establishment of a sum of options: 8 is the peer-to-peer model, 4 revision 2 of MPA.
fn establishment_of(options: u32) -> Establishment
    ensures { result ≡ establishment_of options }
{
    if has_bit(options, numbers::PEER_TO_PEER) {
        return Establishment::PeerToPeer;
    }
    if has_bit(options, numbers::ENHANCED) {
        return Establishment::Enhanced;
    }
    Establishment::Plain
}

fn is_initiator(role: Role) -> bool
    ensures { result ≡ is_initiator role }
{
    match role {
        Role::Initiator => true,
        Role::Preset | Role::Responder => false,
    }
}

// Whether the peer-to-peer model, if the options have it, is an initiator's with revision 2.
fn check_model(role: Role, options: u32) -> Result<(), Refusal>
    ensures { result_err result ≡ model_refusal role options }
{
    if !has_bit(options, numbers::PEER_TO_PEER) {
        return Ok(());
    }
    if is_initiator(role) && has_bit(options, numbers::ENHANCED) {
        return Ok(());
    }
    Err(Refusal::BadBits)
}

// Whether these are options of such a stream.
fn check_options(role: Role, options: u32) -> Result<(), Refusal>
    ensures { result_err result ≡ options_refusal role options }
{
    check_bits(16, options)?;
    check_model(role, options)
}

/// The configuration of a stream, from its role, a sum of 1 (the peer is to send markers), 2 (CRCs), 4 (revision 2 of MPA) and 8
/// (the peer-to-peer model), and private data.
pub(crate) fn config_of(role: Role, options: u32, private: &[u8]) -> Result<Config, Refusal>
    ensures refused { result_err result ≡ config_refusal role options (length private.now) }
    ensures config { IfOk result (λ config. config ≡ config_of options private.now) }
{
    check_options(role, options)?;
    Ok(Config {
        markers: has_bit(options, numbers::MARKERS),
        crc: has_bit(options, numbers::CRC),
        establishment: establishment_of(options),
        private: private_of(private)?,
    })
}

/// The STag that a Send invalidates, if its flags have 2 (invalidates).
pub(crate) fn invalidated_by(flags: u32, stag: u32) -> Option<Stag>
    ensures { result ≡ invalidated_by flags stag }
{
    if has_bit(flags, numbers::INVALIDATES) {
        Some(stag_of(stag))
    } else {
        None
    }
}

/// The Read with these numbers.
pub fn read_request(sink: u32, sink_to: u64, size: u32, source: u32, source_to: u64) -> ReadRequest
    ensures { result ≡ read_request sink sink_to size source source_to }
{
    ReadRequest {
        sink: stag_of(sink),
        sink_to,
        size,
        source: stag_of(source),
        source_to,
    }
}
