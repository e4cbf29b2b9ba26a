ghost use Rattle.std.specs.Prelude.{◌≡◌};
ghost use Rattle.iw_schedules.specs.Options.{options_word, options_for, suits, established};

use crate::fault::FaultName;
use crate::letters::letter_at;
use iw_events::{Establishment, Options, Role};

/// The options of a stream with this role: as [`read_options`] reads them, and `p` for an initiator alone.
#[tactic(auto, unfolding(crate::specs::Options::options_for))]
pub(crate) fn read_options_for(role: Role, word: &[u8]) -> Result<Options, FaultName>
    ensures { result ≡ options_for role word.now }
{
    let options = read_options(word)?;
    if !suits(role, options.establishment) {
        return Err(FaultName::BadOctets);
    }
    Ok(options)
}

// Options: `-`, or letters of `mcep` in this order, `p` behind `e` alone.
#[tactic(auto, unfolding(crate::specs::Options::optional))]
fn read_options(word: &[u8]) -> Result<Options, FaultName>
    ensures { result ≡ options_word word.now }
{
    if word == b"-".as_slice() {
        return Ok(Options {
            markers: false,
            crc: false,
            establishment: Establishment::Plain,
        });
    }
    if word.is_empty() {
        return Err(FaultName::BadOctets);
    }
    let (markers, word) = letter_at(b'm', word);
    let (crc, word) = letter_at(b'c', word);
    let (enhanced, word) = letter_at(b'e', word);
    let (peer_to_peer, word) = letter_at(b'p', word);
    if !word.is_empty() {
        return Err(FaultName::BadOctets);
    }
    let establishment = established(enhanced, peer_to_peer)?;
    Ok(Options {
        markers,
        crc,
        establishment,
    })
}

fn established(enhanced: bool, peer_to_peer: bool) -> Result<Establishment, FaultName>
    ensures { result ≡ established enhanced peer_to_peer }
{
    match (enhanced, peer_to_peer) {
        (false, false) => Ok(Establishment::Plain),
        (true, false) => Ok(Establishment::Enhanced),
        (true, true) => Ok(Establishment::PeerToPeer),
        (false, true) => Err(FaultName::BadOctets),
    }
}

// The peer-to-peer model is an initiator's to ask for.
fn suits(role: Role, establishment: Establishment) -> bool
    ensures { result ≡ suits role establishment }
{
    match (role, establishment) {
        (_, Establishment::Plain | Establishment::Enhanced) => true,
        (Role::Initiator, Establishment::PeerToPeer) => true,
        (Role::Preset | Role::Responder, Establishment::PeerToPeer) => false,
    }
}
