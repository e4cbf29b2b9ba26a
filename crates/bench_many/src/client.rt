use bytes::Bytes;
use iw_connection::{Filled, fill};
use iw_endpoint::{Config, Endpoint, Establishment, Message, PrivateData, Request, Role, Stag};
use std::alloc::{AllocError, AllocFailed, Global};

const DOMAIN: u8 = 1;

const STREAM: u32 = 0;

/// Something went wrong.
#[derive(Clone, Copy)]
pub(crate) struct Stop;

impl From<AllocError> for Stop {
    fn from(_error: AllocError) -> Self {
        Stop
    }
}

impl<T: Drop> From<AllocFailed<T>> for Stop {
    fn from(_error: AllocFailed<T>) -> Self {
        Stop
    }
}

/// The options of all streams.
pub(crate) fn config() -> Config {
    Config {
        markers: false,
        crc: false,
        establishment: Establishment::Plain,
        private: PrivateData::new(),
    }
}

fn set_up(endpoint: &mut Endpoint) -> Result<(), Stop> {
    if endpoint.add_domain(DOMAIN).is_err() {
        return Err(Stop);
    }
    match endpoint.open(STREAM, DOMAIN, Role::Preset, config()) {
        Ok(()) => Ok(()),
        Err(_) => Err(Stop),
    }
}

fn post(endpoint: &mut Endpoint, message: Message<Bytes>) -> Result<(), Stop> {
    match endpoint.post(STREAM, Request::Message(message)) {
        Ok(()) => Ok(()),
        Err(_) => Err(Stop),
    }
}

// Posts a Write of the octets to the beginning of a region, and a Send of 64 octets.
fn post_both(
    alloc: Global,
    endpoint: &mut Endpoint,
    stag: Stag,
    octets: &[u8],
) -> Result<(), Stop> {
    let octets = Bytes::copy_from_slice(alloc, octets)?;
    post(
        endpoint,
        Message::Write {
            stag,
            to: 0,
            octets,
        },
    )?;
    let octets = Bytes::copy_from_slice(alloc, &[1; 64])?;
    post(
        endpoint,
        Message::Send {
            octets,
            solicited: false,
            invalidate: None,
        },
    )
}

fn emit_all(endpoint: &mut Endpoint, out: &mut Vec<u8>) -> Result<(), Stop> {
    match fill(endpoint, STREAM, out, usize::MAX) {
        Ok(Filled::All) => Ok(()),
        _ => Err(Stop),
    }
}

/// The frames of a Write of the octets to the beginning of a region, and of a Send.
pub(crate) fn frames(alloc: Global, stag: Stag, octets: &[u8]) -> Result<Vec<u8>, Stop> {
    let mut endpoint = Endpoint::new(alloc);
    set_up(&mut endpoint)?;
    post_both(alloc, &mut endpoint, stag, octets)?;
    let mut out = Vec::new(alloc);
    emit_all(&mut endpoint, &mut out)?;
    Ok(out)
}
