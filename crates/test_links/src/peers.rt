use iw_commands::Peers;
use std::alloc::Global;
use std::io::{self, Cursor, ErrorKind};
use test_support::Halting;

/// Peers one after the other, a line for each: the octets that it sends, as hexadecimal digits, or `-` if no connection
/// to it can be made. Each gives seven octets a read.
#[derive(Drop)]
pub(crate) struct Script<'a> {
    alloc: Global,
    rest: &'a str,
}

impl<'a> Script<'a> {
    pub(crate) fn new(alloc: Global, lines: &'a str) -> Script<'a> {
        Script { alloc, rest: lines }
    }
}

impl<'a> Peers for Script<'a> {
    type Input = Halting<Cursor<Vec<u8>>>;

    type Output = Vec<u8>;

    fn next_peer(&mut self) -> io::Result<(Halting<Cursor<Vec<u8>>>, Vec<u8>)> {
        let Some((line, rest)) = self.rest.split_once('\n') else {
            return Err(io::Error::from(ErrorKind::ConnectionRefused));
        };
        self.rest = rest;
        match hex::decode(self.alloc, line) {
            Ok(octets) => Ok((Halting::new(Cursor::new(octets), 7), Vec::new(self.alloc))),
            Err(_) => Err(io::Error::from(ErrorKind::ConnectionRefused)),
        }
    }
}

/// What an initiator sends: a Request, a Write of `hi` at tagged offset 0 of region 01000000, and a Send of `hi`.
pub(crate) const CALL: &str = "4d504120494420526571204672616d6500010000\
    0010c1400100000000000000000000006869000000000000\
    00144143000000000000000000000001000000006869000000000000\n";
