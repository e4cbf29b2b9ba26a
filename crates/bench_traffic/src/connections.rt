//! Connections that come and go, while thousands of others are idle: start-up frames with private data, a few commands,
//! a Write, and a close.

use crate::end::{End, TO_WRITE, config, made, send};
use anyhow::{Result, bail};
use bench_input::{Digest, Pool, Random};
use bytes::Bytes;
use iw_connection::{Octets, Step, close};
use iw_endpoint::{Message, Role, Stag};
use std::alloc::Global;
use std::collections::VecDeque;

/// How many connections are idle.
const IDLE: u32 = 4_000;

/// The octets of a connection's region.
const REGION: usize = 4_096;

const MOST: u32 = 100_000;

/// How many connections beside the idle ones are open at a time, and how many commands each has.
#[derive(Clone, Copy)]
pub struct Load {
    pub alive: usize,
    pub commands: u32,
}

/// Many are open at a time.
pub const MANY: Load = Load {
    alive: 256,
    commands: 4,
};

/// A connection, and the region that its client writes to.
#[derive(Clone, Copy)]
struct Connection {
    number: u32,
    stag: u32,
}

#[derive(Drop)]
struct Server {
    alloc: Global,
    load: Load,
    random: Random,
    pool: Pool,
    client: End,
    server: End,
    open: VecDeque<Connection>,
    digest: Digest,
}

impl Server {
    fn new(alloc: Global, seed: u32, load: Load) -> Result<Server> {
        let mut random = Random::new(seed);
        let pool = Pool::new(alloc, &mut random)?;
        Ok(Server {
            alloc,
            load,
            random,
            pool,
            client: End::new(alloc)?,
            server: End::new(alloc)?,
            open: VecDeque::new(alloc),
            digest: Digest::new(),
        })
    }

    // Opens a connection: the client's Request has private data, and so has the server's Reply.
    fn connect(&mut self) -> Result<u32> {
        let len = self.random.between(4, 64);
        let at = self.pool.place(&mut self.random, len);
        let private = self.pool.look(at, len)?;
        let number = self
            .client
            .open(Role::Initiator, config(false, false, private))?;
        self.server
            .open(Role::Responder, config(false, false, &[]))?;
        self.carry(number)?;
        Ok(number)
    }

    fn open_idle(&mut self) -> Result<()> {
        for _ in 0..IDLE {
            self.connect()?;
        }
        Ok(())
    }

    fn server_step(&mut self, number: u32, step: Step<Octets>) -> Result<()> {
        match step {
            Step::Asked => {
                let private = made("private", self.server.endpoint.private(number))?;
                self.digest.add_octets(private);
                let reply = self.random.next().to_le_bytes();
                self.server.accept(number, &reply)
            }
            Step::Received { buffer, len, .. } => {
                let octets = buffer.as_slice();
                self.digest.add_octets(&octets[..len.min(octets.len())]);
                self.answer(number)
            }
            step => self.server.note(number, step),
        }
    }

    fn answer(&mut self, number: u32) -> Result<()> {
        let mut octets = [0u8; 16];
        octets[0..8].copy_from_slice(&self.random.next().to_le_bytes());
        let octets = Bytes::copy_from_slice(self.alloc, &octets)?;
        self.server.post_message(number, send(octets))
    }

    fn server_acts(&mut self, number: u32) -> Result<()> {
        for _ in 0..MOST {
            match self.server.next(number)? {
                Step::Idle => return Ok(()),
                step => self.server_step(number, step)?,
            }
        }
        bail!("too many steps")
    }

    fn client_step(&mut self, number: u32, step: Step<Octets>) -> Result<()> {
        match step {
            Step::Received { buffer, len, .. } => {
                let octets = buffer.as_slice();
                self.digest.add_octets(&octets[..len.min(octets.len())]);
                Ok(())
            }
            step => self.client.note(number, step),
        }
    }

    fn client_acts(&mut self, number: u32) -> Result<()> {
        for _ in 0..MOST {
            match self.client.next(number)? {
                Step::Idle => return Ok(()),
                step => self.client_step(number, step)?,
            }
        }
        bail!("too many steps")
    }

    // Carries what the client has to write. Returns whether there was anything.
    fn carry_out(&mut self, number: u32) -> Result<bool> {
        let went = self.client.gather(number, 65_536)?;
        let mut rest = self.client.out.as_slice();
        for _ in 0..MOST {
            if rest.is_empty() {
                break;
            }
            self.server.read(number, &mut rest)?;
        }
        self.server_acts(number)?;
        self.client_acts(number)?;
        Ok(went)
    }

    fn carry_back(&mut self, number: u32) -> Result<bool> {
        let went = self.server.gather(number, 65_536)?;
        let mut rest = self.server.out.as_slice();
        for _ in 0..MOST {
            if rest.is_empty() {
                break;
            }
            self.client.read(number, &mut rest)?;
        }
        self.client_acts(number)?;
        self.server_acts(number)?;
        Ok(went)
    }

    fn carry(&mut self, number: u32) -> Result<()> {
        for _ in 0..MOST {
            let out = self.carry_out(number)?;
            let back = self.carry_back(number)?;
            if !out && !back {
                return Ok(());
            }
        }
        bail!("too many turns")
    }

    // The client sends a command, with buffers at both ends for it and for its answer.
    fn command(&mut self, number: u32) -> Result<()> {
        self.server.lend(number, vec![in self.alloc; 0; 64]?)?;
        self.client.lend(number, vec![in self.alloc; 0; 16]?)?;
        let at = self.pool.place(&mut self.random, 64);
        let octets = self.pool.part(at, 64)?;
        self.client.post_message(number, send(octets))?;
        self.carry(number)
    }

    // The client writes the connection's region.
    fn write(&mut self, connection: Connection) -> Result<()> {
        let at = self.pool.place(&mut self.random, REGION);
        let octets = self.pool.part(at, REGION)?;
        self.client.post_message(
            connection.number,
            Message::Write {
                stag: Stag::from(connection.stag),
                to: 0,
                octets,
            },
        )?;
        self.command(connection.number)
    }

    fn serve(&mut self) -> Result<Connection> {
        let number = self.connect()?;
        let region = vec![in self.alloc; 0; REGION]?;
        let stag = self.server.register(region, TO_WRITE)?;
        let connection = Connection {
            number,
            stag: u32::from(stag),
        };
        self.write(connection)?;
        for _ in 0..self.load.commands {
            self.command(number)?;
        }
        Ok(connection)
    }

    // Takes note of a connection's region, and frees it.
    fn look(&mut self, connection: Connection) -> Result<()> {
        let octets = self.server.deregister(Stag::from(connection.stag))?;
        self.digest.add_octets(octets.as_slice());
        Ok(())
    }

    // Ends a connection, and forgets it at both ends. A buffer that was not used comes back.
    fn end(&mut self, connection: Connection) -> Result<()> {
        let number = connection.number;
        self.server.lend(number, vec![in self.alloc; 0; 64]?)?;
        made("close", close(&mut self.client.endpoint, number))?;
        made("close", close(&mut self.server.endpoint, number))?;
        self.client_acts(number)?;
        self.server_acts(number)?;
        made("close", self.client.endpoint.close(number))?;
        made("close", self.server.endpoint.close(number))?;
        self.look(connection)
    }

    // Takes note of the regions of the connections that are open yet.
    fn look_at_rest(&mut self) -> Result<()> {
        for _ in 0..MOST {
            match self.open.pop_front() {
                Some(connection) => self.look(connection)?,
                None => break,
            }
        }
        Ok(())
    }

    fn run(&mut self, connections: u32) -> Result<()> {
        self.open_idle()?;
        for _ in 0..connections {
            let connection = self.serve()?;
            self.open.push_back(connection)?;
            if self.open.len() > self.load.alive {
                if let Some(oldest) = self.open.pop_front() {
                    self.end(oldest)?;
                }
            }
        }
        self.look_at_rest()
    }
}

/// Serves so many hundreds of connections. Returns the digest of what came.
pub fn run(alloc: Global, seed: u32, hundreds: u32, load: Load) -> Result<u64> {
    let mut server = Server::new(alloc, seed, load)?;
    server.run(hundreds.saturating_mul(100))?;
    Ok(server.digest.finish())
}
