//! A storage target and its host, as NVMe over RDMA uses them: a command of 64 octets comes as a Send, the data goes by
//! Write or is fetched by Read, and an answer of 16 octets is a Send that invalidates the region of the command.

use crate::end::{End, SINK, config, made, send};
use anyhow::{Result, bail};
use bench_input::{Digest, Pool, Random};
use bytes::Bytes;
use iw_connection::{Octets, Step};
use iw_endpoint::{Message, ReadRequest, Request, Rights, Role, Stag};
use iw_stream::Kind;
use std::alloc::Global;
use std::collections::VecDeque;

/// How many queues there are, each a stream, and how many commands are outstanding at each.
const QUEUES: usize = 16;

const DEPTH: usize = 32;

/// The lengths of a command's data, and how many of 20 commands have each.
const LENGTHS: [usize; 5] = [4_096, 8_192, 16_384, 32_768, 131_072];

const SHARES: [usize; 5] = [13, 2, 2, 2, 1];

const COMMAND: usize = 64;

const ANSWER: usize = 16;

/// The most octets that a stream writes in a turn, but for one frame.
const MOST_WRITTEN: usize = 65_536;

/// The most turns of a round, and steps of a turn.
const MOST: u32 = 1_000_000;

/// What the peer may do with a command's region.
const COMMAND_RIGHTS: Rights = Rights {
    write: true,
    read: true,
    sink: false,
    invalidate: true,
};

/// A command, as the target reads it.
#[derive(Clone, Copy)]
struct Command {
    is_read: bool,
    len: usize,
    stag: u32,
    place: usize,
    id: u64,
}

/// A Read by which the target fetches a command's data.
#[derive(Clone, Copy)]
struct Fetch {
    sink: u32,
    command: Command,
}

/// Buffers that are not in use, those of one length in a list.
#[derive(Drop)]
struct Spare {
    lists: Vec<Vec<Vec<u8>>>,
}

impl Spare {
    fn new(alloc: Global) -> Result<Spare> {
        let mut lists = Vec::new(alloc);
        for _ in LENGTHS {
            lists.push(Vec::new(alloc))?;
        }
        Ok(Spare { lists })
    }

    // A buffer of a length: one that is not in use, or a new one.
    fn take(&mut self, alloc: Global, class: usize, len: usize) -> Result<Vec<u8>> {
        if let Some(list) = self.lists.get_mut(class) {
            if let Some(buffer) = list.pop() {
                return Ok(buffer);
            }
        }
        Ok(vec![in alloc; 0; len]?)
    }

    fn put(&mut self, class: usize, buffer: Vec<u8>) -> Result<()> {
        match self.lists.get_mut(class) {
            Some(list) => Ok(list.push(buffer)?),
            None => Ok(()),
        }
    }
}

// The place of a length among `LENGTHS`.
fn class_of(len: usize) -> usize {
    LENGTHS.iter().position(|it| *it == len).unwrap_or(0)
}

fn length_of(class: usize) -> usize {
    LENGTHS.get(class).copied().unwrap_or(4_096)
}

// Which length a command's data has.
fn some_class(random: &mut Random) -> usize {
    let mut number = random.below(20);
    let mut class = 0usize;
    for share in SHARES {
        if number < share {
            break;
        }
        number = number.saturating_sub(share);
        class = class.wrapping_add(1);
    }
    class
}

// The octets of a command.
fn spelled(command: &Command, random: &mut Random) -> [u8; COMMAND] {
    let mut octets = [0u8; COMMAND];
    octets[0] = command.is_read as u8;
    octets[4..8].copy_from_slice(&command.stag.to_be_bytes());
    octets[8..16].copy_from_slice(&(command.len as u64).to_le_bytes());
    octets[16..24].copy_from_slice(&(command.place as u64).to_le_bytes());
    octets[24..32].copy_from_slice(&command.id.to_le_bytes());
    octets[32..40].copy_from_slice(&random.next().to_le_bytes());
    octets
}

// Eight octets as a number, the first lowest.
fn number_at(octets: &[u8; COMMAND], at: usize) -> u64 {
    let mut number = 0u64;
    for octet in octets.iter().skip(at).take(8).rev() {
        number = (number << 8) | u64::from(*octet);
    }
    number
}

fn command_of(octets: &[u8]) -> Result<Command> {
    let Ok(octets) = <[u8; COMMAND]>::try_from(octets) else {
        bail!("a command of {} octets", octets.len());
    };
    Ok(Command {
        is_read: octets[0] == 1,
        len: number_at(&octets, 8) as usize,
        stag: u32::from_be_bytes([octets[4], octets[5], octets[6], octets[7]]),
        place: number_at(&octets, 16) as usize,
        id: number_at(&octets, 24),
    })
}

// The octets of the message in a buffer.
fn message(buffer: &[u8], len: usize) -> &[u8] {
    &buffer[..len.min(buffer.len())]
}

/// The host, the target, and what each keeps.
#[derive(Drop)]
struct Storage {
    alloc: Global,
    random: Random,
    pool: Pool,
    host: End,
    target: End,
    queues: Vec<u32>,
    spare: Spare,
    // Buffers of commands and of answers that are not posted.
    commands: Vec<Vec<u8>>,
    answers: Vec<Vec<u8>>,
    // What each queue of the target fetches.
    fetches: Vec<VecDeque<Fetch>>,
    next_id: u64,
    done: u64,
    digest: Digest,
}

// An empty list of what is fetched, for each queue.
fn no_fetches(alloc: Global) -> Result<Vec<VecDeque<Fetch>>> {
    let mut fetches = Vec::new(alloc);
    for _ in 0..QUEUES {
        fetches.push(VecDeque::new(alloc))?;
    }
    Ok(fetches)
}

fn buffer(alloc: Global, list: &mut Vec<Vec<u8>>, len: usize) -> Result<Vec<u8>> {
    match list.pop() {
        Some(buffer) => Ok(buffer),
        None => Ok(vec![in alloc; 0; len]?),
    }
}

impl Storage {
    fn new(alloc: Global, seed: u32) -> Result<Storage> {
        let mut random = Random::new(seed);
        let pool = Pool::new(alloc, &mut random)?;
        Ok(Storage {
            alloc,
            random,
            pool,
            host: End::new(alloc)?,
            target: End::new(alloc)?,
            queues: Vec::new(alloc),
            spare: Spare::new(alloc)?,
            commands: Vec::new(alloc),
            answers: Vec::new(alloc),
            fetches: no_fetches(alloc)?,
            next_id: 0,
            done: 0,
            digest: Digest::new(),
        })
    }

    // Opens the queues. Every second has frames as long as loopback allows, the others those of an Ethernet.
    fn open(&mut self, crc: bool) -> Result<()> {
        for queue in 0..QUEUES {
            let number = self
                .host
                .open(Role::Initiator, config(false, crc, b"queue"))?;
            self.target.open(Role::Responder, config(false, crc, &[]))?;
            self.queues.push(number)?;
            self.size(number, if queue % 2 == 0 { 1_400 } else { 64_512 })?;
        }
        Ok(())
    }

    fn size(&mut self, number: u32, mulpdu: u32) -> Result<()> {
        made("set_mulpdu", self.host.endpoint.set_mulpdu(number, mulpdu))?;
        made(
            "set_mulpdu",
            self.target.endpoint.set_mulpdu(number, mulpdu),
        )
    }

    // The region of a command, with what is to be written if it is one.
    fn region(&mut self, command: &Command) -> Result<Vec<u8>> {
        let class = class_of(command.len);
        let mut region = self.spare.take(self.alloc, class, command.len)?;
        if !command.is_read {
            let octets = self.pool.look(command.place, command.len)?;
            if region.len() == octets.len() {
                region.as_mut_slice().copy_from_slice(octets);
            }
        }
        Ok(region)
    }

    fn some_command(&mut self) -> Command {
        let len = length_of(some_class(&mut self.random));
        let place = self.pool.place(&mut self.random, len);
        self.next_id = self.next_id.wrapping_add(1);
        Command {
            is_read: self.random.once_in(2),
            len,
            stag: 0,
            place,
            id: self.next_id,
        }
    }

    // Posts a command at a queue, and buffers for it and for its answer.
    fn ask(&mut self, number: u32) -> Result<()> {
        let mut command = self.some_command();
        let region = self.region(&command)?;
        command.stag = u32::from(self.host.register(region, COMMAND_RIGHTS)?);
        let octets = spelled(&command, &mut self.random);
        let answer = buffer(self.alloc, &mut self.answers, ANSWER)?;
        self.host.lend(number, answer)?;
        let wanted = buffer(self.alloc, &mut self.commands, COMMAND)?;
        self.target.lend(number, wanted)?;
        let octets = Bytes::copy_from_slice(self.alloc, &octets)?;
        self.host.post_message(number, send(octets))
    }

    fn ask_all(&mut self) -> Result<()> {
        for queue in 0..QUEUES {
            let number = self.number_of(queue)?;
            for _ in 0..DEPTH {
                self.ask(number)?;
            }
        }
        Ok(())
    }

    fn number_of(&self, queue: usize) -> Result<u32> {
        match self.queues.get(queue) {
            Some(number) => Ok(*number),
            None => bail!("no such queue"),
        }
    }

    // The target answers a command, whose region is then invalid.
    fn answer(&mut self, number: u32, command: Command) -> Result<()> {
        let mut octets = [0u8; ANSWER];
        octets[0] = command.is_read as u8;
        octets[8..16].copy_from_slice(&command.id.to_le_bytes());
        let octets = Bytes::copy_from_slice(self.alloc, &octets)?;
        self.target.post_message(
            number,
            Message::Send {
                octets,
                solicited: false,
                invalidate: Some(Stag::from(command.stag)),
            },
        )
    }

    // The target writes what the host wants to read, and answers.
    fn write_out(&mut self, number: u32, command: Command) -> Result<()> {
        let octets = self.pool.part(command.place, command.len)?;
        self.target.post_message(
            number,
            Message::Write {
                stag: Stag::from(command.stag),
                to: 0,
                octets,
            },
        )?;
        self.answer(number, command)
    }

    // The target fetches what the host wants to write.
    fn fetch(&mut self, queue: usize, number: u32, command: Command) -> Result<()> {
        let class = class_of(command.len);
        let buffer = self.spare.take(self.alloc, class, command.len)?;
        let sink = u32::from(self.target.register(buffer, SINK)?);
        let Some(fetches) = self.fetches.get_mut(queue) else {
            bail!("no such queue");
        };
        fetches.push_back(Fetch { sink, command })?;
        self.target.post(
            number,
            Request::Read(ReadRequest {
                sink: Stag::from(sink),
                sink_to: 0,
                size: command.len.min(1 << 20) as u32,
                source: Stag::from(command.stag),
                source_to: 0,
            }),
        )
    }

    fn serve(&mut self, queue: usize, number: u32, command: Command) -> Result<()> {
        if command.is_read {
            self.write_out(number, command)
        } else {
            self.fetch(queue, number, command)
        }
    }

    // What was fetched has come: the command is answered.
    fn fetched(&mut self, queue: usize, number: u32) -> Result<()> {
        let Some(fetches) = self.fetches.get_mut(queue) else {
            bail!("no such queue");
        };
        let Some(fetch) = fetches.pop_front() else {
            bail!("nothing was fetched");
        };
        let octets = self.target.deregister(Stag::from(fetch.sink))?;
        self.keep(octets)?;
        self.answer(number, fetch.command)
    }

    // Takes note of a region's octets, and keeps its buffer for later.
    fn keep(&mut self, octets: Vec<u8>) -> Result<()> {
        self.digest.add_octets(octets.as_slice());
        self.spare.put(class_of(octets.len()), octets)
    }

    fn target_step(&mut self, queue: usize, number: u32, step: Step<Octets>) -> Result<()> {
        match step {
            Step::Received { buffer, len, .. } => {
                let command = command_of(message(buffer.as_slice(), len))?;
                self.commands.push(buffer.into_vec())?;
                self.serve(queue, number, command)
            }
            Step::Done(Kind::Read) => self.fetched(queue, number),
            step => self.target.note(number, step),
        }
    }

    // The target does what the steps of a queue ask for, until there is nothing to do.
    fn target_acts(&mut self, queue: usize, number: u32) -> Result<()> {
        for _ in 0..MOST {
            match self.target.next(number)? {
                Step::Idle => return Ok(()),
                step => self.target_step(queue, number, step)?,
            }
        }
        bail!("too many steps")
    }

    // The host takes a command's region back.
    fn finish(&mut self, stag: Stag, answer: &[u8]) -> Result<()> {
        self.digest.add_octets(answer);
        let octets = self.host.deregister(stag)?;
        self.done = self.done.wrapping_add(1);
        self.keep(octets)
    }

    fn host_step(&mut self, number: u32, step: Step<Octets>) -> Result<()> {
        match step {
            Step::Received {
                buffer,
                len,
                invalidate,
                ..
            } => {
                let Some(stag) = invalidate else {
                    bail!("an answer that invalidates nothing");
                };
                self.finish(stag, message(buffer.as_slice(), len))?;
                Ok(self.answers.push(buffer.into_vec())?)
            }
            step => self.host.note(number, step),
        }
    }

    fn host_acts(&mut self, number: u32) -> Result<()> {
        for _ in 0..MOST {
            match self.host.next(number)? {
                Step::Idle => return Ok(()),
                step => self.host_step(number, step)?,
            }
        }
        bail!("too many steps")
    }

    // Carries what the host has to write on a queue. Returns whether there was anything.
    fn carry_out(&mut self, queue: usize, number: u32) -> Result<bool> {
        let went = self.host.gather(number, MOST_WRITTEN)?;
        let mut rest = self.host.out.as_slice();
        for _ in 0..MOST {
            if rest.is_empty() {
                break;
            }
            self.target.read(number, &mut rest)?;
        }
        self.target_acts(queue, number)?;
        self.host_acts(number)?;
        Ok(went)
    }

    // The same of the target.
    fn carry_back(&mut self, queue: usize, number: u32) -> Result<bool> {
        let went = self.target.gather(number, MOST_WRITTEN)?;
        let mut rest = self.target.out.as_slice();
        for _ in 0..MOST {
            if rest.is_empty() {
                break;
            }
            self.host.read(number, &mut rest)?;
        }
        self.host_acts(number)?;
        self.target_acts(queue, number)?;
        Ok(went)
    }

    // One turn of each queue. Returns whether anything was carried.
    fn turn(&mut self) -> Result<bool> {
        let mut went = false;
        for queue in 0..QUEUES {
            let number = self.number_of(queue)?;
            let out = self.carry_out(queue, number)?;
            let back = self.carry_back(queue, number)?;
            went = went || out || back;
        }
        Ok(went)
    }

    // Turns until nothing is left to carry.
    fn carry(&mut self) -> Result<()> {
        for _ in 0..MOST {
            if !self.turn()? {
                return Ok(());
            }
        }
        bail!("too many turns")
    }

    fn run(&mut self, rounds: u32, crc: bool) -> Result<()> {
        self.open(crc)?;
        self.carry()?;
        for _ in 0..rounds {
            self.ask_all()?;
            self.carry()?;
        }
        Ok(())
    }
}

/// Carries rounds of commands. Returns their digest.
pub fn run(alloc: Global, seed: u32, rounds: u32, crc: bool) -> Result<u64> {
    let mut storage = Storage::new(alloc, seed)?;
    storage.run(rounds, crc)?;
    storage.digest.add(storage.done);
    Ok(storage.digest.finish())
}
