//! Schedules that a seed determines, as an auditor or a tester writes them: streams of two domains are started, carry
//! Writes, Sends and Reads in any sizes, and some of them end by a fault or a break.

use crate::Random;
use anyhow::Result;
use std::alloc::Global;

/// How many streams a schedule has.
const STREAMS: usize = 12;

/// The octets of a region that is written to, and of one that is read.
const REGION: usize = 65_536;

/// The most octets of a frame's payload.
const MULPDU: usize = 1_400;

const WRITE_HEAD: usize = 14;

const SEND_HEAD: usize = 18;

/// The octets of a start-up frame without private data.
const START_UP: usize = 20;

const DIGITS: &[u8; 16] = b"0123456789abcdef";

/// Hexadecimal digits, of which each payload is a part.
#[derive(Drop)]
pub struct Digits {
    text: String,
}

impl Digits {
    pub fn new(alloc: Global, random: &mut Random) -> Result<Digits> {
        let mut text = String::new(alloc);
        for _ in 0..16_384 {
            let number = random.next();
            text.push_str(format!(in alloc; "{number:016x}")?.as_str())?;
        }
        Ok(Digits { text })
    }

    // The digits of `len` octets, from some place on.
    fn part(&self, random: &mut Random, len: usize) -> &[u8] {
        let all = self.text.as_bytes();
        let wanted = len.saturating_mul(2).min(all.len());
        let at = random.below((all.len() - wanted).saturating_add(1));
        &all[at.min(all.len() - wanted)..][..wanted]
    }
}

/// One direction of a stream: what was emitted, and what was delivered.
#[derive(Clone, Copy)]
struct Direction {
    markers: bool,
    crc: bool,
    start: usize,
    emitted: usize,
    delivered: usize,
}

impl Direction {
    fn new(markers: bool, crc: bool, start: usize) -> Direction {
        Direction {
            markers,
            crc,
            start,
            emitted: start,
            delivered: start,
        }
    }

    // Moves past octets of a frame, and the markers that fall among them.
    fn pass(&mut self, octets: usize) {
        let mut left = octets;
        for _ in 0..octets {
            if left == 0 {
                break;
            }
            let behind = self.emitted.saturating_sub(self.start) % 512;
            if self.markers && behind == 0 {
                self.emitted = self.emitted.saturating_add(4);
            } else {
                let run = if self.markers { 512 - behind } else { left };
                let run = run.min(left);
                self.emitted = self.emitted.saturating_add(run);
                left = left.saturating_sub(run);
            }
        }
    }

    // Counts a frame that was emitted.
    fn frame(&mut self, ulpdu: usize) {
        let covered = ulpdu.saturating_add(2).saturating_add(3) / 4;
        self.pass(covered.saturating_mul(4).saturating_add(4));
    }

    // Counts the frames of a message.
    fn message(&mut self, head: usize, len: usize) -> usize {
        let most = MULPDU - head.min(MULPDU - 1);
        let mut left = len;
        let mut frames = 0usize;
        for _ in 0..len.saturating_add(1) {
            let part = left.min(most);
            self.frame(head.saturating_add(part));
            frames = frames.saturating_add(1);
            left = left.saturating_sub(part);
            if left == 0 {
                break;
            }
        }
        frames
    }
}

/// A stream of a schedule.
#[derive(Clone, Copy)]
struct Line {
    is_over: bool,
    out: Direction,
    back: Direction,
}

/// The text of a schedule, as far as it is written.
#[derive(Drop)]
pub struct Schedule<'a> {
    alloc: Global,
    random: &'a mut Random,
    digits: &'a Digits,
    text: Vec<u8>,
    lines: Vec<Line>,
}

// How long a payload is: mostly short, sometimes as long as a block of a disk.
fn some_len(random: &mut Random) -> usize {
    match random.below(40) {
        0 => random.between(2_000, 16_384),
        1..4 => random.between(200, 2_000),
        4..16 => random.between(32, 200),
        16..18 => 0,
        _ => random.between(1, 32),
    }
}

fn domain_of(stream: usize) -> usize {
    stream % 2 + 1
}

impl<'a> Schedule<'a> {
    pub fn new(alloc: Global, random: &'a mut Random, digits: &'a Digits) -> Schedule<'a> {
        Schedule {
            alloc,
            random,
            digits,
            text: Vec::new(alloc),
            lines: Vec::new(alloc),
        }
    }

    fn say(&mut self, words: &str) -> Result<()> {
        self.text.extend_from_slice(words.as_bytes())?;
        Ok(())
    }

    // Octets: none, as many equal ones, or digits.
    fn octets(&mut self, len: usize) -> Result<()> {
        if len == 0 {
            return self.say("-\n");
        }
        if self.random.once_in(6) {
            let high = DIGITS[self.random.below(16) % 16] as char;
            let line = format!(in self.alloc; "{high}7*{len}\n")?;
            return self.say(line.as_str());
        }
        let digits = self.digits.part(self.random, len);
        self.text.extend_from_slice(digits)?;
        self.say("\n")
    }

    // Two domains at each end, and at `b` a region of each that may be written to, and one that may be read.
    fn prepare(&mut self) -> Result<()> {
        self.say("# Two domains, and two regions of each at b.\n")?;
        for domain in 1..3 {
            let line = format!(in self.alloc; "a domain {domain}\nb domain {domain}\n")?;
            self.say(line.as_str())?;
            let line = format!(in self.alloc;
                "b register {domain} 0 w 00*{REGION}\nb register {domain} 0 r 5a*{REGION}\na register {domain} 0 s 00*{REGION}\n"
            )?;
            self.say(line.as_str())?;
        }
        Ok(())
    }

    // A stream that is open at once.
    fn preset(&mut self, stream: usize, options: &str) -> Result<()> {
        let domain = domain_of(stream);
        let line = format!(in self.alloc;
            "a open {stream} {domain} preset {options} -\nb open {stream} {domain} preset {options} -\n"
        )?;
        self.say(line.as_str())?;
        self.add(options, 0, 0)
    }

    // A stream whose ends exchange start-up frames.
    fn started(&mut self, stream: usize, options: &str) -> Result<()> {
        let domain = domain_of(stream);
        let private = self.random.next();
        let asks = START_UP + 8;
        let line = format!(in self.alloc;
            "a open {stream} {domain} initiator {options} {private:016x}\nb open {stream} {domain} responder {options} -\n"
        )?;
        self.say(line.as_str())?;
        let line = format!(in self.alloc;
            "a emit {stream}\nb deliver {stream} 0 {asks}\nb work {stream}\nb accept {stream} -\nb emit {stream}\na deliver {stream} 0 {START_UP}\na work {stream}\n"
        )?;
        self.say(line.as_str())?;
        self.add(options, asks, START_UP)
    }

    fn add(&mut self, options: &str, asks: usize, replies: usize) -> Result<()> {
        let (markers, crc) = match options {
            "mc" => (true, true),
            "m" => (true, false),
            "c" => (false, true),
            _ => (false, false),
        };
        self.lines.push(Line {
            is_over: false,
            out: Direction::new(markers, crc, asks),
            back: Direction::new(markers, crc, replies),
        })?;
        Ok(())
    }

    fn open(&mut self) -> Result<()> {
        self.say("\n# Streams of each kind.\n")?;
        for stream in 0..STREAMS {
            let options = match stream % 4 {
                0 => "-",
                1 => "mc",
                2 => "c",
                _ => "m",
            };
            if stream < STREAMS / 2 {
                self.preset(stream, options)?;
            } else {
                self.started(stream, options)?;
            }
        }
        Ok(())
    }

    // Posts and emits a Write. Returns how many frames it has.
    fn write(&mut self, stream: usize, line: &mut Line) -> Result<usize> {
        let len = some_len(self.random);
        let to = self
            .random
            .below(REGION.saturating_sub(len).saturating_add(1));
        let domain = domain_of(stream);
        let words = format!(in self.alloc; "a write {stream} 0{domain}000000 {to} ")?;
        self.say(words.as_str())?;
        self.octets(len)?;
        Ok(line.out.message(WRITE_HEAD, len))
    }

    // Posts and emits a Send, and posts a buffer for it.
    fn send(&mut self, stream: usize, line: &mut Line) -> Result<usize> {
        let len = some_len(self.random);
        let room = len.saturating_add(self.random.below(64));
        let words = format!(in self.alloc; "b recv {stream} {room}\na send {stream} plain - ")?;
        self.say(words.as_str())?;
        self.octets(len)?;
        Ok(line.out.message(SEND_HEAD, len))
    }

    // Delivers what was emitted in this direction, in one piece, in two, or its back before its front.
    fn deliver(&mut self, end: char, stream: usize, way: &mut Direction) -> Result<()> {
        let from = way.delivered;
        let len = way.emitted.saturating_sub(from);
        way.delivered = way.emitted;
        if len > 1 && self.random.once_in(3) {
            let front = self.random.between(1, len.saturating_sub(1));
            let middle = from.saturating_add(front);
            let back = len.saturating_sub(front);
            let line = if self.random.once_in(2) {
                format!(in self.alloc;
                    "{end} deliver {stream} {from} {front}\n{end} work {stream}\n{end} deliver {stream} {middle} {back}\n"
                )?
            } else {
                format!(in self.alloc;
                    "{end} deliver {stream} {middle} {back}\n{end} work {stream}\n{end} deliver {stream} {from} {front}\n"
                )?
            };
            return self.say(line.as_str());
        }
        let line = format!(in self.alloc; "{end} deliver {stream} {from} {len}\n")?;
        self.say(line.as_str())
    }

    // `a` reads some octets of `b`'s region.
    fn read(&mut self, stream: usize, line: &mut Line) -> Result<()> {
        let len = some_len(self.random).min(8_192);
        let to = self.random.below(REGION - 8_192);
        let domain = domain_of(stream);
        let words = format!(in self.alloc;
            "a read {stream} 0{domain}000000 {to} {len} 0{domain}000100 {to}\na emit {stream}\n"
        )?;
        self.say(words.as_str())?;
        line.out.frame(SEND_HEAD + 28);
        self.deliver('b', stream, &mut line.out)?;
        let frames = line.back.message(WRITE_HEAD, len);
        let words = format!(in self.alloc; "b work {stream} 2\nb emit {stream} {frames}\n")?;
        self.say(words.as_str())?;
        self.deliver('a', stream, &mut line.back)?;
        let steps = frames.saturating_mul(2).saturating_add(3);
        let words = format!(in self.alloc; "a work {stream} {steps}\n")?;
        self.say(words.as_str())
    }

    // Posts a message at a stream, and carries it.
    fn carry(&mut self, stream: usize, line: &mut Line) -> Result<()> {
        if self.random.once_in(8) {
            return self.read(stream, line);
        }
        let mut frames = if self.random.once_in(2) {
            self.write(stream, line)?
        } else {
            self.send(stream, line)?
        };
        if self.random.once_in(4) {
            frames = frames.saturating_add(self.write(stream, line)?);
        }
        let words = format!(in self.alloc; "a emit {stream} {frames}\n")?;
        self.say(words.as_str())?;
        self.deliver('b', stream, &mut line.out)?;
        let steps = frames.saturating_mul(2).saturating_add(3);
        let words = format!(in self.alloc; "b work {stream} {steps}\na work {stream} 3\n")?;
        self.say(words.as_str())
    }

    // Ends a stream: by octets that are no frame, or by a break.
    fn end(&mut self, stream: usize, line: &mut Line) -> Result<()> {
        line.is_over = true;
        if self.random.once_in(2) {
            let number = line.out.delivered;
            let words = format!(in self.alloc;
                "# Stream {stream} ends by a fault.\nb raw {stream} {number} 000e00000000000000000000000000000000000000000000\nb work {stream} 4\nb emit {stream}\na break {stream}\na work {stream} 2\n"
            )?;
            return self.say(words.as_str());
        }
        let words = format!(in self.alloc;
            "# Stream {stream} is cut.\na break {stream}\nb break {stream}\na work {stream} 2\nb work {stream} 4\n"
        )?;
        self.say(words.as_str())
    }

    fn happen(&mut self, messages: u32) -> Result<()> {
        for message in 0..messages {
            let stream = self.random.below(STREAMS);
            let Some(mut line) = self.lines.get(stream).copied() else {
                break;
            };
            if line.is_over {
                continue;
            }
            // Half of the streams end, one by one, in the later half.
            let is_last = stream % 2 == 1 && message > messages / 2 && self.random.once_in(64);
            if is_last {
                self.end(stream, &mut line)?;
            } else {
                self.carry(stream, &mut line)?;
            }
            if let Some(place) = self.lines.get_mut(stream) {
                *place = line;
            }
        }
        Ok(())
    }

    /// Writes a schedule of so many messages, and returns its text.
    pub fn written(mut self, messages: u32) -> Result<Vec<u8>> {
        self.prepare()?;
        self.open()?;
        self.say("\n# Messages.\n")?;
        self.happen(messages)?;
        let Schedule { text, .. } = self;
        Ok(text)
    }
}
