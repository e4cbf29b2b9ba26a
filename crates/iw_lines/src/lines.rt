ghost use Rattle.std.specs.Prelude.{◌≡◌, [], IfOk, IsSome, OnOk, OnErr};

use crate::handed::Handed;
use crate::payload::Payload;
use crate::place::Place;
use crate::slow::SlowPaths;
use bytes::Bytes;
use iw_buffer::Contents;
use std::alloc::{AllocError, Global};
use std::collections::HashMap;
use std::hash::{BuildHasherDefault, FoldHasher};
use std::marker::Model;

/// What waits at each stream, by its number. A stream's line is made when it is opened, and freed when it is closed.
#[derive(Drop)]
pub struct Lines {
    places: HashMap<u32, Place, BuildHasherDefault<FoldHasher>, Global>,
}

impl Model for Lines {
    ghost use Rattle.std.specs.Prelude.{List, Option, nat_eq};
    ghost use Rattle.std.specs.HashMap as hash;
    ghost use Rattle.iw_lines.specs.declared.line.Line.{Line};
    ghost use Rattle.iw_lines.specs.Lines.{listed};

    ghost Value = { List (Option Line) };

    ghost view = { λ lines. listed (hash.get nat_eq lines.places) };
}

impl Lines {
    ghost use Rattle.iw_lines.specs.Handed.{nothing_handed, told_of};
    ghost use Rattle.iw_lines.specs.Line.{with_handed, with_posted, with_payload, oldest_token, without_oldest, with_sent};
    ghost use Rattle.iw_lines.specs.Line.{counted_dropped, counted_tried};
    ghost use Rattle.iw_lines.specs.Lines.{no_lines, opened, closed, place_of, with_place, line_at, with_line};

    /// No stream has a line. It takes no memory.
    pub fn new(alloc: Global) -> Lines
        ensures { result ≡ no_lines }
    {
        Lines {
            places: HashMap::new(alloc),
        }
    }

    /// Makes a line, at which nothing waits, and hands out the one that the number had. An `Err` means out of memory and
    /// changes nothing.
    pub fn open(&mut self, alloc: Global, number: u32) -> Result<Option<Place>, AllocError>
        ensures before { IfOk result (λ before. before ≡ place_of self.old number) }
        ensures ok { OnOk result (self.new ≡ opened self.old number) }
        ensures there { OnOk result (IsSome (place_of self.new number)) }
        ensures err { OnErr result (self.new ≡ self.old) }
    {
        let place = Place::new(alloc)?;
        match self.places.insert(number, place) {
            Ok(before) => Ok(before),
            Err(_) => Err(AllocError),
        }
    }

    /// Undoes [`Lines::open`], which returned `before`.
    pub fn undo_open(&mut self, number: u32, before: Option<Place>)
        requires { IsSome (place_of self.old number) }
        ensures { self.new ≡ with_place self.old number before }
    {
        match before {
            Some(place) => self.put_back(number, place),
            None => self.close(number),
        }
    }

    // Replaces the line of a number.
    fn put_back(&mut self, number: u32, place: Place)
        requires { IsSome (place_of self.old number) }
        ensures { self.new ≡ with_place self.old number (Some place) }
    {
        // The number has a line, so no memory is needed.
        let _ = self.places.insert(number, place);
    }

    /// Frees the line of a number, with what waits there.
    pub fn close(&mut self, number: u32)
        ensures { self.new ≡ closed self.old number }
    {
        let _ = self.places.remove(&number);
    }

    /// Keeps what a stream handed back, to be fetched; what was kept for it before is freed. It does nothing for a number
    /// that has no line.
    pub fn keep(&mut self, number: u32, handed: Handed)
        ensures { self.new ≡ with_line self.old number (with_handed (line_at self.old number) handed) }
    {
        let Some(place) = self.places.get_mut(&number) else {
            return;
        };
        place.keep(handed);
    }

    /// The octets that can be fetched at a stream; none if nothing was handed back.
    pub fn told(&self, number: u32) -> &[u8]
        ensures { result.now ≡ told_of (line_at self.now number).handed }
    {
        match self.places.get(&number) {
            Some(place) => place.told(),
            None => &[],
        }
    }

    /// Hands out what can be fetched at a stream, and keeps it no longer.
    pub fn fetch(&mut self, alloc: Global, number: u32) -> Handed
        ensures handed { result ≡ (line_at self.old number).handed }
        ensures after { self.new ≡ with_line self.old number (with_handed (line_at self.old number) nothing_handed) }
    {
        let Some(place) = self.places.get_mut(&number) else {
            return Handed::nothing(alloc);
        };
        place.fetch(alloc)
    }

    /// Puts the token of a message behind those of a stream, if they are fewer than 256. It does nothing for a number that has
    /// no line.
    pub fn push(&mut self, number: u32, token: u64)
        ensures { self.new ≡ with_line self.old number (with_posted (line_at self.old number) token) }
    {
        let Some(place) = self.places.get_mut(&number) else {
            return;
        };
        place.push(token);
    }

    /// The same for a message that was posted from a buffer, whose octets are kept.
    pub fn push_payload(&mut self, number: u32, token: u64, payload: Payload)
        ensures { self.new ≡ with_line self.old number (with_payload (line_at self.old number) token payload) }
    {
        let Some(place) = self.places.get_mut(&number) else {
            return;
        };
        place.push_payload(token, payload);
    }

    /// Keeps octets to be fetched at a stream; those that were kept for that before are freed. It does nothing for a number
    /// that has no line.
    pub fn keep_sent(&mut self, number: u32, sent: Bytes)
        ensures { self.new ≡ with_line self.old number (with_sent (line_at self.old number) sent) }
    {
        let Some(place) = self.places.get_mut(&number) else {
            return;
        };
        place.keep_sent(sent);
    }

    /// Moves the octets of the message that was taken out last at a stream to where they are wanted, in place of those that were
    /// there, if it was posted from a buffer; none otherwise, and once they were fetched. None is copied, unless something else
    /// still shares them. An `Err` means out of memory, and changes nothing.
    pub fn fetch_sent(
        &mut self,
        alloc: Global,
        number: u32,
        to: &mut Contents,
    ) -> Result<(), AllocError>
        ensures octets { OnOk result (to.new.octets ≡ (line_at self.old number).sent) }
        ensures ok { OnOk result (self.new ≡ with_line self.old number (with_sent (line_at self.old number) [])) }
        ensures err { OnErr result (self.new ≡ self.old) }
        ensures back { OnErr result (to.new.octets ≡ to.old.octets) }
    {
        let Some(place) = self.places.get_mut(&number) else {
            *to = Contents::nothing(alloc);
            return Ok(());
        };
        place.fetch_sent(alloc, to)
    }

    /// Takes the oldest message of a stream out, and returns its token; 0 if the stream has none. Its octets are kept to be
    /// fetched if it was posted from a buffer, and else none are.
    pub fn pop(&mut self, number: u32) -> u64
        ensures token { result ≡ oldest_token (line_at self.old number) }
        ensures after { self.new ≡ with_line self.old number (without_oldest (line_at self.old number)) }
    {
        let Some(place) = self.places.get_mut(&number) else {
            return 0;
        };
        place.pop()
    }

    /// Counts a delivery that was dropped at a stream. It does nothing for a number that has no line.
    pub fn count_dropped(&mut self, number: u32)
        ensures { self.new ≡ with_line self.old number (counted_dropped (line_at self.old number)) }
    {
        let Some(place) = self.places.get_mut(&number) else {
            return;
        };
        place.count_dropped();
    }

    /// Counts a frame of a stream that was judged before its turn. It does nothing for a number that has no line.
    pub fn count_tried(&mut self, number: u32)
        ensures { self.new ≡ with_line self.old number (counted_tried (line_at self.old number)) }
    {
        let Some(place) = self.places.get_mut(&number) else {
            return;
        };
        place.count_tried();
    }

    /// How often a stream took a slow path, since it was opened.
    pub fn slow_paths(&self, number: u32) -> SlowPaths
        ensures { result ≡ (line_at self.now number).slow }
    {
        match self.places.get(&number) {
            Some(place) => place.slow_paths(),
            None => SlowPaths::new(),
        }
    }
}
