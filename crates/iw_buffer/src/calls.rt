// Calls on a buffer.
ghost use Rattle.std.specs.Prelude.{◌≡◌, ◌≤◌, None, Some, length, take, drop, IfSome, IfErr, IfOk, OnOk, OnErr};
ghost use Rattle.std.specs.Option.{option_map};
ghost use Rattle.std.specs.Result.{result_err};
ghost use Rattle.iw_buffer.specs.Octets.{buffer_refusal, zeroes};

use crate::buffer::Buffer;
use crate::contents::Contents;
use crate::refusal::BufferRefusal;
use std::alloc::{AllocError, Global};

fn zeroes(alloc: Global, n: usize) -> Result<Box<Contents>, AllocError>
    ensures octets { IfOk result (λ contents. contents.value.octets ≡ zeroes n) }
    ensures room { IfOk result (λ contents. n ≤ contents.value.room) }
{
    let octets = vec![in alloc; 0u8; n]?;
    let contents = Box::new(alloc, Contents::of(octets))?;
    Ok(contents)
}

impl Buffer {
    /// Makes a buffer of `n` zero octets. `BufferExists`: there is one, which was not freed; otherwise an `Err` is want of
    /// memory. An `Err` changes nothing.
    pub fn make(&mut self, alloc: Global, n: usize) -> Result<(), BufferRefusal>
        ensures refused { IfSome self.old.state (λ _. result ≡ Err BufferRefusal.BufferExists) }
        ensures memory { self.old.state ≡ None → IfErr result (λ e. e ≡ BufferRefusal.NoMemory) }
        ensures ok { OnOk result (self.new.state ≡ Some (zeroes n)) }
        ensures room { OnOk result (n ≤ self.new.room) }
        ensures err { OnErr result (self.new.state ≡ self.old.state) }
    {
        if let Some(contents) = self.take(alloc) {
            self.put(contents);
            return Err(BufferRefusal::BufferExists);
        }
        match zeroes(alloc, n) {
            Ok(contents) => {
                self.put(contents);
                Ok(())
            }
            Err(_) => Err(BufferRefusal::NoMemory),
        }
    }

    /// Gives back all that the buffer has. Without a buffer it does nothing.
    pub fn free(&mut self, alloc: Global)
        ensures { self.new.state ≡ None }
    {
        drop(self.take(alloc));
    }

    /// Tells how many octets the buffer has, and where they stand: an address that is good until a call moves or frees them.
    /// No clause says which address it is. An `Err` tells nothing.
    pub fn address(
        &mut self,
        alloc: Global,
        at: &mut *mut u8,
        len: &mut usize,
    ) -> Result<(), BufferRefusal>
        ensures refused { result_err result ≡ buffer_refusal self.old.state }
        ensures len { OnOk result (Some len.new ≡ option_map (λ octets. length octets) self.old.state) }
        ensures kept { OnErr result ((at.new ≡ at.old) × (len.new ≡ len.old)) }
        ensures same { self.new.state ≡ self.old.state }
        ensures room { OnOk result (self.new.room ≡ self.old.room) }
    {
        let Some(mut contents) = self.take(alloc) else {
            return Err(BufferRefusal::BufferMissing);
        };
        *at = contents.address();
        *len = contents.len();
        self.put(contents);
        Ok(())
    }

    /// Keeps the first `n` octets, or all if there are no more. The others go, and their memory stays for octets that are
    /// put behind. An `Err` changes nothing.
    pub fn truncate(&mut self, alloc: Global, n: usize) -> Result<(), BufferRefusal>
        ensures refused { result_err result ≡ buffer_refusal self.old.state }
        ensures after { self.new.state ≡ option_map (λ octets. take n octets) self.old.state }
        ensures room { OnOk result (self.old.room ≤ self.new.room) }
    {
        let Some(mut contents) = self.take(alloc) else {
            return Err(BufferRefusal::BufferMissing);
        };
        contents.truncate(alloc, n);
        self.put(contents);
        Ok(())
    }

    /// Drops the first `n` octets, or all if there are no more. The others move to the front, and the memory stays for octets
    /// that are put behind. An `Err` changes nothing.
    pub fn drop_front(&mut self, alloc: Global, n: usize) -> Result<(), BufferRefusal>
        ensures refused { result_err result ≡ buffer_refusal self.old.state }
        ensures after { self.new.state ≡ option_map (λ octets. drop n octets) self.old.state }
        ensures room { OnOk result (self.old.room ≤ self.new.room) }
    {
        let Some(mut contents) = self.take(alloc) else {
            return Err(BufferRefusal::BufferMissing);
        };
        contents.drop_front(alloc, n);
        self.put(contents);
        Ok(())
    }
}
