ghost use Rattle.std.specs.Prelude.{◌≡◌, OnOk, OnErr};

use std::alloc::{AllocError, Global};
use std::collections::HashMap;
use std::hash::{BuildHasherDefault, FoldHasher};
use std::marker::Model;

/// For how many octets a place to read to is lent at each stream, by its number.
#[derive(Drop)]
pub struct Lends {
    // Those that are lent, and no others: mostly none is, and then nothing is looked up.
    places: HashMap<u32, usize, BuildHasherDefault<FoldHasher>, Global>,
}

impl Model for Lends {
    ghost use Rattle.std.specs.Prelude.{List, ℕ, nat_eq};
    ghost use Rattle.std.specs.HashMap as hash;
    ghost use Rattle.iw_lines.specs.Lends.{lent_by};

    ghost Value = { List ℕ };

    ghost view = { λ lends. lent_by (hash.get nat_eq lends.places) };
}

impl Lends {
    ghost use Rattle.iw_lines.specs.Lends.{none_lent, lent_to, with_lent, without_lent};

    /// No place is lent. It takes no memory.
    pub fn new(alloc: Global) -> Lends
        ensures { result ≡ none_lent }
    {
        Lends {
            places: HashMap::new(alloc),
        }
    }

    /// A place for `n` octets is lent at a stream, in place of that which was. An `Err` means out of memory and changes nothing.
    pub fn lend(&mut self, number: u32, n: usize) -> Result<(), AllocError>
        ensures ok { OnOk result (self.new ≡ with_lent self.old number n) }
        ensures err { OnErr result (self.new ≡ self.old) }
    {
        let Ok(_) = self.places.insert(number, n) else {
            return Err(AllocError);
        };
        Ok(())
    }

    /// For how many octets a place is lent at a stream; 0 if none is.
    pub fn lent(&self, number: u32) -> usize
        ensures { result ≡ lent_to self.now number }
    {
        match self.places.get(&number) {
            Some(n) => *n,
            None => 0,
        }
    }

    /// Takes the place back that is lent at a stream, if one is.
    #[inline]
    pub fn take_back(&mut self, number: u32)
        ensures { self.new ≡ without_lent self.old number }
    {
        if self.places.is_empty() {
            return;
        }
        let _ = self.places.remove(&number);
    }
}
