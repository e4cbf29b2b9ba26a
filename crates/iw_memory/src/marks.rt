//! A bit for each slot of a domain, by which a free one is found.
ghost use Rattle.std.specs.Prelude.{◌≡◌, ◌≢◌, ◌==◌, ◌<◌, ◌≤◌, ℕ, if◌then◌else◌, not, position};
ghost use Rattle.std.specs.Prelude.{length, slice_index_or};
ghost use Rattle.std.specs.Int.{bit_at};
ghost use Rattle.iw_memory.specs.Marked.{mark, bit};

const WORDS: usize = 16;

/// For each of a domain's 1,024 slots, whether it is free. A slot that was not made yet is free.
#[derive(Drop)]
pub(crate) struct Marks {
    // Bit `i % 64` of word `i / 64` is 1 where slot `i` is free.
    pub(crate) words: [u64; WORDS],
}

impl Marks {
    /// Each slot is free.
    pub(crate) fn new() -> Marks
        ensures { (i : ℕ) → i < 1024 → mark result.words i ≡ 1 }
    {
        Marks {
            words: [u64::MAX; WORDS],
        }
    }

    /// The lowest free slot, or 1,024 if none is free.
    pub(crate) fn lowest(&self) -> usize
        ensures most { result ≤ 1024 }
        ensures taken { (i : ℕ) → i < result → mark self.now.words i ≡ 0 }
        ensures free { result < 1024 → mark self.now.words result ≡ 1 }
    {
        match first_marked(&self.words) {
            Some(at) => at * 64 + lowest_bit(self.words[at]),
            None => WORDS * 64,
        }
    }

    /// The first free slot from this place on, or 1,024 if none is free there.
    pub(crate) fn first_from(&self, place: usize) -> usize
        requires { place < 1024 }
        ensures from { place ≤ result }
        ensures most { result ≤ 1024 }
        ensures taken { (i : ℕ) → place ≤ i → i < result → mark self.now.words i ≡ 0 }
        ensures free { result < 1024 → mark self.now.words result ≡ 1 }
    {
        self.from_place(place).lowest()
    }

    // The marks of the slots from this place on: those before it are as if they were not free.
    fn from_place(&self, place: usize) -> Marks
        requires { place < 1024 }
        ensures before { (i : ℕ) → i < place → mark result.words i ≡ 0 }
        ensures from { (i : ℕ) → place ≤ i → mark result.words i ≡ mark self.now.words i }
    {
        let mut words = self.words;
        words[place / 64] = bits_from(words[place / 64], place % 64);
        clear_before(&mut words, place / 64);
        Marks { words }
    }

    /// Keeps whether the slot is free.
    pub(crate) fn set(&mut self, slot: usize, free: bool)
        requires { slot < 1024 }
        ensures is { mark self.new.words slot ≡ bit free }
        ensures others { (i : ℕ) → i ≢ slot → mark self.new.words i ≡ mark self.old.words i }
    {
        let word = self.words[slot / 64];
        self.words[slot / 64] = with_bit(word, slot % 64, free);
    }
}

// The first word that has a free slot.
fn first_marked(words: &[u64]) -> Option<usize>
    ensures { result ≡ position (λ word. not (word == 0)) words.now }
{
    words.iter().position(|word| *word != 0)
}

fn lowest_bit(word: u64) -> usize
    requires { 0 < word }
    ensures small { result < 64 }
    ensures set { bit_at word result ≡ 1 }
    ensures lowest { (i : ℕ) → i < result → bit_at word i ≡ 0 }
{
    word.trailing_zeros() as usize
}

fn with_bit(word: u64, place: usize, set: bool) -> u64
    requires { place < 64 }
    ensures is { bit_at result place ≡ bit set }
    ensures others { (i : ℕ) → i < 64 → i ≢ place → bit_at result i ≡ bit_at word i }
{
    if set {
        word | 1 << place
    } else {
        word & !(1 << place)
    }
}

// The word with its bits from this place on alone.
fn bits_from(word: u64, place: usize) -> u64
    requires { place < 64 }
    ensures before { (i : ℕ) → i < place → bit_at result i ≡ 0 }
    ensures from { (i : ℕ) → place ≤ i → i < 64 → bit_at result i ≡ bit_at word i }
{
    word & u64::MAX << place
}

// The words before this place become 0.
fn clear_before(words: &mut [u64], at: usize)
    requires { at ≤ length words.old }
    ensures before { (k : ℕ) → k < at → slice_index_or words.new k 0 ≡ 0 }
    ensures from { (k : ℕ) → at ≤ k → slice_index_or words.new k 0 ≡ slice_index_or words.old k 0 }
{
    for k in 0..at {
        words[k] = 0;
    }
}
