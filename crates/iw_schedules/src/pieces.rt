ghost use Rattle.std.specs.Prelude.{◌≡◌, ◌+◌, ◌<◌, [], ◌∷◌, MatchOption, IfSome, length};
ghost use Rattle.std.specs.Option.{option_copied, option_map, unwrap_or};
ghost use Rattle.memchr.specs.Find.{IsFirstByte, is_byte};
ghost use Rattle.iw_schedules.specs.Pieces.{split_at_first, pieces};

use memchr::memchr;
use std::marker::Model;

/// How many octets are looked at one by one where a word begins: most words are short.
const NEAR: usize = 12;

/// The pieces of a text between separators, from left to right.
#[derive(Drop)]
pub(crate) struct Pieces<'a> {
    separator: u8,
    left: Option<&'a [u8]>,
}

impl<'a> Model for Pieces<'a> {
    ghost use Rattle.std.specs.Prelude.{List, ℕ};
    ghost use Rattle.std.specs.Option.{option_copied};
    ghost use Rattle.iw_schedules.specs.Pieces.{pieces_left};

    ghost Value = { List (List ℕ) };

    ghost view = { λ p. pieces_left p.separator (option_copied p.left) };
}

impl<'a> Pieces<'a> {
    pub(crate) fn new(text: &'a [u8], separator: u8) -> Pieces<'a>
        ensures { result ≡ pieces separator text.now }
    {
        Pieces {
            separator,
            left: Some(text),
        }
    }

    pub(crate) fn next(&mut self) -> Option<&'a [u8]>
        ensures { MatchOption result ((self.old ≡ []) × (self.new ≡ [])) (λ piece. self.old ≡ piece.now ∷ self.new) }
    {
        let text = self.left?;
        let (piece, left) = split_at(text, self.separator, NEAR);
        self.left = left;
        Some(piece)
    }
}

/// The text before the first separator, and the text after it, if there is a separator. The first `near` octets are looked
/// at one by one, those past them by `memchr`.
// `find` is compiled in line here, and this where it is called, so that `memchr` stays a call of its own, which most words
// don't come to. In a `find` of its own it was compiled in line, and each word paid for its stack.
#[inline(always)]
pub(crate) fn split_at(text: &[u8], separator: u8, near: usize) -> (&[u8], Option<&[u8]>)
    ensures front { result.0.now ≡ (split_at_first separator text.now).0 }
    ensures back { option_copied result.1 ≡ (split_at_first separator text.now).1 }
    ensures len { length result.0.now + unwrap_or (option_map (λ beyond. length beyond.now + 1) result.1) 0
        ≡ length text.now }
{
    match find(text, separator, near) {
        None => (text, None),
        Some(at) => (&text[..at], Some(&text[at + 1..])),
    }
}

// The index of the first separator.
#[inline(always)]
fn find(text: &[u8], separator: u8, near: usize) -> Option<usize>
    ensures at { IsFirstByte (is_byte separator) text.now result }
    ensures within { IfSome result (λ at. at < length text.now) }
{
    let near = near.min(text.len());
    for i in 0..near {
        if text[i] == separator {
            return Some(i);
        }
    }
    match memchr(separator, &text[near..]) {
        None => None,
        Some(beyond) => Some(near + beyond),
    }
}
