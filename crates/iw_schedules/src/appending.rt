//! Words appended to a text, each with a space before it.

ghost use Rattle.std.specs.Prelude.{◌≡◌, [], ◌∷◌, OnOk, string_bytes};
ghost use Rattle.std.specs.Option.{option_map};
ghost use Rattle.std.specs.Fmt.{decimal};
ghost use Rattle.iw_schedules.specs.Answers.{octets_text, stag_text, optional_stag_text};
ghost use Rattle.iw_schedules.specs.Answers.{numbered, refused, ok_or_refused};
ghost use Rattle.iw_schedules.specs.Appended.{with_words};
ghost use Rattle.iw_schedules.specs.Shown.{shown_refusal};

use crate::hexadecimal;
use crate::refusals::Refusal;
use itoa::Buffer;
use iw_octets::Stag;
use std::alloc::{AllocError, Allocator};

pub(crate) fn word<A: Allocator>(text: &mut String<A>, word: &str) -> Result<(), AllocError>
    ensures { OnOk result (string_bytes text.new ≡ with_words (string_bytes text.old) (word.now ∷ [])) }
{
    text.push_str(" ")?;
    text.push_str(word)
}

pub(crate) fn number<A: Allocator>(text: &mut String<A>, number: u64) -> Result<(), AllocError>
    ensures { OnOk result (string_bytes text.new ≡ with_words (string_bytes text.old) (decimal number ∷ [])) }
{
    let mut buffer = Buffer::new();
    word(text, buffer.format(number))
}

/// Octets as hexadecimal digits, or `-` for none.
pub(crate) fn octets<A: Allocator>(text: &mut String<A>, octets: &[u8]) -> Result<(), AllocError>
    ensures { OnOk result (string_bytes text.new ≡ with_words (string_bytes text.old) (octets_text octets.now ∷ [])) }
{
    if octets.is_empty() {
        return word(text, "-");
    }
    text.push_str(" ")?;
    hexadecimal::many(text, octets)
}

pub(crate) fn stag<A: Allocator>(text: &mut String<A>, stag: Stag) -> Result<(), AllocError>
    ensures { OnOk result (string_bytes text.new ≡ with_words (string_bytes text.old) (stag_text stag ∷ [])) }
{
    text.push_str(" ")?;
    hexadecimal::few(text, &stag.to_octets())
}

/// An STag, or `-` for none.
pub(crate) fn optional_stag<A: Allocator>(
    text: &mut String<A>,
    name: Option<Stag>,
) -> Result<(), AllocError>
    ensures { OnOk result (string_bytes text.new ≡ with_words (string_bytes text.old) (optional_stag_text name ∷ [])) }
{
    match name {
        None => word(text, "-"),
        Some(name) => stag(text, name),
    }
}

/// A word, then a reason: its number and name.
pub(crate) fn numbered<A: Allocator>(
    text: &mut String<A>,
    first: &str,
    reason: Refusal,
) -> Result<(), AllocError>
    ensures { OnOk result (string_bytes text.new
        ≡ with_words (string_bytes text.old) (numbered first.now (shown_refusal reason))) }
{
    word(text, first)?;
    number(text, u64::from(reason.number))?;
    word(text, reason.name)
}

pub(crate) fn refusal<A: Allocator>(
    text: &mut String<A>,
    refusal: Refusal,
) -> Result<(), AllocError>
    ensures { OnOk result (string_bytes text.new
        ≡ with_words (string_bytes text.old) (refused (shown_refusal refusal))) }
{
    numbered(text, "refused", refusal)
}

/// `ok`, or a refusal.
pub(crate) fn outcome<A: Allocator>(
    text: &mut String<A>,
    refused: Option<Refusal>,
) -> Result<(), AllocError>
    ensures { OnOk result (string_bytes text.new
        ≡ with_words (string_bytes text.old) (ok_or_refused (option_map shown_refusal refused))) }
{
    match refused {
        None => word(text, "ok"),
        Some(given) => refusal(text, given),
    }
}
