ghost use Rattle.std.specs.Prelude.{◌≡◌};
ghost use Rattle.iw_schedules.specs.Letters.{letter_at};

/// Whether the word begins with the letter, and the rest of the word.
pub(crate) fn letter_at(letter: u8, word: &[u8]) -> (bool, &[u8])
    ensures { (result.0, result.1.now) ≡ letter_at letter word.now }
{
    if !word.is_empty() && word[0] == letter {
        (true, &word[1..])
    } else {
        (false, word)
    }
}
