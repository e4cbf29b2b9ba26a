ghost use Rattle.std.specs.Prelude.{◌≡◌};
ghost use Rattle.iw_schedules.specs.Rights.{rights_word};

use crate::fault::FaultName;
use crate::letters::letter_at;
use iw_memory::Rights;

/// Rights: `-`, or letters of `wrsi` in this order.
#[tactic(auto, unfolding(crate::specs::Rights::lettered))]
pub(crate) fn read_rights(word: &[u8]) -> Result<Rights, FaultName>
    ensures { result ≡ rights_word word.now }
{
    if word == b"-".as_slice() {
        return Ok(Rights {
            write: false,
            read: false,
            sink: false,
            invalidate: false,
        });
    }
    if word.is_empty() {
        return Err(FaultName::BadOctets);
    }
    let (write, word) = letter_at(b'w', word);
    let (read, word) = letter_at(b'r', word);
    let (sink, word) = letter_at(b's', word);
    let (invalidate, word) = letter_at(b'i', word);
    if !word.is_empty() {
        return Err(FaultName::BadOctets);
    }
    Ok(Rights {
        write,
        read,
        sink,
        invalidate,
    })
}
