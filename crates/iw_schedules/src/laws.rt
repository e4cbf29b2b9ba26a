//! Laws of schedules. The functions do nothing; their clauses are the laws.

ghost use Rattle.std.specs.Prelude.{◌≡◌, ℕ, List};
ghost use Rattle.iw_schedules.specs.Schedule.{Events};
ghost use Rattle.iw_schedules.specs.Grammar.{IsSchedule};
ghost use Rattle.iw_schedules.specs.Known.{KnownLines};
ghost use Rattle.iw_schedules.specs.Laws.{Joined, Free, OnlySo, NamedAlike, SentAlike};

/// No text stands for two lists of events.
pub fn schedules_are_clear()
    ensures { (text : List ℕ) (events others : Events) → IsSchedule text events → IsSchedule text others
        → events ≡ others }
{}

/// A text is its lines with a line feed between each two, and a line is its words with a space between each two. There
/// is only one way to split them so.
pub fn pieces_are_clear()
    ensures joined { (separator : ℕ) → Joined separator }
    ensures free { (separator : ℕ) → Free separator }
    ensures only_so { (separator : ℕ) → OnlySo separator }
{}

/// A trace prints an STag, the kind of a Send and the STag that it invalidates in the words that a schedule uses.
pub fn words_are_alike()
    ensures named { NamedAlike }
    ensures sent { SentAlike }
{}

/// Lines of a schedule and of a trace, written by hand: breaks, Sends of all kinds, and the answers of an ended stream.
pub fn known_lines()
    ensures { KnownLines }
{}
