ghost use Rattle.iw_startup.specs.Laws.{CutsDoNotMatter, AnswersStay};
ghost use Rattle.iw_startup.specs.Laws.{RequestsAreAsked, AcceptedEndsAgree, RejectionsAreTold, WordsAreKept, KnownFrames};

/// However the peer's octets are cut into pieces, the progress, the private data and the octets used are the same.
pub fn cuts_do_not_matter()
    ensures { CutsDoNotMatter }
{}

/// After any answer but [`Progress::More`](crate::Progress::More), no octets are used and nothing changes.
pub fn answers_stay()
    ensures { AnswersStay }
{}

/// An initiator's frame, in any pieces and whatever follows it, makes a responder that takes its revision ask its user,
/// and shows the word and the private data.
pub fn requests_are_asked()
    ensures { RequestsAreAsked }
{}

/// The frame of a responder that accepts, in any pieces and whatever follows it, makes both ends agree alike:
/// one sends markers exactly where the other expects them, both use CRCs or neither does, and each has at most as many
/// Reads outstanding as the other takes. Nothing is missing, and an RTR is due in the peer-to-peer model alone.
pub fn accepted_ends_agree()
    ensures { AcceptedEndsAgree }
{}

/// The frame of a responder that rejects, in any pieces and whatever follows it, is told as a fault, and neither end
/// has agreed.
pub fn rejections_are_told()
    ensures { RejectionsAreTold }
{}

/// Whatever the peer told, this end's word and its ORD keep to it (RFC 6581 9.1, 9.2).
pub fn words_are_kept()
    ensures { WordsAreKept }
{}

/// Start-up frames of other implementations are read and answered as they are meant.
pub fn known_frames()
    ensures { KnownFrames }
{}
