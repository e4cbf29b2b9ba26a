ghost use Rattle.iw_octets.specs.Laws.{KnownConstants, KnownFaults, NumbersTell, OperationsAreTold};
ghost use Rattle.iw_octets.specs.Laws.{PartsAreTaken, ReadsAgain, WritesAgain};

/// What is written is read again, whatever comes after it; more octets after a segment are more of its payload.
pub fn reads_again()
    ensures { ReadsAgain }
{}

/// What is read is written again, with the reserved bits zero.
pub fn writes_again()
    ensures { WritesAgain }
{}

/// The constants of [`Fault`](crate::Fault) are the numbers of the RFCs.
pub fn known_faults()
    ensures { KnownFaults }
{}

/// The constants are the numbers of the RFCs, and the limits that this endpoint chose.
pub fn known_constants()
    ensures { KnownConstants }
{}

/// Each operation is told by its octet of a header, and no octet names two.
pub fn operations_are_told()
    ensures { OperationsAreTold }
{}

/// Parts taken one by one, each from the end of the one before, are the parts that the message is cut into.
pub fn parts_are_taken()
    ensures { PartsAreTaken }
{}

/// STags are told apart by their numbers.
pub fn numbers_tell()
    ensures { NumbersTell }
{}
