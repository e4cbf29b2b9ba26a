ghost use Rattle.iw_rdmap.specs.Laws.{ChecksAreListed, FrontWillDo, TerminatesAreTold};

/// A ULPDU's first 46 octets, or all of fewer, are judged as the whole ULPDU is.
pub fn front_will_do()
    ensures { FrontWillDo }
{}

/// A Terminate that one end sends is judged by the other as a Terminate that carries its fault.
pub fn terminates_are_told()
    ensures { TerminatesAreTold }
{}

/// One list for each kind of header has all checks that a segment is judged by, in their order.
pub fn checks_are_listed()
    ensures { ChecksAreListed }
{}
