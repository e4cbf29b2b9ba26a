ghost use Rattle.iw_crc.specs.Laws.{AddsInPieces, KnownValues};

/// The CRC of octets is the same in whatever pieces they are added.
pub fn adds_in_pieces()
    ensures { AddsInPieces }
{}

/// The definition of the CRC gives the known values (RFC 3720 B.4, and the frames that RFC 5044 prints).
pub fn known_values()
    ensures { KnownValues }
{}
