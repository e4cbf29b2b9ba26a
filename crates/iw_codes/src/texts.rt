// What codes and faults mean, in words.
ghost use Rattle.std.specs.Prelude.{IsTrue};
ghost use Rattle.iw_codes.specs.Text.{is_text};

use crate::numbers;

/// What a call's code means, as a C string: the last octet is 0, and no other is.
pub fn text_of(code: u32) -> &'static [u8]
    ensures { IsTrue (is_text result.now) }
{
    match code {
        numbers::OK => b"done\0",
        numbers::IS_CLOSED => b"the handle is closed: call iwarp_new first\0",
        numbers::ALREADY_OPEN => b"the handle is open already: call iwarp_free first\0",
        numbers::NO_MEMORY => b"out of memory: the call may be made again\0",
        numbers::NO_ROOM =>
            b"the caller's buffer is too short: the call tells the length that is needed\0",
        numbers::NO_SUCH_STREAM => b"no stream was opened under this number, or it was closed\0",
        numbers::NO_REGION => b"the STag names no region\0",
        numbers::OUTSIDE =>
            b"not all the octets lie in the region: iwarp_facts tells where it lies\0",
        numbers::BAD_DOMAIN => b"a domain's number is 1 to 255\0",
        numbers::DOMAIN_TAKEN => b"the domain was added before\0",
        numbers::NO_DOMAIN => b"the domain was not added: call iwarp_add_domain first\0",
        numbers::DOMAIN_FULL =>
            b"the domain has 1,024 regions: deregister one, or use another domain\0",
        numbers::REGION_TOO_LONG =>
            b"a region has at most 16,777,216 octets: register them in parts\0",
        numbers::BASE_WRAP => b"the region reaches past tagged offset 2^64: use a lower base\0",
        numbers::NUMBER_TAKEN =>
            b"a stream was opened under this number before: use iwarp_open_next\0",
        numbers::BAD_NUMBER =>
            b"a number that is picked is 0 to 63: iwarp_open_next gives others\0",
        numbers::BAD_ROLE => b"a role is 0, 1 or 2\0",
        numbers::PRIVATE_TOO_LONG =>
            b"private data has at most 512 octets, and 508 in an enhanced start-up frame\0",
        numbers::NOT_ASKED => b"no MPA Request waits for an answer\0",
        numbers::NOT_OPEN => b"the stream is not open yet, or has ended\0",
        numbers::MESSAGES_FULL =>
            b"256 messages are posted and not yet done: emit, and work until one is\0",
        numbers::MESSAGE_TOO_LONG =>
            b"a message or Read has at most 16,777,216 octets: post it in parts\0",
        numbers::BUFFERS_FULL => b"256 receive buffers are posted: work until one is handed back\0",
        numbers::ENDED => b"the stream has ended: close it\0",
        numbers::BAD_SIZE => b"the maximum ULPDU is 128 to 64,512 octets\0",
        numbers::TOO_FAR => b"the stream has taken in, or emitted, more than 2^62 octets\0",
        numbers::LATE =>
            b"octets were delivered on the stream before: set the first number before that\0",
        numbers::ALREADY_SHARED => b"the domain has a pool already\0",
        numbers::NOT_SHARED => b"the domain has no pool: call iwarp_share first\0",
        numbers::POOL_FULL => b"the pool has 1,024 buffers\0",
        numbers::SHARED =>
            b"the stream takes its receive buffers from its domain's pool: post them there\0",
        numbers::BUFFER_MISSING => b"the buffer was not made, or was freed\0",
        numbers::BUFFER_EXISTS =>
            b"the buffer was made before, and not freed: call iwarp_buffer_free first\0",
        numbers::BUFFER_TOO_LONG => b"a receive buffer has at most 16,777,216 octets\0",
        numbers::BAD_BITS => b"a bit is set that has no meaning\0",
        numbers::NO_READS => b"the peer takes no Reads\0",
        numbers::NOT_AT_REST =>
            b"the stream is open, or has something left to hand back or to emit\0",
        numbers::NUMBERS_SPENT => b"all numbers of streams were given: use another handle\0",
        numbers::WINDOW_FULL => b"the window has no room: work until IWARP_IDLE makes some\0",
        numbers::NOT_LENT => b"no place is lent for so many octets: call iwarp_room right before\0",
        numbers::BAD_STRUCT =>
            b"a struct's size is less than that of its first version, or the call takes no such kind\0",
        numbers::OTHER_MEMORY =>
            b"the region's octets are in memory of the other kind: another call hands them back\0",
        _ => b"no code has this number\0",
    }
}

// RFC 5040 4.8.
fn protection_text(code: u32) -> &'static [u8]
    ensures { IsTrue (is_text result.now) }
{
    match code {
        numbers::RDMAP_INVALID_STAG => b"RDMA: Remote Protection Error: Invalid STag\0",
        numbers::RDMAP_BOUNDS => b"RDMA: Remote Protection Error: Base or bounds violation\0",
        numbers::RDMAP_RIGHTS => b"RDMA: Remote Protection Error: Access rights violation\0",
        numbers::RDMAP_NOT_ASSOCIATED =>
            b"RDMA: Remote Protection Error: STag not associated with RDMAP Stream\0",
        numbers::RDMAP_TO_WRAP => b"RDMA: Remote Protection Error: TO wrap\0",
        numbers::RDMAP_CANNOT_INVALIDATE =>
            b"RDMA: Remote Protection Error: STag cannot be Invalidated\0",
        numbers::RDMAP_UNSPECIFIED => b"RDMA: Remote Protection Error: Unspecified Error\0",
        _ => b"RDMA: Remote Protection Error: unknown code\0",
    }
}

// RFC 5040 4.8.
fn operation_text(code: u32) -> &'static [u8]
    ensures { IsTrue (is_text result.now) }
{
    match code {
        numbers::RDMAP_VERSION => b"RDMA: Remote Operation Error: Invalid RDMAP version\0",
        numbers::RDMAP_UNEXPECTED => b"RDMA: Remote Operation Error: Unexpected OpCode\0",
        numbers::RDMAP_STREAM_CATASTROPHIC =>
            b"RDMA: Remote Operation Error: Catastrophic error, localized to RDMAP Stream\0",
        numbers::RDMAP_GLOBAL_CATASTROPHIC =>
            b"RDMA: Remote Operation Error: Catastrophic error, global\0",
        numbers::RDMAP_CANNOT_INVALIDATE =>
            b"RDMA: Remote Operation Error: STag cannot be Invalidated\0",
        numbers::RDMAP_UNSPECIFIED => b"RDMA: Remote Operation Error: Unspecified Error\0",
        _ => b"RDMA: Remote Operation Error: unknown code\0",
    }
}

// RFC 5041 8.2.
fn tagged_text(code: u32) -> &'static [u8]
    ensures { IsTrue (is_text result.now) }
{
    match code {
        numbers::TAGGED_INVALID_STAG => b"DDP: Tagged Buffer Error: Invalid STag\0",
        numbers::TAGGED_BOUNDS => b"DDP: Tagged Buffer Error: Base or bounds violation\0",
        numbers::TAGGED_NOT_ASSOCIATED =>
            b"DDP: Tagged Buffer Error: STag not associated with DDP Stream\0",
        numbers::TAGGED_TO_WRAP => b"DDP: Tagged Buffer Error: TO wrap\0",
        numbers::TAGGED_VERSION => b"DDP: Tagged Buffer Error: Invalid DDP version\0",
        _ => b"DDP: Tagged Buffer Error: unknown code\0",
    }
}

// RFC 5041 8.2.
fn untagged_text(code: u32) -> &'static [u8]
    ensures { IsTrue (is_text result.now) }
{
    match code {
        numbers::UNTAGGED_INVALID_QN => b"DDP: Untagged Buffer Error: Invalid QN\0",
        numbers::UNTAGGED_NO_BUFFER =>
            b"DDP: Untagged Buffer Error: Invalid MSN - no buffer available\0",
        numbers::UNTAGGED_MSN_RANGE =>
            b"DDP: Untagged Buffer Error: Invalid MSN - MSN range is not valid\0",
        numbers::UNTAGGED_INVALID_MO => b"DDP: Untagged Buffer Error: Invalid MO\0",
        numbers::UNTAGGED_TOO_LONG =>
            b"DDP: Untagged Buffer Error: DDP Message too long for available buffer\0",
        numbers::UNTAGGED_VERSION => b"DDP: Untagged Buffer Error: Invalid DDP version\0",
        _ => b"DDP: Untagged Buffer Error: unknown code\0",
    }
}

// RFC 5044 8, RFC 6581 8.
fn mpa_text(code: u32) -> &'static [u8]
    ensures { IsTrue (is_text result.now) }
{
    match code {
        numbers::MPA_CONNECTION_LOST => b"MPA: TCP connection closed, terminated, or lost\0",
        numbers::MPA_CRC_MISMATCH =>
            b"MPA: Received MPA CRC does not match the calculated value for the FPDU\0",
        numbers::MPA_MARKER_MISMATCH =>
            b"MPA: MPA Marker and ULPDU Length fields do not agree on the start of an FPDU\0",
        numbers::MPA_INVALID_FRAME =>
            b"MPA: Invalid MPA Request Frame or MPA Response Frame received\0",
        numbers::MPA_CATASTROPHIC => b"MPA: Local catastrophic error\0",
        numbers::MPA_INSUFFICIENT_IRD => b"MPA: Insufficient IRD resources\0",
        numbers::MPA_NO_MATCHING_RTR => b"MPA: No matching RTR option\0",
        _ => b"MPA: unknown code\0",
    }
}

fn rdmap_text(error: u32, code: u32) -> &'static [u8]
    ensures { IsTrue (is_text result.now) }
{
    match error {
        numbers::RDMAP_CATASTROPHIC => b"RDMA: Local Catastrophic Error\0",
        numbers::RDMAP_PROTECTION => protection_text(code),
        numbers::RDMAP_OPERATION => operation_text(code),
        _ => b"RDMA: unknown error type\0",
    }
}

fn ddp_text(error: u32, code: u32) -> &'static [u8]
    ensures { IsTrue (is_text result.now) }
{
    match error {
        numbers::DDP_CATASTROPHIC => b"DDP: Local Catastrophic\0",
        numbers::DDP_TAGGED => tagged_text(code),
        numbers::DDP_UNTAGGED => untagged_text(code),
        _ => b"DDP: unknown error type\0",
    }
}

/// What a fault means, by its layer, error type and error code, in the names of the RFCs; as a C string.
pub fn fault_text(layer: u32, error: u32, code: u32) -> &'static [u8]
    ensures { IsTrue (is_text result.now) }
{
    match layer {
        numbers::LAYER_RDMAP => rdmap_text(error, code),
        numbers::LAYER_DDP => ddp_text(error, code),
        numbers::LAYER_MPA => mpa_text(code),
        _ => b"unknown layer\0",
    }
}
