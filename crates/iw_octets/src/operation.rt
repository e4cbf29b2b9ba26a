//! RDMAP's operations: their opcodes, and which segments carry them (RFC 5040 4.1, figure 4).
ghost use Rattle.std.specs.Prelude.{◌≡◌, ◌<◌};
ghost use Rattle.iw_octets.specs.Operation.{rdmap_version, opcode_of, control_of, queue_of};
ghost use Rattle.iw_octets.specs.Operation.{tagged_opcode, untagged_opcode, tagged_operation, untagged_operation};

use crate::constants::RDMAP_VERSION;

/// What a tagged segment is part of.
#[derive(Clone, Copy, Debug, PartialEq, Eq)]
pub enum TaggedOperation {
    Write,
    ReadResponse,
}

/// What an untagged segment is part of.
#[derive(Clone, Copy, Debug, PartialEq, Eq)]
pub enum UntaggedOperation {
    /// A Send: with Solicited Event or without, with an STag to invalidate or without.
    Send { solicited: bool, invalidates: bool },
    ReadRequest,
    Terminate,
}

/// RDMAP's version in its octet of a header.
pub fn rdmap_version(control: u8) -> u8
    ensures { result ≡ rdmap_version control }
{
    control >> 6
}

// The opcode in RDMAP's octet of a header. The two bits above it are reserved.
fn opcode_of(control: u8) -> u8
    ensures { result ≡ opcode_of control }
{
    control & 0xf
}

// RDMAP's octet of a header with this opcode.
fn control_of(opcode: u8) -> u8
    requires { opcode < 16 }
    ensures { result ≡ control_of opcode }
{
    RDMAP_VERSION * 0x40 + opcode
}

impl TaggedOperation {
    /// The operation that RDMAP's octet of a tagged segment's header names. `None` if its opcode is reserved, or is one
    /// of untagged segments.
    pub fn of(control: u8) -> Option<TaggedOperation>
        ensures { result ≡ tagged_operation (opcode_of control) }
    {
        match opcode_of(control) {
            0 => Some(TaggedOperation::Write),
            2 => Some(TaggedOperation::ReadResponse),
            _ => None,
        }
    }

    /// RDMAP's octet of a header of this operation.
    pub fn control(self) -> u8
        ensures { result ≡ control_of (tagged_opcode self) }
    {
        match self {
            TaggedOperation::Write => control_of(0),
            TaggedOperation::ReadResponse => control_of(2),
        }
    }
}

impl UntaggedOperation {
    /// The operation that RDMAP's octet of an untagged segment's header names, whatever its queue. `None` if its opcode
    /// is reserved, or is one of tagged segments.
    pub fn of(control: u8) -> Option<UntaggedOperation>
        ensures { result ≡ untagged_operation (opcode_of control) }
    {
        let operation = match opcode_of(control) {
            1 => UntaggedOperation::ReadRequest,
            3 => UntaggedOperation::Send {
                solicited: false,
                invalidates: false,
            },
            4 => UntaggedOperation::Send {
                solicited: false,
                invalidates: true,
            },
            5 => UntaggedOperation::Send {
                solicited: true,
                invalidates: false,
            },
            6 => UntaggedOperation::Send {
                solicited: true,
                invalidates: true,
            },
            7 => UntaggedOperation::Terminate,
            _ => return None,
        };
        Some(operation)
    }

    /// RDMAP's octet of a header of this operation.
    pub fn control(self) -> u8
        ensures { result ≡ control_of (untagged_opcode self) }
    {
        match self {
            UntaggedOperation::ReadRequest => control_of(1),
            UntaggedOperation::Send {
                solicited: false,
                invalidates: false,
            } => control_of(3),
            UntaggedOperation::Send {
                solicited: false,
                invalidates: true,
            } => control_of(4),
            UntaggedOperation::Send {
                solicited: true,
                invalidates: false,
            } => control_of(5),
            UntaggedOperation::Send {
                solicited: true,
                invalidates: true,
            } => control_of(6),
            UntaggedOperation::Terminate => control_of(7),
        }
    }

    /// The number of the queue that carries it.
    pub fn queue(self) -> u32
        ensures { result ≡ queue_of self }
    {
        match self {
            UntaggedOperation::Send { .. } => 0,
            UntaggedOperation::ReadRequest => 1,
            UntaggedOperation::Terminate => 2,
        }
    }
}
