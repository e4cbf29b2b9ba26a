ghost use Rattle.std.specs.Prelude.{string_bytes, IfOk, IfErr};
ghost use Rattle.iw_program.specs.Replay.{Replays, Refuses};

use crate::fault::Refusal;
use crate::status::trace_status;
use iw_output::Status;
use iw_schedules::{print_trace, read_schedule};
use iw_world::World;
use std::alloc::{Allocator, Global};

/// The result of a schedule's replay.
#[derive(Drop)]
pub struct Replayed<A: Allocator = Global> {
    /// The trace, printed.
    pub trace: String<A>,
    /// `Failed` if a stream in the trace ends by a fault (of start-up too) or a Terminate, else `Completed`.
    pub status: Status,
}

/// Runs a schedule, given as text, and prints its trace.
pub fn replay_text<A: Allocator + Copy>(alloc: A, text: &[u8]) -> Result<Replayed<A>, Refusal>
    ensures replays { IfOk result (λ replayed. Replays text.now (string_bytes replayed.trace) replayed.status) }
    ensures refused { IfErr result (Refuses text.now) }
{
    let events = read_schedule(alloc, text).map_err(Refusal::Schedule)?;
    let trace = World::run(alloc, events.as_slice()).map_err(Refusal::World)?;
    Ok(Replayed {
        trace: print_trace(alloc, trace.as_slice())?,
        status: trace_status(trace.as_slice()),
    })
}
