//! The text of a schedule, and the text of its trace.
use iw_program::{Status, replay_text};
use std::alloc::Global;
use std::fmt::Write;
use std::test::Fail;

// A Write, and how `a` learns that it is done.
const SCHEDULE: &str = "a domain 1
b domain 1
b register 1 4096 w 00*8
a open 0 1 preset - -
b open 0 1 preset - -
a write 0 01000000 4096 1122334455667788
a emit 0 2
b deliver 0 0 28
b work 0 3
a work 0
b deregister 01000000
";

const TRACE: &str = "a domain 1 ok
b domain 1 ok
b register 01000000
a open 0 ok
b open 0 ok
a write 0 ok
a emit 0 frame 0 0016c140010000000000000000001000112233445566778800000000
a emit 0 nothing
b deliver 0 kept
b work 0 placed write 01000000 4096 1122334455667788
b work 0 passed
b work 0 idle
a work 0 done write
b deregister 01000000 ok 1122334455667788
";

#[test]
fn a_schedule_has_a_trace(rt: HostRuntime) -> Result<(), Fail> {
    let replayed = replay_text(rt.alloc(), SCHEDULE.as_bytes())?;
    assert_eq!(rt; replayed.trace.as_str(), TRACE);
    assert!(rt; matches!(replayed.status, Status::Completed));
    Ok(())
}

// Schedules that are refused, each on a line with the reason.
const REFUSED: &str = "a fly 0: line 1: BadWord
a domain 256: line 1: BadNumber
a work 0: event 1: NoSuchStream
";

// The schedules of such lines, each with its refusal.
fn refused(alloc: Global, lines: &str) -> Result<String, Fail> {
    let mut told = String::new(alloc);
    for line in lines.lines() {
        let (schedule, _) = line.split_once(": ").ok_or("a schedule and a refusal")?;
        if let Err(refusal) = replay_text(alloc, schedule.as_bytes()) {
            writeln!(told, "{schedule}: {refusal}")?;
        }
    }
    Ok(told)
}

#[test]
fn schedules_are_refused(rt: HostRuntime) -> Result<(), Fail> {
    assert_eq!(rt; refused(rt.alloc(), REFUSED)?.as_str(), REFUSED);
    Ok(())
}
