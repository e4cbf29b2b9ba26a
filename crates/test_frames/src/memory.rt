//! A region at the end of the tagged offsets, and how rights print. What each call answers and leaves is in its clauses.
use iw_memory::{Deny, Memory, RegisterRefusal, Right, Rights, Stag};
use std::alloc::Global;
use std::test::Fail;

const WRITE: Rights = Rights {
    write: true,
    read: false,
    sink: false,
    invalidate: true,
};

fn registered(
    alloc: Global,
    memory: &mut Memory,
    base: u64,
) -> Result<Result<u32, RegisterRefusal>, Fail> {
    let octets = vec![in alloc; 0; 8]?;
    match memory.register(1, base, octets, WRITE) {
        Ok(stag) => Ok(Ok(stag.into())),
        Err((refusal, _octets)) => Ok(Err(refusal)),
    }
}

#[test]
fn a_region_ends_at_the_last_offset_at_most(rt: HostRuntime) -> Result<(), Fail> {
    let mut memory = Memory::new(rt.alloc());
    assert!(rt; memory.add_domain(1) == Ok(()));
    assert!(rt;
        registered(rt.alloc(), &mut memory, u64::MAX - 6)? == Err(RegisterRefusal::BaseWrap)
    );
    assert!(rt; registered(rt.alloc(), &mut memory, u64::MAX - 7)? == Ok(0x0100_0000));
    let stag = Stag::from(0x0100_0000);
    assert!(rt;
        memory.place(1, stag, u64::MAX, "ab".as_bytes(), Right::Write) == Err(Deny::ToWrap)
    );
    assert!(rt; memory.place(1, stag, u64::MAX, "a".as_bytes(), Right::Write) == Ok(()));
    assert!(rt; memory.store(stag, u64::MAX - 1, "ba".as_bytes()) == Ok(()));
    assert!(rt;
        matches!(memory.deregister(stag), Ok(octets) if octets.as_slice() == "\0\0\0\0\0\0ba".as_bytes())
    );
    Ok(())
}

#[test]
fn rights_print_as_letters(rt: HostRuntime) -> Result<(), Fail> {
    assert!(rt; format!(in rt.alloc(); "{WRITE}")?.as_str() == "wi");
    assert!(rt; format!(in rt.alloc(); "{}", Rights::default())?.as_str() == "-");
    Ok(())
}
