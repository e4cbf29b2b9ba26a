use iw_schedules::read_schedule;
use std::alloc::{AllocError, Global};
use std::test::Fail;

// Texts with `/` for line feeds, and for each how many events it has, or its first fault.
const TEXTS: &str = "0 | #
0 | /# a domain 1//
1 | a domain 255
1 | b domain 0007/
1 | a register 1 18446744073709551615 wrsi Aa*3
1 | b register 1 0 - 00*20000000
1 | a register 1 0 ri -
1 | a deregister 0100fFFf
1 | a invalidate 01000000
1 | a store 01000000 0 -
1 | a open 255 255 initiator mc 00*512
1 | a open 0 1 responder c aa*0
1 | a open 0 1 preset m -
1 | a accept 0 00*512
1 | a reject 0 -
1 | a recv 0 20000000
1 | a send 0 plain - 6869
1 | a write 0 01000000 0 -
1 | a read 255 ffFFffFF 18446744073709551615 4294967295 00000000 18446744073709551615
1 | a read 0 01000000 0 0 01000000 0
1 | a mulpdu 0 4294967295
1 | a deliver 0 18446744073709551615 18446744073709551615
1 | a first 0 4294967295
1 | a raw 0 4294967295 00
100001 | a emit 0 100000/a work 0
line 1: BadWord | a
line 1: BadWord | b
line 1: BadWord | \x20
line 1: BadWord | c domain 1
line 1: BadWord | A domain 1
line 1: BadWord | ab domain 1
line 1: BadWord | -
line 1: BadWord | \x20a domain 1
line 1: BadWord | \x20# no comment
line 1: BadWord | a  domain 1
line 1: BadWord | a\tdomain 1
line 1: BadWord | a domain
line 1: BadWord | a domain 1 7
line 1: BadWord | a domain 1\x20
line 1: BadWord | a domains 1
line 1: BadWord | a Domain 1
line 1: BadWord | a fly 0
line 1: BadWord | a fly x y
line 1: BadWord | a accept 0
line 1: BadWord | a accept 0 - -
line 1: BadWord | a accepts 0 -
line 1: BadWord | a reject 0
line 1: BadNumber | a accept 256 00*513
line 1: BadOctets | a accept 0 00*513
line 1: BadOctets | a reject 0 00*513
line 1: BadWord | a invalidate
line 1: BadWord | a invalidate 01000000 0
line 1: BadWord | a store 01000000 0
line 1: BadWord | a read 0 01000000 0 4 01000000
line 1: BadWord | a read 0 01000000 0 4 01000000 0 0
line 1: BadWord | a reads 0 01000000 0 4 01000000 0
line 1: BadWord | a mulpdu 0
line 1: BadWord | a mulpdu 0 128 1
line 1: BadWord | a raws 0 0 aa
line 1: BadWord | a first 0
line 1: BadWord | a raw 0 0
line 1: BadWord | a raw 0 0 aa bb
line 1: BadWord | a break
line 1: BadWord | a break 0 0
line 1: BadWord | a breaks 0
line 1: BadWord | a open 0 1 Initiator - -
line 1: BadWord | a open 0 1 responders - -
line 1: BadWord | a open 0 1 opener x 00*513
line 1: BadOctets | a open 0 1 initiator x 00*513
line 1: BadWord | a open 0 1 preset
line 1: BadWord | a open 0 1 preset -
line 1: BadWord | a open 0 1 preset - - -
line 1: BadWord | a send 0 silent - aa
line 1: BadWord | a send 0 Both 01000000 aa
line 1: BadWord | a send 0 plain - aa bb
line 1: BadWord | a emit 0 3 3
line 1: BadWord | a deliver 0 0
line 1: BadWord | a register 1 0 w
line 1: BadNumber | a domain\x20
line 1: BadNumber | a domain 256
line 1: BadNumber | a domain -1
line 1: BadNumber | a domain +1
line 1: BadNumber | a domain 0x1
line 1: BadNumber | a domain 1\r
line 1: BadNumber | a domain 1\t
line 1: BadNumber | a domain  1
line 1: BadNumber | a domain 300 4
line 1: BadNumber | a domain 18446744073709551616
line 1: BadNumber | a domain 99999999999999999999999999
line 1: BadNumber | a register 1 18446744073709551616 w aa
line 1: BadNumber | a register 256 0 q xyz
line 1: BadNumber | a deregister 0100000
line 1: BadNumber | a deregister 010000000
line 1: BadNumber | a deregister 0100000g
line 1: BadNumber | a deregister -
line 1: BadNumber | a open 256 1 preset - -
line 1: BadNumber | a open 0 256 initiator - -
line 1: BadNumber | a recv 0 20000001
line 1: BadNumber | a recv 0 -
line 1: BadNumber | a send 0 plain 01000000 aa
line 1: BadNumber | a send 0 solicited 01000000 aa
line 1: BadNumber | a send 0 invalidate - aa
line 1: BadNumber | a send 0 both - aa
line 1: BadNumber | a send x solicited - aa
line 1: BadNumber | a write 0 0x000000 0 aa
line 1: BadNumber | a write 0 01000000 x aa
line 1: BadNumber | a write 0 01000000 0x10 a
line 1: BadNumber | a read 256 - 0 4 01000000 0
line 1: BadNumber | a read 0 - x 4 01000000 0
line 1: BadNumber | a read 0 01000000 18446744073709551616 4294967296 01000000 0
line 1: BadNumber | a read 0 01000000 0 4294967296 01000000 0
line 1: BadNumber | a read 0 01000000 0 -1 0100000 0
line 1: BadNumber | a read 0 01000000 0 4 0100000
line 1: BadNumber | a read 0 01000000 0 4 01000000 x y
line 1: BadNumber | a emit 0 0
line 1: BadNumber | a emit 0 100001
line 1: BadNumber | a emit 0\x20
line 1: BadWord | a emit 0 3\x20
line 1: BadNumber | a work 0 -
line 1: BadNumber | a deliver 0 0 18446744073709551616
line 1: BadNumber | a deliver 0 -1 4
line 1: BadNumber | a first 0 4294967296
line 1: BadNumber | a raw 0 4294967296 -
line 1: BadNumber | a raw 256 0 abc
line 1: BadNumber | a mulpdu 256 4294967296
line 1: BadNumber | a mulpdu 0 4294967296
line 1: BadNumber | a mulpdu 0 -
line 1: BadNumber | a invalidate 0100
line 1: BadNumber | a store 01000000 - aa
line 1: BadOctets | a store 01000000 0 a
line 1: BadOctets | a register 1 0 rw aa
line 1: BadOctets | a register 1 0 iw aa
line 1: BadOctets | a register 1 0 wrsir aa
line 1: BadOctets | a register 1 0 wrsi- aa
line 1: BadOctets | a register 1 0 -w aa
line 1: BadOctets | a register 1 0 ww aa
line 1: BadOctets | a register 1 0 W aa
line 1: BadOctets | a register 1 0  aa
line 1: BadOctets | a register 1 0 w\x20
line 1: BadOctets | a register 1 0 w -*2
line 1: BadOctets | a open 0 1 preset cm -
line 1: BadOctets | a open 0 1 preset mm -
line 1: BadOctets | a open 0 1 preset M -
line 1: BadOctets | a open 0 1 preset m- -
line 1: BadOctets | a open 0 1 preset  -
line 1: BadOctets | a open 0 1 preset - 00*513
line 1: BadOctets | a open 0 1 preset - a
line 1: BadOctets | a write 0 01000000 0 abc
line 1: BadOctets | a write 0 01000000 0 ag
line 1: BadOctets | a write 0 01000000 0 *2
line 1: BadOctets | a write 0 01000000 0 aa*
line 1: BadOctets | a write 0 01000000 0 aa*-1
line 1: BadOctets | a write 0 01000000 0 aa*2*2
line 1: BadOctets | a write 0 01000000 0 aa*99999999999999999999
line 1: BadOctets | a write 0 01000000 0 aa*20000001
line 1: BadOctets | a write 0 01000000 0 aabb*10000001
line 1: BadOctets | a write 0 01000000 0 aa\r
line 1: BadOctets | a write 0 01000000 0 --
line 1: BadOctets | a raw 0 4294967295 abc
line 1: BadWord | \r/
line 1: BadNumber | a domain 1\r/b domain 1\r/
line 1: BadWord | a fly 0/a domain 256/
line 1: BadNumber | a domain 256 x/a fly 0/
line 2: BadWord | a domain 1/a fly 0
line 2: BadWord | a domain 1/a fly 0/
line 6: BadNumber | //# a comment/#//a domain x/
line 11: TooMany | a work 0 100000/a work 0 100000/a work 0 100000/a work 0 100000/a work 0 100000/a work 0 100000/a work 0 100000/a work 0 100000/a work 0 100000/a work 0 100000/b emit 255
line 11: BadNumber | a work 0 100000/a work 0 100000/a work 0 100000/a work 0 100000/a work 0 100000/a work 0 100000/a work 0 100000/a work 0 100000/a work 0 100000/a work 0 100000/b emit 256";

// How many events the schedule has, or its fault, as it prints.
fn outcome_of(alloc: Global, schedule: &str) -> Result<String, AllocError> {
    match read_schedule(alloc, schedule.as_bytes()) {
        Ok(events) => events.len().to_string(alloc),
        Err(fault) => fault.to_string(alloc),
    }
}

#[test]
fn each_kind_of_text_is_read_or_refused(rt: HostRuntime) -> Result<(), Fail> {
    for row in TEXTS.split('\n') {
        let (outcome, text) = row.split_once(" | ").ok_or("an outcome and a text")?;
        let schedule = text.replace(rt.alloc(), '/', "\n")?;
        assert_eq!(rt;
            outcome_of(rt.alloc(), schedule.as_str())?.as_str(),
            outcome,
            "{row}"
        );
    }
    Ok(())
}
