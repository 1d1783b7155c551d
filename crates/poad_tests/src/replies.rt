//! A reply of the first version, which has its fields in another order.
use giop_answer::write_reply;
use poa_base::{Bytes, Datum, Head, Outcome, Reply, WantMemory};
use std::alloc::Global;
use std::test::Fail;

/// A reply of the first version.
fn reply(alloc: Global) -> Result<Bytes, WantMemory> {
    let head = Head {
        id: 1,
        minor: 0,
        little: true,
        flags: 3,
        locate: false,
    };
    let five = Reply::Outcome(Outcome::Value(Some(Datum::Long(5))));
    write_reply(alloc, &head, &five)
}

/// Whether these hexadecimal digits are those of the bytes.
fn spells(alloc: Global, bytes: &[u8], digits: &str) -> Result<bool, Fail> {
    Ok(hex::encode(alloc, bytes)?.as_str() == digits)
}

#[test]
fn the_first_version_has_its_contexts_in_front(rt: HostRuntime) -> Result<(), Fail> {
    let bytes = reply(rt.alloc())?;
    let digits = "47494f5001000101140000000000000001000000000000000500000000000000";
    assert!(rt; spells(rt.alloc(), bytes.as_slice(), digits)?);
    Ok(())
}
