//! The texts of the faults of the Common Data Representation, and its laws, which are called.
use cdr_core::*;
use std::alloc::Global;
use std::test::Fail;

/// Whether a fault has this text.
fn tells(alloc: Global, fault: CdrFault, text: &str) -> Result<bool, Fail> {
    Ok(fault.to_string(alloc)?.as_str() == text)
}

/// Whether each fault has its text.
fn each_tells(alloc: Global) -> Result<bool, Fail> {
    let short = CdrFault::Short { need: 4, have: 1 };
    let value = CdrFault::BadBool { value: 2 };
    Ok(
        tells(alloc, short, "4 bytes are needed and 1 are left")?
            && tells(alloc, value, "2 is no boolean")?
            && tells(alloc, CdrFault::NoNul, "a string doesn't end in NUL")?
            && tells(alloc, CdrFault::from(WantMemory), "out of memory")?,
    )
}

#[test]
fn faults_have_texts(rt: HostRuntime) -> Result<(), Fail> {
    assert!(rt; each_tells(rt.alloc())?);
    laws::one_reading();
    laws::none_where_refused();
    laws::one_refusal();
    laws::one_skip();
    laws::no_skip_where_lacking();
    laws::written_spells();
    laws::written_reads_back();
    laws::stands_behind();
    laws::lies_in_message();
    laws::slice_of_slice();
    Ok(())
}
