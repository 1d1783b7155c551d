//! Known journals and stores, read and printed.
use poa_base::{Bytes, Entry, Items, Journal, Store, WantMemory};
use poa_journal::*;
use std::alloc::Global;
use std::test::Fail;

// A line or more of each kind of entry, of call, of verdict and of answer.
const WHOLE: &[u8] = b"journal 1 run 7
store /a h:6c register 0
entered 0
arrive 0 64 request 1 2 little 3 h:504f410101010173000178 h:616464 56 h:0100000000000000
arrive 0 52 request 4294967295 0 big 0 - h: 24 h:
arrive 0 40 locate 2 2 big h:504f
arrive 0 28 locate 3 1 little -
entered 1
arrive 1 20 line 1 activate-id /s h:79 r
arrive 1 9 line 18446744073709551615 bad 4294967295
arrive 1 41 line 3 manager m deactivate etherealize wait
filled 1 1048588
admit 0 0 incarnate 0
incarnated 0 fresh 0
admit 0 1 refuse OBJECT_NOT_EXIST fffff003
admit 0 2 refuse UNKNOWN fffff009
admit 15 3 serve 2
admit 0 4 default q
admit 0 5 locator q
admit 0 6 try
tried 0 yes 1
tried 0 no
tried 0 raised
tried 0 dying
admit 0 7 forward h.example 65535
admit 0 8 addressing
admit 0 9 here
admit 0 10 unknown
admit 1 11 wait
admit 1 12 answer ok
admit 1 13 answer ok h:0000000100000001
admit 1 14 answer ok IOR:00ff
admit 1 15 answer no TooMany 65536
admit 1 16 answer no BadWord 3
admit 1 17 answer no ServantAlreadyActive
admit 1 18 answer no NoForward
incarnated 2 named r
incarnated 2 double
incarnated 2 forward 127.0.0.1 1
incarnated 2 raise OBJ_ADAPTER 4f4d0001
run 0
done 0
takeout 1 0 etherealize
etherealized 1 yes no
takeout 1 1 quiet
collect 0 0
left 0
abandon 3
";

/// Whether a journal is of this run, has so many entries and prints as this text.
fn fits(
    alloc: Global,
    journal: &Journal,
    run: u32,
    entries: usize,
    printed: &[u8],
) -> Result<bool, WantMemory> {
    Ok(
        journal.run == run
            && journal.entries.len() == entries
            && print(alloc, journal)?.as_slice() == printed,
    )
}

/// Whether a text reads as a journal of this run with so many entries, which prints as that text.
fn reads_as(
    alloc: Global,
    text: &[u8],
    run: u32,
    entries: usize,
    printed: &[u8],
) -> Result<bool, Fail> {
    let journal = read(alloc, text)?;
    let same = fits(alloc, &journal, run, entries, printed);
    drop(journal);
    Ok(same?)
}

#[test]
fn each_line_reads_and_prints_as_it_stands(rt: HostRuntime) -> Result<(), Fail> {
    assert!(rt; reads_as(rt.alloc(), WHOLE, 7, 46, WHOLE)?);
    Ok(())
}

/// Whether the first line of a text outside the grammar of journals is told as this one.
fn tells_line(alloc: Global, text: &[u8], bad: u64) -> bool {
    match read(alloc, text).err() {
        Some(JournalFault::BadLine { line }) => line == bad,
        _ => false,
    }
}

#[test]
fn the_first_line_outside_the_grammar_is_told(rt: HostRuntime) -> Result<(), Fail> {
    let alloc = rt.alloc();
    let cases: [(&[u8], u64); 17] = [
        (b"", 1),
        (b"\n", 1),
        (b"journal 2 run 1\n", 1),
        (b"journal 1 run 01\n", 1),
        (b"journal 1 run 1 \n", 1),
        (b"journal 1 run 1\nfly 1\n", 2),
        (b"journal 1 run 1\n\n", 2),
        (b"journal 1 run 1\nstore", 2),
        (b"journal 1 run 1\nrun 0\nstore / h: echo\n", 3),
        (b"journal 1 run 1\nstore /b h: echo\nstore /a h: echo\n", 3),
        (b"journal 1 run 1\nstore /a h: echo\nstore /a h: echo\n", 3),
        (b"journal 1 run 1\nrun 0\nrun  0\nfly\n", 3),
        (b"journal 1 run 1\nrun 0\nrun 0 0\n", 3),
        (b"journal 1 run 1\nadmit 0 0 refuse MARSHAL FFFFF008\n", 2),
        (b"journal 1 run 1\nadmit 0 0 forward h.example 0\n", 2),
        (b"journal 1 run 1\narrive 0 9 line 1 deactivate / t:zz\n", 2),
        (b"journal 1 run 1\nadmit 1 12 answer no NoServant 1\n", 2),
    ];
    for (text, want) in &cases {
        assert!(rt; tells_line(alloc, text, *want), "line {want} isn't told");
    }
    Ok(())
}

#[test]
fn a_missing_last_end_of_line_is_forgiven(rt: HostRuntime) -> Result<(), Fail> {
    let printed = b"journal 1 run 1\nrun 0\n";
    assert!(rt; reads_as(rt.alloc(), b"journal 1 run 1\nrun 0", 1, 1, printed)?);
    Ok(())
}

/// Whether what was printed is this text.
fn is_text(printed: Bytes, text: &[u8]) -> bool {
    printed.as_slice() == text
}

/// The line of an entry.
fn entry_line(alloc: Global) -> Result<Bytes, WantMemory> {
    let entry = Entry::Etherealized {
        worker: 2,
        cleanup: true,
        remaining: false,
    };
    print_entry(alloc, &entry)
}

/// The text of a journal without entries.
fn empty_text(alloc: Global) -> Result<Bytes, WantMemory> {
    let empty = Journal {
        run: 1,
        opening: Store::new(alloc),
        entries: Items::new(alloc),
    };
    print(alloc, &empty)
}

#[test]
fn an_entry_prints_as_its_line(rt: HostRuntime) -> Result<(), Fail> {
    assert!(rt; is_text(entry_line(rt.alloc())?, b"etherealized 2 yes no"));
    assert!(rt; is_text(empty_text(rt.alloc())?, b"journal 1 run 1\n"));
    Ok(())
}

// Rows of each kind of state, by path and then by id.
const ROWS: &[u8] = b"store / h: register -9223372036854775808
store /a h:00ff log x6162 x xff
store /a h:6c echo
store /a/b h:00 fault
store /a-b h:00 log
";

/// The text as which a store prints that was read from this one.
fn reprinted(alloc: Global, rows: &[u8]) -> Result<Bytes, Fail> {
    let store = read_store(alloc, rows)?;
    let printed = print_store(alloc, &store);
    drop(store);
    Ok(printed?)
}

#[test]
fn each_row_reads_and_prints_as_it_stands(rt: HostRuntime) -> Result<(), Fail> {
    assert!(rt; is_text(reprinted(rt.alloc(), ROWS)?, ROWS));
    assert!(rt; is_text(reprinted(rt.alloc(), b"")?, b""));
    Ok(())
}

/// Whether the first line of a text that is no row is told as this one.
fn tells_row(alloc: Global, text: &[u8], bad: u64) -> bool {
    match read_store(alloc, text).err() {
        Some(JournalFault::BadLine { line }) => line == bad,
        _ => false,
    }
}

#[test]
fn the_first_line_that_is_no_row_is_told(rt: HostRuntime) -> Result<(), Fail> {
    let alloc = rt.alloc();
    let cases: [(&[u8], u64); 6] = [
        (b"store", 1),
        (b"\n", 1),
        (b"store /a h: register 01\n", 1),
        (b"store /a h: echo\nstore /a h: echo\n", 2),
        (b"store /b h: echo\nstore /a h: echo\n", 2),
        (b"store /a h: echo\nrun 0\nfly\n", 2),
    ];
    for (text, want) in &cases {
        assert!(rt; tells_row(alloc, text, *want), "line {want} isn't told");
    }
    Ok(())
}
