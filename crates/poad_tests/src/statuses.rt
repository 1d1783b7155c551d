//! Each status of the program, with its number and its line.
use conf_toml::ConfFault;
use ior_text::IorFault;
use poad_files::Status;
use std::alloc::Global;
use std::test::Fail;

// Each status but those of a configuration, with its number and its line.
const STATUSES: [(Status, u8, &str); 16] = [
    (Status::BadWords, 2, "bad words"),
    (
        Status::ConfigRefused(ConfFault::NotToml),
        3,
        "config: NotToml",
    ),
    (Status::ScriptRefused { line: 3 }, 4, "script: line 3"),
    (
        Status::TextRefused(IorFault::BadDigit { at: 5 }),
        5,
        "ior: BadDigit 5",
    ),
    (Status::ReadFault, 6, "read fault"),
    (Status::WriteFault, 7, "write fault"),
    (Status::FileFault, 8, "file fault"),
    (Status::Malformed { at: 72 }, 9, "malformed at 72"),
    (Status::Truncated { have: 11 }, 10, "truncated 11"),
    (Status::Held { count: 1 }, 11, "held 1"),
    (Status::ListenFault, 13, "listen fault"),
    (Status::NoThread, 14, "no thread"),
    (Status::WantMemory, 15, "want of memory"),
    (Status::NoFile, 16, "no file"),
    (Status::FileTooLong, 17, "file too long"),
    (Status::StateRefused { line: 2 }, 18, "state: line 2"),
];

/// Whether a status has this number and this line.
fn has(alloc: Global, status: &Status, number: u8, line: &str) -> Result<bool, Fail> {
    Ok(status.number() == number && status.to_string(alloc)?.as_str() == line)
}

/// Whether each status of these rows has its number and its line.
fn each_has(alloc: Global, rows: &[(Status, u8, &str)]) -> Result<bool, Fail> {
    for (status, number, line) in rows {
        if !has(alloc, status, *number, line)? {
            return Ok(false);
        }
    }
    Ok(true)
}

/// Whether the rows of the table hold.
fn table_holds(alloc: Global) -> Result<bool, Fail> {
    each_has(alloc, &STATUSES)
}

/// Whether the statuses of the limits have their numbers and lines.
fn limits_hold(alloc: Global) -> Result<bool, Fail> {
    let limit = Status::Limit {
        arrivals: 1,
        bytes: 64,
    };
    let taken = Status::InputLimit {
        taken: 4_294_967_296,
    };
    let rows = [
        (limit, 12, "limit 1 64"),
        (taken, 19, "input limit 4294967296"),
    ];
    each_has(alloc, &rows)
}

#[test]
fn each_status_has_a_number_and_a_line(rt: HostRuntime) -> Result<(), Fail> {
    assert!(rt; Status::Ok.number() == 0);
    assert!(rt; table_holds(rt.alloc())? && limits_hold(rt.alloc())?);
    Ok(())
}
