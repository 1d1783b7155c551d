//! The text of a journal of any length.

use std::alloc::{AllocError, Global};

/// The entries of one request, which the journal has again and again.
const ONE_REQUEST: &[u8] =
    b"arrive 0 64 request 1 2 little 3 h:504f410101010173000178 h:616464 56 h:0100000000000000
admit 0 0 serve 0
run 0
done 0
collect 0 0
";

/// The lines of `ONE_REQUEST`.
const LINES: u64 = 5;

/// The text of a journal with the entries of whole requests, at least so many.
pub fn of_requests(alloc: Global, entries: u64) -> Result<Vec<u8>, AllocError> {
    let mut text = Vec::from_slice(alloc, b"journal 1 run 1\n")?;
    for _ in 0..entries.div_ceil(LINES) {
        text.extend_from_slice(ONE_REQUEST)?;
    }
    Ok(text)
}
