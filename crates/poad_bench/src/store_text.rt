//! The text of a store of any number of rows.

use std::alloc::{AllocError, Global};

/// What a row has before the number of its object, and behind it.
const BEFORE: &[u8] = b"store /bank h:616363742d";

const BEHIND: &[u8] = b" register 100\n";

/// The digits of hexadecimal.
const DIGITS: &[u8; 16] = b"0123456789abcdef";

/// The text of a store with so many registers, below 2^32, whose ids ascend.
pub fn of_rows(alloc: Global, rows: u64) -> Result<Vec<u8>, AllocError> {
    let mut text = Vec::new(alloc);
    for row in 0..rows {
        text.extend_from_slice(BEFORE)?;
        for shift in [28u32, 24, 20, 16, 12, 8, 4, 0] {
            let digit = DIGITS.get((row >> shift) as usize % 16);
            text.push(digit.copied().unwrap_or(b'0'))?;
        }
        text.extend_from_slice(BEHIND)?;
    }
    Ok(text)
}
