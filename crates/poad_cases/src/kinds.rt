//! What is printed of the kinds of a journal's entries.
use crate::case::Case;
use crate::report::Report;
use anyhow::Result;
use std::alloc::Global;
use std::collections::BTreeMap;
use text_words::{loose_words, next_line, parts, put_number, put_word};

impl Report {
    /// Prints how many entries of each kind the text of a journal has, and the order of some kinds, where the case asks it.
    pub fn put_kinds(&mut self, case: &Case, text: &[u8]) -> Result<()> {
        let kinds = kinds_of(self.alloc, text)?;
        if let Some(counted) = &case.counted {
            let line = counts(self.alloc, counted, &kinds)?;
            self.put_line(&line)?;
        }
        if case.ordered.is_empty() {
            return Ok(());
        }
        self.put_order(&case.ordered, &kinds)
    }

    /// Prints these kinds, but for those that aren't asked.
    fn put_order(&mut self, asked: &[String], kinds: &[&[u8]]) -> Result<()> {
        self.put(b"order")?;
        for kind in kinds.iter().filter(|kind| is_asked(asked, kind)) {
            self.put(b" ")?;
            self.put(kind)?;
        }
        self.put(b"\n")
    }
}

/// The kind of each entry of a journal's text, whose first line is no entry.
fn kinds_of(alloc: Global, text: &[u8]) -> Result<Vec<&[u8]>> {
    let mut kinds = Vec::new(alloc);
    let Some((_, entries)) = next_line(text) else {
        return Ok(kinds);
    };
    for line in &parts(alloc, entries, b'\n')? {
        if let Some(kind) = loose_words(alloc, line)?.first() {
            kinds.push(*kind)?;
        }
    }
    Ok(kinds)
}

/// The line that says how many entries there are of each of these kinds, or of each kind where none is asked.
fn counts(alloc: Global, asked: &[String], kinds: &[&[u8]]) -> Result<Vec<u8>> {
    let mut counts = BTreeMap::new(alloc);
    for kind in kinds {
        if asked.is_empty() || is_asked(asked, kind) {
            let count = counts.entry(*kind)?.or_insert(0u64);
            *count = count.saturating_add(1);
        }
    }
    let mut line = Vec::from_slice(alloc, b"entries")?;
    for (kind, count) in &counts {
        put_word(&mut line, kind)?;
        put_number(&mut line, *count)?;
    }
    Ok(line)
}

fn is_asked(asked: &[String], kind: &[u8]) -> bool {
    asked.iter().any(|one| one.as_bytes() == kind)
}
