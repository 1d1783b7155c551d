//! The entries that a picture shows.
ghost use Rattle.std.specs.Prelude.{◌≡◌, ◌+◌, ◌≤◌};
ghost use Rattle.poad_audit.specs.PictureBars as drawn;

use crate::picture::bar::Bar;

/// The entries that a picture shows: from one on, so many more.
#[derive(Clone, Copy, Drop)]
pub(crate) struct Window {
    pub from: u32,
    pub span: u32,
}

impl Window {
    /// From the one entry to the other: at most 1,000,000 of them.
    pub(crate) fn new(from: u64, to: u64) -> Window
        ensures { result ≡ drawn.window from to }
    {
        Window {
            from: from.min(999_999_999) as u32,
            span: to.saturating_sub(from).min(999_999) as u32,
        }
    }

    /// How far in the window an entry lies.
    pub(crate) fn offset(self, entry: u64) -> u64
        ensures { result ≡ drawn.offset self entry }
    {
        let within = entry.saturating_sub(u64::from(self.from));
        within.min(u64::from(self.span) + 1)
    }

    /// How far in it a bar ends.
    pub(crate) fn end_offset(self, end: Option<u64>) -> u64
        ensures value { result ≡ drawn.end_offset self end }
        ensures within { result ≤ self.span + 1 }
    {
        match end {
            Some(entry) => self.offset(entry),
            None => u64::from(self.span) + 1,
        }
    }

    /// Where on a picture it lies.
    pub(crate) fn place(self, offset: u64) -> u64
        requires { offset ≤ self.span + 1 }
        ensures { result ≡ drawn.place self offset }
    {
        1500 + offset * 14000 / (u64::from(self.span) + 1)
    }

    /// Something of a bar lies in it.
    pub(crate) fn shows(self, bar: &Bar) -> bool
        ensures { result ≡ drawn.is_shown self bar.now }
    {
        !bar.phase.is_over() && self.offset(bar.begin) < self.end_offset(bar.end)
    }

    /// Whether it shows the end of a bar, as a word of the style sheet.
    pub(crate) fn ending(self, end: Option<u64>) -> &'static str
        ensures { result.now ≡ drawn.ending_word self end }
    {
        if self.end_offset(end) < u64::from(self.span) + 1 {
            "ended"
        } else {
            "open"
        }
    }
}
