use std::fmt;
use std::fmt::{Display, Formatter, Write};

/// A number of hundredths, printed with its point.
#[derive(Clone, Copy)]
pub struct Hundredths(pub u64);

impl Hundredths {
    /// The quotient of two numbers.
    pub fn of_quotient(a: u64, b: u64) -> Hundredths {
        Hundredths(a.saturating_mul(100) / b.max(1))
    }
}

impl Display for Hundredths {
    fn fmt<W: Write>(&self, f: &mut Formatter<W>) -> fmt::Result {
        write!(f, "{}.{:02}", self.0 / 100, self.0 % 100)
    }
}
