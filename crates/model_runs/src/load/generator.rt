//! The generator of draws.
use crate::load::draw::Draw;

/// The number before the next draw.
#[derive(Drop)]
pub struct Generator {
    number: u64,
}

impl Generator {
    /// A generator that starts with this number.
    pub fn new(number: u64) -> Generator {
        Generator { number }
    }

    /// The next draw.
    pub fn draw(&mut self) -> Draw {
        let next = u128::from(self.number) * 6364136223846793005 + 1442695040888963407;
        self.number = (next % 18446744073709551616) as u64;
        Draw {
            number: self.number / 8589934592,
        }
    }
}
