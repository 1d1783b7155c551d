//! The generator of numbers.
ghost use Rattle.std.specs.Prelude.{◌≡◌, ◌/◌, ◌^◌};
ghost use Rattle.poad_load.specs.Schedule.{next_number};

use crate::draw::Draw;

const FACTOR: u64 = 6_364_136_223_846_793_005;

const SUMMAND: u64 = 1_442_695_040_888_963_407;

/// The multiplicative congruential generator of 64 bits that Knuth's MMIX has.
#[derive(Drop)]
pub(crate) struct Generator {
    pub(crate) number: u64,
}

impl Generator {
    /// The draw of the next number: its upper 31 bits.
    pub(crate) fn draw(&mut self) -> Draw
        ensures number { self.new.number ≡ next_number self.old.number }
        ensures draw { result.bits ≡ self.new.number / 2 ^ 33 }
    {
        self.number = self.number.wrapping_mul(FACTOR).wrapping_add(SUMMAND);
        Draw {
            bits: self.number >> 33,
        }
    }
}
