// The generator: a seed, and what it draws.
use careful::{number_of, plus};

// The next seed is the last one times FACTOR, less all whole PRIMEs.
const FACTOR: u64 = 48_271;

const PRIME: u64 = 2_147_483_647;

// The seed that was drawn by last.
#[derive(Clone, Copy, Default)]
pub struct Seed(pub u64);

impl Seed {
    // Goes on to the next.
    pub fn step(&mut self) {
        self.0 = self.0 % PRIME * FACTOR % PRIME;
    }

    // What it draws, one of so many numbers from 0 up.
    pub fn drawn(self, many: u64) -> u64 {
        if many == 0 { 0 } else { self.0 / 64 % many }
    }

    // What the next seed draws, one of so many numbers from 0 up.
    pub fn draw(&mut self, many: u64) -> u64 {
        self.step();
        self.drawn(many)
    }

    // The same as a byte, of 256 numbers at most.
    pub fn draw_byte(&mut self, many: u64) -> u8 {
        (self.draw(many) % 256) as u8
    }

    // What the next seed draws, one of so many numbers from a number up.
    pub fn draw_from(&mut self, low: i32, many: u64) -> i32 {
        plus(low, number_of(self.draw(many)))
    }
}
