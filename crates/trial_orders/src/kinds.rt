// The kinds of orders that are drawn, and of orders of halves.

// How the orders of a kind are drawn: how many counts of jobs there are from 0 up, how many jobs in ten
// are critical, how many weights there are from 1 up and how many lengths from `shortest` up. The first
// job is ready within `spread` seconds from `base` on, each later one within as many from `pace` seconds
// later on; it is due within `slack` seconds from `least` seconds after its earliest finish on. In orders of
// halves an optional half stands `lag` jobs behind its partner; orders of any jobs have none.
#[derive(Clone, Copy)]
pub struct Kind {
    pub counts: u64,
    pub critical: u64,
    pub weights: u64,
    pub shortest: i32,
    pub lengths: u64,
    pub base: i32,
    pub pace: i32,
    pub spread: u64,
    pub least: i32,
    pub slack: u64,
    pub lag: Option<u8>,
}

// How many kinds of orders there are, and how many of orders of halves.
pub const KINDS: u64 = 10;

pub const HALVES_KINDS: u64 = 5;

// The kinds of orders.
const ANY: [Kind; 10] = [
    // Windows of every sort.
    Kind {
        counts: 11,
        critical: 1,
        weights: 30,
        shortest: 1,
        lengths: 20,
        base: 0,
        pace: 12,
        spread: 30,
        least: -3,
        slack: 160,
        lag: None,
    },
    // One weight and one length.
    Kind {
        counts: 11,
        critical: 0,
        weights: 1,
        shortest: 5,
        lengths: 1,
        base: 0,
        pace: 8,
        spread: 5,
        least: 0,
        slack: 60,
        lag: None,
    },
    // Few weights and lengths.
    Kind {
        counts: 11,
        critical: 1,
        weights: 2,
        shortest: 1,
        lengths: 2,
        base: -6,
        pace: 9,
        spread: 2,
        least: 0,
        slack: 24,
        lag: None,
    },
    // Tight windows.
    Kind {
        counts: 11,
        critical: 0,
        weights: 3,
        shortest: 2,
        lengths: 3,
        base: 0,
        pace: 9,
        spread: 5,
        least: -1,
        slack: 20,
        lag: None,
    },
    // All critical.
    Kind {
        counts: 11,
        critical: 10,
        weights: 1,
        shortest: 1,
        lengths: 6,
        base: -20,
        pace: 18,
        spread: 10,
        least: 2,
        slack: 30,
        lag: None,
    },
    // Critical jobs in tight windows.
    Kind {
        counts: 11,
        critical: 3,
        weights: 4,
        shortest: 1,
        lengths: 4,
        base: 0,
        pace: 14,
        spread: 6,
        least: -1,
        slack: 34,
        lag: None,
    },
    // At the first second.
    Kind {
        counts: 11,
        critical: 1,
        weights: 30,
        shortest: 1,
        lengths: 60,
        base: -100_000,
        pace: 25,
        spread: 120,
        least: -10,
        slack: 300,
        lag: None,
    },
    // At the last second.
    Kind {
        counts: 11,
        critical: 1,
        weights: 20,
        shortest: 1,
        lengths: 30,
        base: 99_950,
        pace: 6,
        spread: 40,
        least: 0,
        slack: 60,
        lag: None,
    },
    // Long and heavy.
    Kind {
        counts: 7,
        critical: 1,
        weights: 50,
        shortest: 9_000,
        lengths: 1_001,
        base: -50_000,
        pace: 5_000,
        spread: 20_000,
        least: 0,
        slack: 30_000,
        lag: None,
    },
    // None or one job.
    Kind {
        counts: 2,
        critical: 3,
        weights: 2,
        shortest: 1,
        lengths: 3,
        base: -2,
        pace: 0,
        spread: 4,
        least: -2,
        slack: 5,
        lag: None,
    },
];

// The kinds of orders of halves.
const HALVES: [Kind; 5] = [
    // Windows of every sort.
    Kind {
        counts: 11,
        critical: 2,
        weights: 5,
        shortest: 2,
        lengths: 60,
        base: 0,
        pace: 60,
        spread: 120,
        least: -30,
        slack: 700,
        lag: Some(1),
    },
    // One weight and one length.
    Kind {
        counts: 11,
        critical: 0,
        weights: 1,
        shortest: 20,
        lengths: 1,
        base: -300,
        pace: 30,
        spread: 1,
        least: 0,
        slack: 300,
        lag: Some(2),
    },
    // Tight windows at the first second.
    Kind {
        counts: 11,
        critical: 1,
        weights: 3,
        shortest: 2,
        lengths: 60,
        base: -100_000,
        pace: 90,
        spread: 60,
        least: -10,
        slack: 300,
        lag: Some(3),
    },
    // At the last second.
    Kind {
        counts: 11,
        critical: 1,
        weights: 2,
        shortest: 2,
        lengths: 30,
        base: 99_400,
        pace: 40,
        spread: 60,
        least: 0,
        slack: 300,
        lag: Some(2),
    },
    // Long and heavy.
    Kind {
        counts: 11,
        critical: 0,
        weights: 50,
        shortest: 2,
        lengths: 999,
        base: -50_000,
        pace: 600,
        spread: 1_500,
        least: 0,
        slack: 9_000,
        lag: Some(4),
    },
];

// A kind of orders by its number; past the last the last.
pub fn kind_of(number: u64) -> Kind {
    ANY[number.min(KINDS - 1) as usize]
}

// The same of orders of halves.
pub fn halves_kind_of(number: u64) -> Kind {
    HALVES[number.min(HALVES_KINDS - 1) as usize]
}
