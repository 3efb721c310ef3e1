//! Numbers at random, the same again from the same seed.

/// What each number is drawn from.
const STEP: u64 = 0x9e37_79b9_7f4a_7c15;

/// A number whose bits all hang on those of this one.
pub fn mixed(number: u64) -> u64 {
    let first = (number ^ (number >> 30)).wrapping_mul(0xbf58_476d_1ce4_e5b9);
    let second = (first ^ (first >> 27)).wrapping_mul(0x94d0_49bb_1331_11eb);
    second ^ (second >> 31)
}

/// Draws numbers.
#[derive(Drop)]
pub struct Random {
    state: u64,
}

impl Random {
    /// It draws those of a seed.
    pub fn new(seed: u64) -> Random {
        Random {
            state: mixed(seed ^ STEP),
        }
    }

    /// The next number.
    pub fn number(&mut self) -> u64 {
        self.state = self.state.wrapping_add(STEP);
        mixed(self.state)
    }

    /// The next number below a bound, or 0 where that is 0.
    pub fn below(&mut self, bound: u64) -> u64 {
        if bound == 0 {
            return 0;
        }
        self.number() % bound
    }
}
