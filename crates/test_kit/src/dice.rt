//! Numbers that look random, the same in each run.

ghost use Rattle.std.specs.Prelude.{◌<◌};

/// A linear congruential generator.
#[derive(Drop)]
pub struct Dice {
    state: u32,
}

impl Dice {
    /// The generator of a number.
    pub fn new(seed: u32) -> Dice {
        let state = u64::from(seed) * 7919 + 1;
        Dice {
            state: (state % 2_147_483_648) as u32,
        }
    }

    /// The next number, below `sides`.
    pub fn roll(&mut self, sides: u32) -> u32
        requires { 0 < sides }
        ensures { result < sides }
    {
        let next = u64::from(self.state) * 1_103_515_245 + 12345;
        self.state = (next % 2_147_483_648) as u32;
        self.state / 65536 % sides
    }
}
