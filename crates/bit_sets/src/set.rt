ghost use Rattle.std.specs.Prelude.{◌≡◌, ℕ, ◌<◌, ◌==◌, ◌||◌, ◌&&◌, ◌≤◌, ◌+◌, Bool, not, IfSome, OnOk, OnErr};
ghost use Rattle.bit_sets.specs.Layered.{IsLeast, IsLeastNear};

use std::alloc::AllocError;

/// A set of numbers below its room, which makes room for more and gives its least member. All but `grow` take no memory.
pub trait NumberSet {
    /// The numbers below this one may be in the set.
    ghost room: { Self → ℕ };

    /// Whether a number is in the set.
    ghost has: { Self → ℕ → Bool };

    /// Puts a number into the set, if it is not there.
    fn insert(&mut self, number: u32)
        requires { number < room self.old }
        ensures room { room self.new ≡ room self.old }
        ensures has { (k : ℕ) → has self.new k ≡ (k == number || has self.old k) };

    /// Takes a number out of the set, if it is there.
    fn remove(&mut self, number: u32)
        requires { number < room self.old }
        ensures room { room self.new ≡ room self.old }
        ensures has { (k : ℕ) → has self.new k ≡ (not (k == number) && has self.old k) };

    /// The numbers below this one may be in the set.
    fn room(&self) -> u64
        ensures { result ≡ room self.now };

    /// Makes room for more numbers, 64 at a time.
    fn grow(&mut self) -> Result<(), AllocError>
        requires { room self.old ≤ 4294967232 }
        ensures room { OnOk result (room self.old < room self.new) }
        ensures err { OnErr result (room self.new ≡ room self.old) }
        ensures has { (k : ℕ) → has self.new k ≡ has self.old k };

    /// The least member in the word of 64 numbers that a number is in, if it is found without a look at another word.
    fn least_near(&self, number: u32) -> Option<u32>
        requires { number < room self.now }
        ensures { IfSome result (λ n. IsLeastNear (has self.now) number n) };

    /// The least number of the set, if there is one.
    fn least(&self) -> Option<u32>
        ensures { IsLeast (has self.now) result };
}
