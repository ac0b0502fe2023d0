// A run that is stopped and advanced again.
ghost use Rattle.std.specs.Prelude.{◌≡◌, ℕ, Bool, true, false, ◌+◌, ◌≤◌, OnOk, OnErr};

use crate::Memory;

/// A run that is advanced by units, in parts of any size, and stops after each.
///
/// What `k` units make of it is told by `moved` alone, from the run's origin, and not by the parts in which they were
/// granted. So advancing by a and then by b is advancing by a + b: the clause `moved` of `advance` holds for every k.
/// A run that found no memory is spoilt from then on: it stays as it is, and what state that is in is not said.
pub trait Resume: Drop {
    /// The number by which it is told from the other runs of a round, and by which they are ordered.
    ghost key_of: { Self → ℕ };

    /// How many units it was granted.
    ghost granted_of: { Self → ℕ };

    /// The run before any unit.
    ghost origin_of: { Self → Self };

    /// What so many units make of a run.
    ghost moved: { Self → ℕ → Self };

    /// The run apart from how many units it was granted.
    ghost state_of: { Self → Self };

    /// Whether it has more to do.
    ghost unsettled_at: { Self → Bool };

    /// Whether it found no memory once.
    ghost spoilt_at: { Self → Bool };

    /// Advances the run by `conflicts` units. At `Ok` it is where so many units more have it; at `Memory` it is spoilt. A
    /// run that was spoilt before answers `Memory` and stays as it was.
    fn advance(&mut self, conflicts: u32) -> Result<(), Memory>
        requires { granted_of self.old + conflicts ≤ 1073741824 }

        // Its key and its origin stay.
        ensures key { key_of self.new ≡ key_of self.old }
        ensures origin { origin_of self.new ≡ origin_of self.old }

        ensures granted { OnOk result (granted_of self.new ≡ granted_of self.old + conflicts) }
        ensures sound { OnOk result (spoilt_at self.new ≡ false) }
        ensures moved { OnOk result ((k : ℕ) → state_of self.old ≡ state_of (moved (origin_of self.old) k)
            → state_of self.new ≡ state_of (moved (origin_of self.old) (k + conflicts))) }

        ensures spoilt { OnErr result (spoilt_at self.new ≡ true) }
        ensures kept { OnErr result (granted_of self.new ≡ granted_of self.old) }

        // A run that was spoilt before does not answer `Ok`, and nothing of it changes.
        ensures sane { OnOk result (spoilt_at self.old ≡ false) }
        ensures stays { spoilt_at self.old ≡ true → self.new ≡ self.old };

    /// Its key; for the run of a solver, its horizon.
    fn horizon(&self) -> u32
        ensures { result ≡ key_of self.now };

    /// Whether it has more to do. Once it has not, more units leave it as it is, apart from what it was granted.
    fn unsettled(&self) -> bool
        ensures value { result ≡ unsettled_at self.now }
        ensures stays { (k n : ℕ) → unsettled_at (moved (origin_of self.now) k) ≡ false
            → state_of (moved (origin_of self.now) (k + n)) ≡ state_of (moved (origin_of self.now) k) };

    fn spoilt(&self) -> bool
        ensures { result ≡ spoilt_at self.now };

    /// How many units it was granted. A run that is not spoilt is where so many units from its origin have it.
    fn granted(&self) -> u64
        ensures value { result ≡ granted_of self.now }
        ensures moved { spoilt_at self.now ≡ false
            → state_of self.now ≡ state_of (moved (origin_of self.now) (granted_of self.now)) };

    /// May do the work of one unit that was not granted yet, so that it takes less time once it is granted. For its clients the
    /// run stays as it is, or it is spoilt. It says whether it did.
    fn work_ahead(&mut self) -> bool
        ensures key { key_of self.new ≡ key_of self.old }
        ensures origin { origin_of self.new ≡ origin_of self.old }
        ensures granted { granted_of self.new ≡ granted_of self.old }
        ensures same { spoilt_at self.new ≡ false → self.new ≡ self.old }
    {
        false
    }

    /// Whether a run has more to do is told by its state.
    ghost by_state: { (r : Self) → unsettled_at (state_of r) ≡ unsettled_at r };
}
