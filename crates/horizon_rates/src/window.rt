ghost use Rattle.std.specs.Prelude.{◌≡◌, ◌+◌, ◌<◌, ◌≤◌, ◌↔◌, ◌⊎◌, [], ◌∷◌, ◌++◌, length, drop, filter, nat_lt, slice_get, Contains, IsTrue, IsNone, IfNone, IfSome, Some};
ghost use Rattle.horizon_rates.specs.Horizons.{listed, IsLastListed};
ghost use Rattle.horizon_rates.specs.Limits.{last_horizon};

use crate::Rates;
use std::marker::Model;

/// The live horizons of a race: those that were taken from the list and neither refuted nor passed
/// by a refuted one. They rise, and at most 16 are live at once.
#[derive(Drop)]
pub struct Window {
    rates: Rates,
    // The live horizons stand side by side in the list, so the place of the first one and their
    // number say which they are.
    first: u32,
    count: u32,
}

impl Model for Window {
    ghost use Rattle.std.specs.Prelude.{◌≡◌, ℕ, ◌+◌, ◌<◌, ◌≤◌, Some};
    ghost use Rattle.horizon_rates.specs.Horizons.{horizon_at};
    ghost use Rattle.horizon_rates.specs.Window.{WindowState, stretch};

    ghost Value = { WindowState };

    ghost view = { λ w. record { rates = w.rates; live = stretch w.rates w.first w.count; next = w.first + w.count } };

    ghost invariant = { λ w.
        (w.count ≤ w.rates.width)
        × ((place : ℕ) → place < w.first + w.count → horizon_at w.rates place ≤ w.rates.max) };
}

impl Window {
    ghost use Rattle.horizon_rates.specs.Window.{IsWindow, IsEnded};

    /// A window with no live horizon, before the whole list.
    pub fn new(rates: &Rates) -> Self
        ensures value { result ≡ record { rates = rates.now; live = []; next = 0 } }
        ensures unended { ¬ IsEnded result }
    {
        Window {
            rates: *rates,
            first: 0,
            count: 0,
        }
    }

    /// Brings in the next listed horizon, which is greater than all live ones; `None` exactly where
    /// the window has as many horizons as its rates allow, or the list is at its end.
    pub fn take_next(&mut self) -> Option<u32>
        ensures none { IsNone result
            ↔ ((self.old.rates.width ≤ length self.old.live)
            ⊎ IsNone (listed self.old.rates self.old.next)) }
        ensures unchanged { IfNone result (self.new ≡ self.old) }
        ensures next { IfSome result (λ h. listed self.old.rates self.old.next ≡ Some h) }
        ensures taken { IfSome result (λ h. self.new
            ≡ record self.old { live = self.old.live ++ h ∷ []; next = self.old.next + 1 }) }
        ensures at_most_max { IfSome result (λ h. h ≤ self.old.rates.max) }
        ensures small { IfSome result (λ h. h ≤ last_horizon) }
    {
        if self.count >= self.rates.width {
            return None;
        }
        let horizon = self.rates.nth(self.first + self.count)?;
        self.count += 1;
        Some(horizon)
    }

    /// The listed horizon that comes in next, whether or not there is room for it; `None` exactly where
    /// the list is at its end.
    pub fn next_listed(&self) -> Option<u32>
        ensures value { result ≡ listed self.now.rates self.now.next }
        ensures window { IsWindow self.now }
        ensures at_most_max { IfSome result (λ h. h ≤ self.now.rates.max) }
        ensures small { IfSome result (λ h. h ≤ last_horizon) }
    {
        self.rates.nth(self.first + self.count)
    }

    /// How many horizons are live.
    pub fn count(&self) -> u32
        ensures value { result ≡ length self.now.live }
        ensures window { IsWindow self.now }
    {
        self.count
    }

    /// The live horizon at place `place` of the window, counted from 0, in rising order; `None`
    /// exactly at or past the count.
    pub fn live(&self, place: u32) -> Option<u32>
        ensures value { result ≡ slice_get self.now.live place }
        ensures window { IsWindow self.now }
        ensures at_most_max { IfSome result (λ h. h ≤ self.now.rates.max) }
        ensures small { IfSome result (λ h. h ≤ last_horizon) }
    {
        if place >= self.count {
            return None;
        }
        self.rates.nth(self.first + place)
    }

    /// Removes the live horizon `h`, which was refuted, and every live horizon below it.
    pub fn refute(&mut self, h: u32)
        requires { Contains self.old.live h }
        ensures removed { self.new ≡ record self.old { live = filter (λ x. nat_lt h x) self.old.live } }
        ensures ends { IsEnded self.new ↔ IsLastListed self.old.rates h }
    {
        let removed = self.count_up_to(h);
        self.first += removed;
        self.count -= removed;
    }

    // How many live horizons are at most `h`: they are the first ones.
    fn count_up_to(&self, h: u32) -> u32
        ensures within { result ≤ length self.now.live }
        ensures others { filter (λ x. nat_lt h x) self.now.live ≡ drop result self.now.live }
    {
        let mut passed = 0;
        while let Some(horizon) = self.live(passed)
            && horizon <= h
        {
            passed += 1;
        }
        passed
    }

    /// Whether the last listed horizon was refuted.
    pub fn ended(&self) -> bool
        ensures { IsTrue result ↔ IsEnded self.now }
    {
        self.count == 0 && self.rates.nth(self.first).is_none()
    }
}
