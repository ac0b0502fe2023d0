// Which horizons are listed, how long a window stays open, and what quotas a budget grants.
use super::holding::{holds, is};
use horizon_rates::{Algorithm, Ledger, Rates, Window};
use std::process::Abort;

/// Rates with the values that the program takes where none are given, but for these.
fn rates(algorithm: Algorithm, start: u8, max: u8) -> Rates {
    Rates {
        algorithm,
        width: 4,
        quota: 50,
        percent: 50,
        growth: 150,
        start: u32::from(start),
        max: u32::from(max),
    }
}

/// Whether these horizons are listed, one after another, and no other.
fn lists(rates: &Rates, horizons: &[u32]) -> bool {
    let mut same = true;
    let mut place = 0u32;
    for horizon in horizons {
        same &= is(rates.nth(place), *horizon);
        place = place.saturating_add(1);
    }
    same && rates.nth(place).is_none()
}

/// An algorithm, its first and its greatest horizon, and what is listed.
type Row = (Algorithm, u8, u8, &'static [u32]);

const ROWS: [Row; 6] = [
    (Algorithm::A, 7, 3, &[0, 1, 2, 3]),
    (Algorithm::B, 7, 3, &[0, 1, 2, 3]),
    (Algorithm::C, 2, 8, &[2, 3, 5, 8]),
    (Algorithm::C, 2, 18, &[2, 3, 5, 8, 12, 18]),
    (Algorithm::C, 0, 8, &[0, 1, 2, 3, 5, 8]),
    (Algorithm::C, 9, 4, &[4]),
];

#[test]
fn lists_horizons(rt: HostRuntime) {
    for (algorithm, start, max, horizons) in &ROWS {
        let listed = lists(&rates(*algorithm, *start, *max), horizons);
        holds(&rt, listed, "listed horizons");
    }
}

/// Refutes the horizon at a place of the window, which is this one.
fn refute_at(rt: &impl Abort, window: &mut Window, place: u32, horizon: u32) {
    let Some(live) = window.live(place) else {
        rt.panic("a live horizon")
    };
    holds(rt, live == horizon, "the horizon");
    window.refute(live);
}

/// Whether this horizon alone is live, and no other is listed.
fn is_left(window: &Window, horizon: u32) -> bool {
    window.count() == 1
        && is(window.live(0), horizon)
        && window.live(1).is_none()
        && window.next_listed().is_none()
        && !window.ended()
}

#[test]
fn removes_horizons_up_to_a_refuted_one(rt: HostRuntime) {
    let mut window = Window::new(&rates(Algorithm::C, 2, 8));
    for horizon in &[2, 3, 5, 8] {
        holds(&rt, is(window.take_next(), *horizon), "the next one");
    }
    refute_at(&rt, &mut window, 2, 5);
    holds(&rt, is_left(&window, 8), "the last one");
    holds(&rt, window.take_next().is_none(), "no next one");
    refute_at(&rt, &mut window, 0, 8);
    holds(&rt, window.ended(), "the end");
}

/// A place, its quota, and what is granted of it.
type Quota = (u32, u32, u32);

/// Whether a place has this quota, and so much of it is granted.
fn grants(rates: &Rates, ledger: &mut Ledger, told: &Quota) -> bool {
    let (place, quota, granted) = *told;
    rates.quota(place) == quota && ledger.grant(quota) == granted
}

const QUOTAS: [Quota; 5] = [(0, 8, 8), (1, 4, 3), (2, 2, 0), (3, 1, 0), (4, 1, 0)];

#[test]
fn grants_falling_quotas(rt: HostRuntime) {
    let falling = Rates {
        algorithm: Algorithm::B,
        width: 5,
        quota: 8,
        percent: 50,
        growth: 150,
        start: 0,
        max: 64,
    };
    let mut ledger = Ledger::new(11);
    for told in &QUOTAS {
        holds(&rt, grants(&falling, &mut ledger, told), "a quota");
    }
    holds(&rt, ledger.left() == 0, "nothing left");
}
