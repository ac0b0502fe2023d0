//! The values in a command's matches.
ghost use Rattle.std.specs.Prelude.{◌≡◌, ◌≤◌, codes, IfOk, IfSome, option_map};
ghost use Rattle.clap.specs.Words.{found_of, rows_of};
ghost use Rattle.requests.specs.Passed.{text_at};
ghost use Rattle.requests.specs.own.Ranges.{HasNumbers, HasSettings, Has};
ghost use Rattle.requests.specs.Seen.{algorithm_of, kind_of, show_of, turns_of, numbers, numbers_in, numbers_with, seen, seen_in, counted, IsSized};

use crate::command::Name;
use crate::request::{Problems, Request, Show, Turns};
use crate::{Memory, number, text, texts};
use clap::ArgMatches;
use horizon_rates::{Algorithm, LAST_HORIZON, Rates, Settings};
use plan_gen::Kind;
use std::alloc::Global;

// Which horizons are listed.
fn algorithm_in(matches: &ArgMatches<'_>) -> Algorithm
    ensures { result ≡ algorithm_of (text_at (codes "alg") (rows_of (found_of matches.now))) }
{
    match text(matches, "alg") {
        "b" => Algorithm::B,
        "c" => Algorithm::C,
        _ => Algorithm::A,
    }
}

// Which task is generated.
fn kind_in(matches: &ArgMatches<'_>) -> Kind
    ensures { result ≡ kind_of (text_at (codes "kind") (rows_of (found_of matches.now))) }
{
    match text(matches, "kind") {
        "gripper" => Kind::Gripper,
        _ => Kind::Corridor,
    }
}

// Which of its texts is shown.
fn show_in(matches: &ArgMatches<'_>) -> Show
    ensures { result ≡ show_of (text_at (codes "show") (rows_of (found_of matches.now))) }
{
    match text(matches, "show") {
        "domain" => Show::Domain,
        "problem" => Show::Problem,
        _ => Show::None,
    }
}

// In which order problems are polled.
fn turns_in(matches: &ArgMatches<'_>) -> Turns
    ensures { result ≡ turns_of (text_at (codes "turns") (rows_of (found_of matches.now))) }
{
    match text(matches, "turns") {
        "backward" => Turns::Backward,
        _ => Turns::Forward,
    }
}

// What a race is run by.
fn settings_in(matches: &ArgMatches<'_>) -> Settings
    requires { HasSettings (rows_of (found_of matches.now)) }
    ensures { numbers result ≡ numbers_in (rows_of (found_of matches.now)) }
{
    settings_with(matches, number(matches, "workers", 1, 16))
}

// The same, with so many workers.
fn settings_with(matches: &ArgMatches<'_>, workers: u32) -> Settings
    requires numbers { HasNumbers (rows_of (found_of matches.now)) }
    requires workers { (1 ≤ workers) × (workers ≤ 16) }
    ensures { numbers result ≡ numbers_with workers (rows_of (found_of matches.now)) }
{
    let rates = Rates {
        algorithm: algorithm_in(matches),
        width: number(matches, "width", 1, 16),
        quota: number(matches, "quota", 1, 10000),
        percent: number(matches, "percent", 1, 99),
        growth: number(matches, "growth", 101, 400),
        start: number(matches, "start", 0, LAST_HORIZON),
        max: number(matches, "max-horizon", 0, LAST_HORIZON),
    };
    Settings {
        rates,
        budget: u64::from(number(matches, "budget", 0, 1000000)),
        slice: number(matches, "slice", 1, 10000),
        workers,
    }
}

/// What the matches of a command ask for; `None` where it is a batch of too many problems.
pub(crate) fn request_in<'a>(
    alloc: Global,
    name: Name,
    matches: &ArgMatches<'a>,
) -> Result<Option<Request<'a>>, Memory>
    requires { Has name (rows_of (found_of matches.now)) }
    ensures value { IfOk result (λ o. option_map seen o ≡ counted (seen_in name (rows_of (found_of matches.now)))) }
    ensures sized { IfOk result (λ o. IfSome o (λ r. IsSized (seen r))) }
{
    let domain = text(matches, "domain");
    let problem = text(matches, "problem");
    let request = match name {
        Name::Plan(stepping) => Request::Plan {
            stepping,
            domain,
            problem,
            settings: settings_in(matches),
        },
        Name::Check => Request::Check {
            domain,
            problem,
            plan: text(matches, "plan"),
        },
        Name::Ground => Request::Ground { domain, problem },
        Name::Order => Request::Order { domain, problem },
        Name::Gen => Request::Gen {
            kind: kind_in(matches),
            number: number(matches, "number", 1, 64),
            settings: settings_in(matches),
            show: show_in(matches),
        },
        Name::Prove => Request::Prove {
            domain,
            problem,
            horizon: number(matches, "horizon", 0, LAST_HORIZON),
            budget: u64::from(number(matches, "budget", 0, 1000000)),
        },
        Name::Verify => Request::Verify {
            domain,
            problem,
            certificate: text(matches, "certificate"),
        },
        Name::Batch => return batch_in(alloc, matches),
    };
    Ok(Some(request))
}

// The same of `batch`.
fn batch_in<'a>(alloc: Global, matches: &ArgMatches<'a>) -> Result<Option<Request<'a>>, Memory>
    requires { HasNumbers (rows_of (found_of matches.now)) }
    ensures value { IfOk result (λ o. option_map seen o ≡ counted (seen_in Name.Batch (rows_of (found_of matches.now)))) }
    ensures sized { IfOk result (λ o. IfSome o (λ r. IsSized (seen r))) }
{
    let Some(problems) = texts(matches, "problem") else {
        return Ok(None);
    };
    if problems.len() == 0 || 16 < problems.len() {
        return Ok(None);
    }
    let Ok(problems) = Problems::copied_from(alloc, problems) else {
        return Err(Memory);
    };
    Ok(Some(Request::Batch {
        domain: text(matches, "domain"),
        problems,
        settings: settings_with(matches, 1),
        turns: turns_in(matches),
    }))
}
