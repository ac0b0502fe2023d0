//! What words ask for.
use horizon_rates::Settings;
use requests::{Request, Stepping, read_words};
use std::alloc::{AllocError, Global};
use std::io;

/// The word of a command.
fn command(request: &Request<'_>) -> &'static str {
    match request {
        Request::Plan {
            stepping: Stepping::Exists,
            ..
        } => "plan",
        Request::Plan { .. } => "plan-all",
        Request::Check { .. } => "check",
        Request::Ground { .. } => "ground",
        Request::Order { .. } => "order",
        Request::Gen { .. } => "gen",
        Request::Prove { .. } => "prove",
        Request::Verify { .. } => "verify",
        Request::Batch { .. } => "batch",
    }
}

/// Prints the numbers of settings.
fn print_settings(rt: &impl Print, settings: &Settings) -> io::Result<()> {
    let rates = settings.rates;
    print!(rt;
        " {:?} {} {} {}",
        rates.algorithm, rates.width, rates.quota, rates.percent
    )?;
    print!(rt; " {} {} {}", rates.growth, rates.start, rates.max)?;
    print!(rt;
        " {} {} {}",
        settings.budget, settings.slice, settings.workers
    )
}

/// Prints what a request has beside its files.
fn print_rest(rt: &impl Print, request: &Request<'_>) -> io::Result<()> {
    match request {
        Request::Plan { settings, .. } => print_settings(rt, settings),
        Request::Gen {
            kind,
            number,
            settings,
            show,
        } => {
            print!(rt; " {kind:?} {number}")?;
            print_settings(rt, settings)?;
            print!(rt; " {show:?}")
        }
        Request::Prove {
            horizon,
            budget,
            ..
        } => print!(rt; " {horizon} {budget}"),
        Request::Batch {
            settings,
            turns,
            ..
        } => {
            print_settings(rt, settings)?;
            print!(rt; " {turns:?}")
        }
        Request::Check { .. }
        | Request::Ground { .. }
        | Request::Order { .. }
        | Request::Verify { .. } => Ok(()),
    }
}

/// Prints a request: its files are at most those of a batch, a domain and 16 problems.
fn print_request(rt: &impl Print, request: &Request<'_>) -> io::Result<()> {
    print!(rt; "{}", command(request))?;
    for place in 0..17 {
        if let Some(name) = request.file(place) {
            print!(rt; " {name}")?;
        }
    }
    print_rest(rt, request)
}

/// The words of a text, with a blank between each two. An empty text has none.
fn split(alloc: Global, text: &str) -> Result<Vec<String>, AllocError> {
    let mut words = Vec::new(alloc);
    if !text.is_empty() {
        for word in text.split(' ') {
            words.push(word.to_owned(alloc)?)?;
        }
    }
    Ok(words)
}

/// Prints a line of words and what they ask for.
pub fn print_line(rt: &impl Print, alloc: Global, line: &str) -> io::Result<()> {
    let words = split(alloc, line)?;
    print!(rt; "{line} => ")?;
    match read_words(alloc, words.as_slice()) {
        Ok(Some(request)) => print_request(rt, &request)?,
        Ok(None) => {}
        Err(_) => print!(rt; "memory")?,
    }
    println!(rt)
}
