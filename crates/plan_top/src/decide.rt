//! How a run ends, before anything is written.
ghost use Rattle.std.specs.Prelude.{◌≡◌, ◌≤◌, ◌++◌, ℕ, List, map, string_bytes, Some, None, Ok};
ghost use Rattle.pl_io.specs.Outside.{Heard, Agrees, fault_count};
ghost use Rattle.requests.specs.OneTask.{IsOfOne};
ghost use Rattle.requests.specs.Requested.{requested, command_named};
ghost use Rattle.requests.specs.Seen.{IsSized, files_of, seen};
ghost use Rattle.plan_tasks.specs.Files.{NotesAmong};
ghost use Rattle.plan_top.specs.Causes.{Comes, AskForBatch, names_in};
ghost use Rattle.plan_endings.specs.Ends.{EndsAs};

use crate::Ending;
use crate::batch::answer_batch;
use commands::answer::{answer, names_of, third_of};
use commands::generated::answer_gen;
use pl_io::Shelf;
use plan_endings::stop::Stop;
use plan_tasks::take::{take_all, take_batch};
use poll_batch::Driver;
use requests::{Request, read_words};
use solver_pool::Gate;
use std::alloc::Global;
use std::sync::Wait;
use std::thread::Threads;

/// How the run ends, by the words and the files that they name.
pub fn decide<H: Threads + Wait + Sync, S: Shelf, G: Gate, D: Driver>(
    rt: &H,
    alloc: Global,
    words: &[String],
    shelf: &mut S,
    gate: &G,
    driver: &mut D,
) -> Result<Ending, Stop>
    ensures cause { (took : List Heard) → S.heard shelf.new ≡ S.heard shelf.old ++ took → EndsAs (Comes took (S.failed shelf.old) (S.failed shelf.new) (map string_bytes words.now)) result }
    ensures agrees { Agrees (S.told shelf.old) (S.lacks shelf.old) (S.heard shelf.old) (S.heard shelf.new) }
    ensures no_command { command_named (map string_bytes words.now) ≡ None → result ≡ Ok Ending.Usage }
    ensures untouched { requested (map string_bytes words.now) ≡ None → shelf.new ≡ shelf.old }
    ensures told { S.told shelf.new ≡ S.told shelf.old }
    ensures lacks { S.lacks shelf.new ≡ S.lacks shelf.old }
    ensures noted { NotesAmong (names_in (map string_bytes words.now)) (S.failed shelf.old) (S.failed shelf.new) }
    ensures never_falls { (name : List ℕ) → fault_count name (S.failed shelf.old) ≤ fault_count name (S.failed shelf.new) }
    ensures drives { D.faults driver.old ≤ D.faults driver.new }
    ensures idle { (AskForBatch (map string_bytes words.now) → ⊥) → driver.new ≡ driver.old }
{
    let Some(request) = read_words(alloc, words)? else {
        return Ok(Ending::Usage);
    };
    decide_request(rt, alloc, &request, shelf, gate, driver)
}

// How a run ends by what is asked for.
fn decide_request<H: Threads + Wait + Sync, S: Shelf, G: Gate, D: Driver>(
    rt: &H,
    alloc: Global,
    request: &Request<'_>,
    shelf: &mut S,
    gate: &G,
    driver: &mut D,
) -> Result<Ending, Stop>
    requires sized { IsSized (seen request.now) }
    ensures cause { (took : List Heard) → S.heard shelf.new ≡ S.heard shelf.old ++ took → (words : List (List ℕ)) → requested words ≡ Some (seen request.now) → EndsAs (Comes took (S.failed shelf.old) (S.failed shelf.new) words) result }
    ensures agrees { Agrees (S.told shelf.old) (S.lacks shelf.old) (S.heard shelf.old) (S.heard shelf.new) }
    ensures told { S.told shelf.new ≡ S.told shelf.old }
    ensures lacks { S.lacks shelf.new ≡ S.lacks shelf.old }
    ensures noted { NotesAmong (files_of (seen request.now)) (S.failed shelf.old) (S.failed shelf.new) }
    ensures drives { D.faults driver.old ≤ D.faults driver.new }
    ensures idle { IsOfOne (seen request.now) → driver.new ≡ driver.old }
{
    match request {
        Request::Batch {
            domain,
            problems,
            settings,
            turns,
        } => {
            let files = take_batch(alloc, domain, problems.as_slice(), shelf)?;
            let problems = files.problems.as_slice();
            answer_batch(rt, alloc, driver, &files.domain, problems, settings, *turns)
        }
        Request::Gen {
            kind,
            number,
            settings,
            show,
        } => answer_gen(rt, alloc, *kind, *number, *show, settings, gate),
        _ => {
            let files = take_all(alloc, names_of(request), third_of(request), shelf)?;
            answer(rt, alloc, request, &files, gate)
        }
    }
}
