//! How a run ends, before anything is written.
ghost use Rattle.std.specs.Prelude.{◌≡◌, ◌≢◌, ◌≤◌, ◌∷◌, ℕ, List, [], length, map, string_bytes, Some, None, Ok};
ghost use Rattle.pl_io.specs.Outside.{Agrees, fault_count};
ghost use Rattle.plan_tasks.specs.Files.{NotesAmong};
ghost use Rattle.plan_tasks.specs.Limits.{file_in, AreShort};
ghost use Rattle.plan_tasks.specs.Named.{bytes_of};
ghost use Rattle.plan_endings.specs.declared.ending.File.TheVariants.{Proof};
ghost use Rattle.proof_verdict.specs.Verdict.{tape_run};
ghost use Rattle.search_top.specs.Requested.{requested, command_named};
ghost use Rattle.search_top.specs.Seen.{Seen, seen, names_of, refutes, IsSized};
ghost use Rattle.search_top.specs.Answers.{EndsWith, Answers};
ghost use Rattle.search_top.specs.Causes.{ComesFor, Comes, names_in};

use crate::explore::{answer_explore, answer_system};
use crate::never::{answer_certificate, answer_never};
use crate::refute::{answer_formula, answer_judge};
use crate::search::answer_search;
use crate::{Ended, Request};
use pl_io::{Shelf, Tape};
use plan_endings::File;
use plan_endings::stop::Stop;
use plan_tasks::take::{Files, take_all};
use requests::read_words;
use std::alloc::Global;
use std::thread::Threads;

/// How the run ends, by the words and the files that they name.
pub(crate) fn decide<H: Threads + Sync, S: Shelf, T: Tape>(
    rt: &H,
    alloc: Global,
    words: &[String],
    shelf: &mut S,
    tape: &mut T,
) -> Result<Ended, Stop>
    ensures cause { EndsWith (Comes (S.heard shelf.old) (S.heard shelf.new) (S.failed shelf.old) (S.failed shelf.new) (tape_run (T.faults tape.old) (T.faults tape.new) (T.given tape.old) (T.given tape.new)) (map string_bytes words.now)) result }
    ensures no_command { command_named (map string_bytes words.now) ≡ None → result ≡ Ok Ended.Usage }
    ensures untouched { requested (map string_bytes words.now) ≡ None → shelf.new ≡ shelf.old }
    ensures told { S.told shelf.new ≡ S.told shelf.old }
    ensures lacks { S.lacks shelf.new ≡ S.lacks shelf.old }
    ensures agrees { Agrees (S.told shelf.old) (S.lacks shelf.old) (S.heard shelf.old) (S.heard shelf.new) }
    ensures noted { NotesAmong (names_in (map string_bytes words.now)) (S.failed shelf.old) (S.failed shelf.new) }
    ensures never_falls { (name : List ℕ) → fault_count name (S.failed shelf.old) ≤ fault_count name (S.failed shelf.new) }
    ensures untaken { ((domain problem certificate proof : List ℕ) → requested (map string_bytes words.now) ≢ Some (refutes domain problem certificate proof)) → tape.new ≡ tape.old }
    ensures tape_faults { T.faults tape.old ≤ T.faults tape.new }
{
    match read_words(alloc, words)? {
        None => Ok(Ended::Usage),
        Some(request) => decide_request(rt, alloc, &request, shelf, tape),
    }
}

// The same for what the words ask for.
fn decide_request<H: Threads + Sync, S: Shelf, T: Tape>(
    rt: &H,
    alloc: Global,
    request: &Request<'_>,
    shelf: &mut S,
    tape: &mut T,
) -> Result<Ended, Stop>
    requires { IsSized (seen request.now) }
    ensures cause { EndsWith (ComesFor (S.heard shelf.old) (S.heard shelf.new) (S.failed shelf.old) (S.failed shelf.new) (tape_run (T.faults tape.old) (T.faults tape.new) (T.given tape.old) (T.given tape.new)) (seen request.now)) result }
    ensures told { S.told shelf.new ≡ S.told shelf.old }
    ensures lacks { S.lacks shelf.new ≡ S.lacks shelf.old }
    ensures agrees { Agrees (S.told shelf.old) (S.lacks shelf.old) (S.heard shelf.old) (S.heard shelf.new) }
    ensures noted { NotesAmong (names_of (seen request.now)) (S.failed shelf.old) (S.failed shelf.new) }
    ensures untaken { ((domain problem certificate proof : List ℕ) → seen request.now ≢ refutes domain problem certificate proof) → tape.new ≡ tape.old }
    ensures tape_faults { T.faults tape.old ≤ T.faults tape.new }
{
    let files = take_all(alloc, request.names(), File::Proof, shelf)?;
    answer(rt, alloc, request, &files, tape)
}

// The bytes of a certificate, which is the third file.
fn third_of(files: &Files) -> &[u8]
    requires { length (bytes_of files.now) ≡ 3 }
    ensures { bytes_of files.now ≡ files.now.domain ∷ files.now.problem ∷ result.now ∷ [] }
{
    match &files.third {
        Some(third) => third.as_slice(),
        None => unreachable!(),
    }
}

// What the bytes of its files, and what a tape gave, come to for a request.
fn answer<H: Threads + Sync, T: Tape>(
    rt: &H,
    alloc: Global,
    request: &Request<'_>,
    files: &Files,
    tape: &mut T,
) -> Result<Ended, Stop>
    requires sized { IsSized (seen request.now) }
    requires fit { AreShort (file_in Proof) 0 (bytes_of files.now) }
    requires count { length (bytes_of files.now) ≡ length (names_of (seen request.now)) }
    ensures cause { EndsWith (Answers (tape_run (T.faults tape.old) (T.faults tape.new) (T.given tape.old) (T.given tape.new)) (seen request.now) (bytes_of files.now)) result }
    ensures untaken { ((domain problem certificate proof : List ℕ) → seen request.now ≢ refutes domain problem certificate proof) → tape.new ≡ tape.old }
    ensures tape_faults { T.faults tape.old ≤ T.faults tape.new }
{
    let first = files.domain.as_slice();
    let second = files.problem.as_slice();
    match request {
        Request::Search {
            how,
            states,
            memory,
            ..
        } => answer_search(alloc, first, second, *how, *states, *memory),
        Request::Never { .. } => answer_never(rt, alloc, first, second),
        Request::NeverSearch { budget, .. } => answer_explore(rt, alloc, first, second, *budget),
        Request::System { format, .. } => answer_system(alloc, first, second, *format),
        Request::Certify { .. } => { answer_certificate(rt, alloc, first, second, third_of(files)) }
        Request::NeverFormula { .. } => answer_formula(rt, alloc, first, second, third_of(files)),
        Request::NeverJudge { proof, .. } => {
            answer_judge(rt, alloc, first, second, third_of(files), proof, tape)
        }
    }
}
