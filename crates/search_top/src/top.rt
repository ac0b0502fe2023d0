//! The top call.
ghost use Rattle.std.specs.Prelude.{◌≡◌, ◌≢◌, ◌≤◌, ℕ, List, [], ◌∷◌, map, string_bytes, Some, None, Contains};
ghost use Rattle.pl_io.specs.Outside.{Agrees, appended, TakesFront, Rose, fault_count};
ghost use Rattle.plan_tasks.specs.Files.{NotesAmong};
ghost use Rattle.plan_tasks.specs.Claims.{Printed, OfFiles};
ghost use Rattle.proof_verdict.specs.Verdict.{tape_run};
ghost use Rattle.search_top.specs.declared.request.Format.{Format};
ghost use Rattle.search_top.specs.declared.request.How.{How};
ghost use Rattle.search_top.specs.declared.request.How.TheVariants as how;
ghost use Rattle.search_top.specs.Requested.{requested, command_named};
ghost use Rattle.search_top.specs.Seen.{searches, nevers, certifies, explores, systems, formulates, refutes};
ghost use Rattle.search_top.specs.Ended.{status_of, text_of};
ghost use Rattle.search_top.specs.declared.ended.Finding.TheVariants as Finding;
ghost use Rattle.search_top.specs.declared.ended.Ended.{Ended};
ghost use Rattle.search_top.specs.Causes.{Comes, HasFault, names_in};
ghost use Rattle.search_top.specs.Headline.{PlanRuns, PlanIsLeast, HasNoPlan, IsSpent, TellsExclusion, IsOpen, OfThree, IsJudgedAs, TellsSet, IsSearched, TellsSystem, TellsFormula, IsRefuted, IsUnproved};

use crate::decide::decide;
use crate::laws::laws;
use pl_io::{Shelf, Sink, Tape};
use plan_endings::{Status, finish};
use std::alloc::Global;
use std::thread::Threads;

/// Reads the words, takes the files that they name from the shelf, and a proof from the tape, decides, and writes the text due into the sink.
///
/// The words are those after the program's name: `search DOMAIN PROBLEM [--how greedy|least] [--states N] [--memory MB]` has the states
/// of the task walked through, in search of some plan or of one with the least number of actions, by entering N states at most, and as
/// many as tables of so many megabytes hold. `never DOMAIN PROBLEM` asks whether grounding or the invariants show that there is no plan of any
/// length, and `never DOMAIN PROBLEM CERTIFICATE` whether a certificate shows it. `never-search DOMAIN PROBLEM [--budget K]` searches for a
/// certificate, by K obligations at most. `never-formula DOMAIN PROBLEM CERTIFICATE` has the formula of a certificate told in DIMACS format, and
/// `never-judge DOMAIN PROBLEM CERTIFICATE PROOF` a proof judged that refutes it, which is LRAT text of any length.
/// `system DOMAIN PROBLEM [--format blif|aiger]` has the ground task told as a transition system.
pub fn run<H: Threads + Sync, S: Shelf, T: Tape, K: Sink>(
    rt: &H,
    alloc: Global,
    words: &[String],
    shelf: &mut S,
    tape: &mut T,
    sink: &mut K,
) -> Status
    // With status 0 the text is a plan file, and the calls that it prints are a plan.
    ensures plan_runs { (text domain problem : List ℕ) (how : How) (states memory : ℕ) → result.0 ≡ 0 → Printed (K.taken sink.old) (K.taken sink.new) text
        → requested (map string_bytes words.now) ≡ Some (searches domain problem how states memory)
        → OfFiles (S.heard shelf.old) (S.heard shelf.new) domain problem (PlanRuns text) }

    // With `least` no plan has fewer calls.
    ensures least { (text domain problem : List ℕ) (states memory : ℕ) → result.0 ≡ 0 → Printed (K.taken sink.old) (K.taken sink.new) text
        → requested (map string_bytes words.now) ≡ Some (searches domain problem how.Least states memory)
        → OfFiles (S.heard shelf.old) (S.heard shelf.new) domain problem (PlanIsLeast text) }

    // With status 1 there is no plan of any length.
    ensures no_plan { (domain problem : List ℕ) (how : How) (states memory : ℕ) → result.0 ≡ 1
        → requested (map string_bytes words.now) ≡ Some (searches domain problem how states memory)
        → OfFiles (S.heard shelf.old) (S.heard shelf.new) domain problem HasNoPlan }

    // With status 2 as many states as the budget says were entered, each reached from the initial one and no two equal.
    ensures spent { (text domain problem : List ℕ) (how : How) (states memory : ℕ) → result.0 ≡ 2 → Printed (K.taken sink.old) (K.taken sink.new) text
        → requested (map string_bytes words.now) ≡ Some (searches domain problem how states memory)
        → OfFiles (S.heard shelf.old) (S.heard shelf.new) domain problem (IsSpent how states memory text) }

    // Of `never`: with status 0 there is no plan of any length, and the text tells by what the goal is excluded; with status 2 the invariants
    // leave it open.
    ensures never { (domain problem : List ℕ) → result.0 ≡ 0
        → requested (map string_bytes words.now) ≡ Some (nevers domain problem)
        → OfFiles (S.heard shelf.old) (S.heard shelf.new) domain problem HasNoPlan }
    ensures excluded { (text domain problem : List ℕ) → result.0 ≡ 0 → Printed (K.taken sink.old) (K.taken sink.new) text
        → requested (map string_bytes words.now) ≡ Some (nevers domain problem)
        → OfFiles (S.heard shelf.old) (S.heard shelf.new) domain problem (TellsExclusion text) }
    ensures open { (domain problem : List ℕ) → result.0 ≡ 2
        → requested (map string_bytes words.now) ≡ Some (nevers domain problem)
        → OfFiles (S.heard shelf.old) (S.heard shelf.new) domain problem IsOpen }

    // With a certificate: with status 0 there is no plan of any length, and the certificate is one by the definition of its kind; with status 1
    // the text tells what does not pass by it.
    ensures certified { (domain problem certificate : List ℕ) → result.0 ≡ 0
        → requested (map string_bytes words.now) ≡ Some (certifies domain problem certificate)
        → OfThree (S.heard shelf.old) (S.heard shelf.new) domain problem certificate (λ bytes. HasNoPlan) }
    ensures accepted { (text domain problem certificate : List ℕ) → result.0 ≡ 0 → Printed (K.taken sink.old) (K.taken sink.new) text
        → requested (map string_bytes words.now) ≡ Some (certifies domain problem certificate)
        → OfThree (S.heard shelf.old) (S.heard shelf.new) domain problem certificate (IsJudgedAs Finding.NoPlan text) }
    ensures rejected { (text domain problem certificate : List ℕ) → result.0 ≡ 1 → Printed (K.taken sink.old) (K.taken sink.new) text
        → requested (map string_bytes words.now) ≡ Some (certifies domain problem certificate)
        → OfThree (S.heard shelf.old) (S.heard shelf.new) domain problem certificate (IsJudgedAs Finding.Rejected text) }

    // Of `never-search`: with status 0 there is no plan of any length, and the text is a certificate of it; with status 1 its calls are a plan.
    ensures explored { (domain problem : List ℕ) (budget : ℕ) → result.0 ≡ 0
        → requested (map string_bytes words.now) ≡ Some (explores domain problem budget)
        → OfFiles (S.heard shelf.old) (S.heard shelf.new) domain problem HasNoPlan }
    ensures found { (text domain problem : List ℕ) (budget : ℕ) → result.0 ≡ 0 → Printed (K.taken sink.old) (K.taken sink.new) text
        → requested (map string_bytes words.now) ≡ Some (explores domain problem budget)
        → OfFiles (S.heard shelf.old) (S.heard shelf.new) domain problem (TellsSet text) }
    ensures met { (text domain problem : List ℕ) (budget : ℕ) → result.0 ≡ 1 → Printed (K.taken sink.old) (K.taken sink.new) text
        → requested (map string_bytes words.now) ≡ Some (explores domain problem budget)
        → OfFiles (S.heard shelf.old) (S.heard shelf.new) domain problem (PlanRuns text) }
    // With status 2 the budget is spent.
    ensures searched { (domain problem : List ℕ) (budget : ℕ) → result.0 ≡ 2
        → requested (map string_bytes words.now) ≡ Some (explores domain problem budget)
        → OfFiles (S.heard shelf.old) (S.heard shelf.new) domain problem (IsSearched budget) }

    // Of `system`: with status 0 the text is the task as a transition system, in the format that the words name.
    ensures system_told { (text domain problem : List ℕ) (format : Format) → result.0 ≡ 0 → Printed (K.taken sink.old) (K.taken sink.new) text
        → requested (map string_bytes words.now) ≡ Some (systems domain problem format)
        → OfFiles (S.heard shelf.old) (S.heard shelf.new) domain problem (TellsSystem format text) }

    // Of `never-formula`: with status 0 the text is the formula of the certificate, which is clauses that are read forward.
    ensures never_formula_told { (text domain problem certificate : List ℕ) → result.0 ≡ 0 → Printed (K.taken sink.old) (K.taken sink.new) text
        → requested (map string_bytes words.now) ≡ Some (formulates domain problem certificate)
        → OfThree (S.heard shelf.old) (S.heard shelf.new) domain problem certificate (TellsFormula text) }

    // Of `never-judge`: with status 0 there is no plan of any length, whatever the bytes of the certificate and of the proof were.
    ensures never_judged { (domain problem certificate proof : List ℕ) → result.0 ≡ 0
        → requested (map string_bytes words.now) ≡ Some (refutes domain problem certificate proof)
        → OfThree (S.heard shelf.old) (S.heard shelf.new) domain problem certificate (λ bytes. HasNoPlan) }

    // With status 0 the clauses of the certificate are all true in the initial state, the proof was opened once, no call that read it failed, and
    // its bytes are LRAT text whose lines derive the empty clause from the formula of the certificate, up to the first that adds it; or the
    // formula has that clause.
    ensures never_accepted { (text domain problem certificate proof : List ℕ) → result.0 ≡ 0 → Printed (K.taken sink.old) (K.taken sink.new) text
        → requested (map string_bytes words.now) ≡ Some (refutes domain problem certificate proof)
        → OfThree (S.heard shelf.old) (S.heard shelf.new) domain problem certificate (IsRefuted (T.given tape.old) (T.given tape.new) proof text) }

    // With status 1 a clause is false in the initial state, or the proof was read so too and its bytes are not such; the text tells which clause
    // or line, or that no line is empty.
    ensures never_rejected { (text domain problem certificate proof : List ℕ) → result.0 ≡ 1 → Printed (K.taken sink.old) (K.taken sink.new) text
        → requested (map string_bytes words.now) ≡ Some (refutes domain problem certificate proof)
        → OfThree (S.heard shelf.old) (S.heard shelf.new) domain problem certificate (IsUnproved (T.given tape.old) (T.given tape.new) proof text) }

    // Where no proof is asked to be judged the tape is not touched.
    ensures untaken { ((domain problem certificate proof : List ℕ) → requested (map string_bytes words.now) ≢ Some (refutes domain problem certificate proof)) → tape.new ≡ tape.old }

    // Each status has its cause, and with every status but 6 the bytes taken are exactly the text due.
    ensures due { result.0 ≢ 6 → result.0 ≢ 8 → (end : Ended) × (result.0 ≡ status_of end)
        × Comes (S.heard shelf.old) (S.heard shelf.new) (S.failed shelf.old) (S.failed shelf.new) (tape_run (T.faults tape.old) (T.faults tape.new) (T.given tape.old) (T.given tape.new)) (map string_bytes words.now) end
        × (K.taken sink.new ≡ appended (K.taken sink.old) (text_of end)) }
    ensures read_fault { result.0 ≡ 5
        → HasFault (S.failed shelf.old) (S.failed shelf.new) (T.faults tape.old) (T.faults tape.new) (map string_bytes words.now) }
    ensures write_fault { result.0 ≡ 6 → Rose (K.faults sink.old) (K.faults sink.new) }
    ensures front { result.0 ≡ 6 → (end : Ended)
        × Comes (S.heard shelf.old) (S.heard shelf.new) (S.failed shelf.old) (S.failed shelf.new) (tape_run (T.faults tape.old) (T.faults tape.new) (T.given tape.old) (T.given tape.new)) (map string_bytes words.now) end
        × TakesFront (K.taken sink.old) (K.taken sink.new) (text_of end) }
    ensures usage { result.0 ≡ 7 → requested (map string_bytes words.now) ≡ None }
    ensures not_taken { requested (map string_bytes words.now) ≡ None → Contains (6 ∷ 7 ∷ 8 ∷ []) result.0 }
    // Where the first word names no command, that is told whatever memory there is.
    ensures no_command { command_named (map string_bytes words.now) ≡ None → Contains (6 ∷ 7 ∷ []) result.0 }
    ensures untouched { requested (map string_bytes words.now) ≡ None → shelf.new ≡ shelf.old }

    // With 8 the sink was not touched.
    ensures nothing { result.0 ≡ 8 → sink.new ≡ sink.old }

    // The files are taken by the names that the words give, each at most once.
    ensures noted { NotesAmong (names_in (map string_bytes words.now)) (S.failed shelf.old) (S.failed shelf.new) }

    // What is handed over is what the shelf tells, where it tells that; what a shelf tells stays as it was, and no count of faults falls.
    ensures agrees { Agrees (S.told shelf.old) (S.lacks shelf.old) (S.heard shelf.old) (S.heard shelf.new) }
    ensures told { S.told shelf.new ≡ S.told shelf.old }
    ensures lacks { S.lacks shelf.new ≡ S.lacks shelf.old }
    ensures never_falls { (name : List ℕ) → fault_count name (S.failed shelf.old) ≤ fault_count name (S.failed shelf.new) }
    ensures tape_faults { T.faults tape.old ≤ T.faults tape.new }
    ensures faults { K.faults sink.old ≤ K.faults sink.new }
{
    laws();
    finish(alloc, decide(rt, alloc, words, shelf, tape), sink)
}
