//! The top call.
ghost use Rattle.std.specs.Prelude.{◌≡◌, ◌≢◌, ◌≤◌, ℕ, List, [], ◌∷◌, map, string_bytes, Some, None, Contains};
ghost use Rattle.pl_io.specs.Outside.{Agrees, appended, TakesFront, Rose, fault_count};
ghost use Rattle.requests.specs.declared.request.Stepping.{Stepping};
ghost use Rattle.plan_tasks.specs.Files.{NotesAmong};
ghost use Rattle.plan_tasks.specs.Claims.{Printed, OfFiles};
ghost use Rattle.judge_top.specs.Requested.{requested, command_named};
ghost use Rattle.judge_top.specs.Seen.{formulas, judges, models};
ghost use Rattle.judge_top.specs.Ended.{status_of, text_of};
ghost use Rattle.judge_top.specs.declared.ended.Ended.{Ended};
ghost use Rattle.proof_verdict.specs.Verdict.{tape_run};
ghost use Rattle.judge_top.specs.Causes.{Comes, OfTaken, HasFault, names_in};
ghost use Rattle.judge_top.specs.Headline.{IsProvedNone, PlanRunsIn, TellsFormula, WhenRead, OfVerdict, IsAccepted, IsRejected, IsNoProof, TellsModel, TellsNoModel, TellsNoText, OrNoTask};

use crate::decide::decide;
use pl_io::{Shelf, Sink, Tape};
use plan_endings::{Status, finish};
use std::alloc::Global;
use std::thread::Threads;

/// Reads the words, takes the domain and the problem from the shelf and a proof from the tape, decides, and writes the text due into the
/// sink.
///
/// The words are those after the program's name: `formula DOMAIN PROBLEM HORIZON [--steps exists|all]` has the formula of the horizon told
/// in DIMACS format, `judge DOMAIN PROBLEM HORIZON PROOF [--steps exists|all]` the proof judged, which is LRAT text of any length, and
/// `model DOMAIN PROBLEM HORIZON MODEL [--steps exists|all]` the plan told that the values of a model stand for, which a solver printed.
pub fn judge<H: Threads + Sync, S: Shelf, T: Tape, K: Sink>(
    rt: &H,
    alloc: Global,
    words: &[String],
    shelf: &mut S,
    tape: &mut T,
    sink: &mut K,
) -> Status
    // With status 0 the task has no step plan of so many steps, nor of fewer, and no plan of at most so many actions, whatever the
    // proof's bytes were.
    ensures judged { (domain problem proof : List ℕ) (horizon : ℕ) (how : Stepping) → result.0 ≡ 0
        → requested (map string_bytes words.now) ≡ Some (judges domain problem horizon proof how)
        → OfFiles (S.heard shelf.old) (S.heard shelf.new) domain problem (IsProvedNone how horizon) }

    // With status 0 the text is that of the formula of the horizon.
    ensures formula_told { (text domain problem : List ℕ) (horizon : ℕ) (how : Stepping) → result.0 ≡ 0 → Printed (K.taken sink.old) (K.taken sink.new) text
        → requested (map string_bytes words.now) ≡ Some (formulas domain problem horizon how)
        → OfFiles (S.heard shelf.old) (S.heard shelf.new) domain problem (TellsFormula how horizon text) }

    // With status 0 the text is a plan file whose calls lead from the initial state to the goal, and its steps are a step plan of so many
    // steps of that kind, whatever the model's bytes were.
    ensures planned { (text domain problem model : List ℕ) (horizon : ℕ) (how : Stepping) → result.0 ≡ 0 → Printed (K.taken sink.old) (K.taken sink.new) text
        → requested (map string_bytes words.now) ≡ Some (models domain problem horizon model how)
        → OfFiles (S.heard shelf.old) (S.heard shelf.new) domain problem (PlanRunsIn how horizon text) }

    // With status 0 the proof was opened once, no call that read it failed, and its bytes are LRAT text whose lines derive the empty clause
    // from the formula of the horizon by reverse unit propagation, up to the first that adds it; or the formula has that clause.
    ensures accepted { (domain problem proof : List ℕ) (horizon : ℕ) (how : Stepping) → result.0 ≡ 0
        → requested (map string_bytes words.now) ≡ Some (judges domain problem horizon proof how)
        → OfFiles (S.heard shelf.old) (S.heard shelf.new) domain problem (WhenRead (T.given tape.old) (T.given tape.new) proof (OfVerdict how horizon (T.given tape.new) IsAccepted)) }

    // With status 1 it was read so too, and its bytes are not such: the text tells the first line that does not follow, or that each
    // follows and none is empty. That is so whatever comes after the bytes that were handed over, where its end was not told.
    ensures rejected { (text domain problem proof : List ℕ) (horizon : ℕ) (how : Stepping) → result.0 ≡ 1 → Printed (K.taken sink.old) (K.taken sink.new) text
        → requested (map string_bytes words.now) ≡ Some (judges domain problem horizon proof how)
        → OfFiles (S.heard shelf.old) (S.heard shelf.new) domain problem (WhenRead (T.given tape.old) (T.given tape.new) proof (OfVerdict how horizon (T.given tape.new) (IsRejected horizon text))) }

    // With status 3 the domain or the problem is refused, or the proof was read so, and its bytes are no LRAT text at the offset that is
    // told.
    ensures no_proof { (text domain problem proof : List ℕ) (horizon : ℕ) (how : Stepping) → result.0 ≡ 3 → Printed (K.taken sink.old) (K.taken sink.new) text
        → requested (map string_bytes words.now) ≡ Some (judges domain problem horizon proof how)
        → OfTaken (S.heard shelf.old) (S.heard shelf.new) domain problem (OrNoTask text (WhenRead (T.given tape.old) (T.given tape.new) proof (OfVerdict how horizon (T.given tape.new) (IsNoProof horizon text)))) }

    // With status 0 the model was opened once, no call that read it failed, and its bytes are the text of a model, whose values satisfy
    // the formula of the horizon, and the text tells the steps that they stand for.
    ensures model_told { (text domain problem model : List ℕ) (horizon : ℕ) (how : Stepping) → result.0 ≡ 0 → Printed (K.taken sink.old) (K.taken sink.new) text
        → requested (map string_bytes words.now) ≡ Some (models domain problem horizon model how)
        → OfFiles (S.heard shelf.old) (S.heard shelf.new) domain problem (WhenRead (T.given tape.old) (T.given tape.new) model (TellsModel how horizon (T.given tape.new) text)) }

    // With status 1 it was read so too, its values leave a clause untrue, and the text tells the first.
    ensures no_model { (text domain problem model : List ℕ) (horizon : ℕ) (how : Stepping) → result.0 ≡ 1 → Printed (K.taken sink.old) (K.taken sink.new) text
        → requested (map string_bytes words.now) ≡ Some (models domain problem horizon model how)
        → OfFiles (S.heard shelf.old) (S.heard shelf.new) domain problem (WhenRead (T.given tape.old) (T.given tape.new) model (TellsNoModel how horizon (T.given tape.new) text)) }

    // With status 3 the domain or the problem is refused, or the model was read so, its bytes are no text of one, and the text tells where.
    ensures no_text { (text domain problem model : List ℕ) (horizon : ℕ) (how : Stepping) → result.0 ≡ 3 → Printed (K.taken sink.old) (K.taken sink.new) text
        → requested (map string_bytes words.now) ≡ Some (models domain problem horizon model how)
        → OfTaken (S.heard shelf.old) (S.heard shelf.new) domain problem (OrNoTask text (WhenRead (T.given tape.old) (T.given tape.new) model (TellsNoText how horizon (T.given tape.new) text))) }

    // For a formula no file is opened on the tape, nor read.
    ensures untaken { (domain problem : List ℕ) (horizon : ℕ) (how : Stepping) → result.0 ≡ 0
        → requested (map string_bytes words.now) ≡ Some (formulas domain problem horizon how) → T.given tape.new ≡ T.given tape.old }

    // Each status has its cause, and with every status but 6 the bytes taken are exactly the text due.
    ensures due { result.0 ≢ 6 → result.0 ≢ 8 → (end : Ended) × (result.0 ≡ status_of end)
        × Comes (S.heard shelf.old) (S.heard shelf.new) (S.failed shelf.old) (S.failed shelf.new) (tape_run (T.faults tape.old) (T.faults tape.new) (T.given tape.old) (T.given tape.new)) (map string_bytes words.now) end
        × (K.taken sink.new ≡ appended (K.taken sink.old) (text_of end)) }
    ensures read_fault { result.0 ≡ 5
        → HasFault (S.failed shelf.old) (S.failed shelf.new) (T.faults tape.old) (T.faults tape.new) (map string_bytes words.now) }
    ensures write_fault { result.0 ≡ 6 → Rose (K.faults sink.old) (K.faults sink.new) }
    ensures front { result.0 ≡ 6 → (end : Ended)
        × Comes (S.heard shelf.old) (S.heard shelf.new) (S.failed shelf.old) (S.failed shelf.new) (tape_run (T.faults tape.old) (T.faults tape.new) (T.given tape.old) (T.given tape.new)) (map string_bytes words.now) end
        × TakesFront (K.taken sink.old) (K.taken sink.new) (text_of end) }
    ensures usage { result.0 ≡ 7 → requested (map string_bytes words.now) ≡ None }
    ensures not_taken { requested (map string_bytes words.now) ≡ None → Contains (6 ∷ 7 ∷ 8 ∷ []) result.0 }
    // Where the first word names no command, that is told whatever memory there is.
    ensures no_command { command_named (map string_bytes words.now) ≡ None → Contains (6 ∷ 7 ∷ []) result.0 }
    ensures untouched { requested (map string_bytes words.now) ≡ None → shelf.new ≡ shelf.old }

    // With 8 the sink was not touched.
    ensures nothing { result.0 ≡ 8 → sink.new ≡ sink.old }

    // The domain and the problem are taken by the names that the words give, each at most once.
    ensures noted { NotesAmong (names_in (map string_bytes words.now)) (S.failed shelf.old) (S.failed shelf.new) }

    // What is handed over is what the shelf tells, where it tells that; what a shelf tells stays as it was, and no count of faults falls.
    ensures agrees { Agrees (S.told shelf.old) (S.lacks shelf.old) (S.heard shelf.old) (S.heard shelf.new) }
    ensures told { S.told shelf.new ≡ S.told shelf.old }
    ensures lacks { S.lacks shelf.new ≡ S.lacks shelf.old }
    ensures never_falls { (name : List ℕ) → fault_count name (S.failed shelf.old) ≤ fault_count name (S.failed shelf.new) }
    ensures tape_faults { T.faults tape.old ≤ T.faults tape.new }
    ensures faults { K.faults sink.old ≤ K.faults sink.new }
{
    plan_tasks::laws::laws();
    finish(alloc, decide(rt, alloc, words, shelf, tape), sink)
}
