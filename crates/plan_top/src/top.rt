//! The top call.
ghost use Rattle.std.specs.Prelude.{◌≡◌, ◌≢◌, ◌≤◌, ◌⊎◌, ℕ, ◌+◌, List, [], ◌∷◌, ◌++◌, map, string_bytes, codes, Some, None, IsTrue, Contains, slice_get};
ghost use Rattle.pl_io.specs.Outside.{Heard, Agrees, appended, TakesFront, Rose, fault_count};
ghost use Rattle.report_lines.specs.Lines.{lines_of};
ghost use Rattle.report_lines.specs.Horizons.{Says, is_word};
ghost use Rattle.plan_report.specs.Report.{plan_line};
ghost use Rattle.requests.specs.Seen.{Numbers, checks, grounds, orders, proves, verifies, batches};
ghost use Rattle.requests.specs.declared.request.Stepping.TheVariants.{Exists, All};
ghost use Rattle.requests.specs.declared.request.Turns.{Turns};
ghost use Rattle.requests.specs.Requested.{requested, command_named};
ghost use Rattle.plan_tasks.specs.Files.{NotesAmong};
ghost use Rattle.plan_top.specs.Causes.{Comes, IsBatchOf, ArePartsSo, HasRead, AskForBatch, FaultOf, names_in};
ghost use Rattle.plan_top.specs.Complete.{GoesWell, IsGood};
ghost use Rattle.plan_endings.specs.Ending.{status_of, text_of, greatest, parts_text};
ghost use Rattle.plan_top.specs.Headline.{Printed, OfFiles, OfThreeFiles, OfPlans, PlanRuns, EveryOrderRuns, HasAtLeast, HasPlanOf, TellsExhausted, NoStepPlan, NoPlan, LineIsSo, SpendsAll, Certifies, CertifiesNothing, ProvesNone, TellsGround, TellsOrder, AreCallsOfPlan, AreCallsOfNoPlan};
ghost use Rattle.plan_top.specs.OneReport.{AskForOne, AskForOnePart, AskToVerify, AskToProve};
ghost use Rattle.plan_endings.specs.declared.ending.Ending.{Ending};
ghost use Rattle.plan_endings.specs.declared.ending.Ending.TheVariants.{Listing, Report, TooLong};
ghost use Rattle.plan_endings.specs.declared.ending.File.TheVariants.{Proof};
ghost use Rattle.plan_endings.specs.declared.ending.Outcome.{Outcome};

use crate::decide::decide;
use crate::laws::laws;
use pl_io::{Shelf, Sink};
use plan_endings::{Status, finish};
use poll_batch::Driver;
use solver_pool::Gate;
use std::alloc::Global;
use std::sync::Wait;
use std::thread::Threads;

/// Reads the words, takes the files from the shelf, decides, and writes the text due into the sink.
///
/// The words are those after the program's name: a command (`plan`, `plan-all`, `check`, `ground`, `order`, `gen`,
/// `prove`, `verify` or `batch`), and what it takes.
/// The workers of a race tell the gate of each turn; the report is the same for any number of them. The races of a batch are polled in
/// turn by the driver; the report is the same for each driver.
pub fn run<H: Threads + Wait + Sync, S: Shelf, K: Sink, G: Gate, D: Driver>(
    rt: &H,
    alloc: Global,
    words: &[String],
    shelf: &mut S,
    sink: &mut K,
    gate: &G,
    driver: &mut D,
) -> Status
    // A printed plan leads from the initial state to the goal, and its steps are a step plan.
    ensures plan_runs { OfPlans (map string_bytes words.now) (S.heard shelf.old) (S.heard shelf.new) (K.taken sink.old) (K.taken sink.new) (λ how text numbers of_files.
        result.0 ≡ 0 → of_files (PlanRuns how text)) }

    // The calls of a plan in all-steps are a plan in every order within their steps.
    ensures every_order_runs { OfPlans (map string_bytes words.now) (S.heard shelf.old) (S.heard shelf.new) (K.taken sink.old) (K.taken sink.new) (λ how text numbers of_files.
        result.0 ≡ 0 → how ≡ All → of_files (EveryOrderRuns text)) }

    // A horizon that is printed as `plan` has a plan in so many steps.
    ensures found_steps { OfPlans (map string_bytes words.now) (S.heard shelf.old) (S.heard shelf.new) (K.taken sink.old) (K.taken sink.new) (λ how text numbers of_files.
        (horizon conflicts : ℕ) → Says text horizon (codes "plan") conflicts → of_files (HasPlanOf how horizon)) }

    // A horizon that is printed as refuted has no step plan of so many steps, nor of fewer.
    ensures refuted_steps { OfPlans (map string_bytes words.now) (S.heard shelf.old) (S.heard shelf.new) (K.taken sink.old) (K.taken sink.new) (λ how text numbers of_files.
        (horizon conflicts : ℕ) → Says text horizon (codes "refuted") conflicts → of_files (NoStepPlan how horizon)) }

    // Nor is there a plan of at most so many actions.
    ensures refuted_plans { OfPlans (map string_bytes words.now) (S.heard shelf.old) (S.heard shelf.new) (K.taken sink.old) (K.taken sink.new) (λ how text numbers of_files.
        (horizon conflicts : ℕ) → Says text horizon (codes "refuted") conflicts → of_files (NoPlan horizon)) }

    // Where the horizon below that of a printed plan is refuted, each step plan has at least as many steps as the plan.
    ensures least { OfPlans (map string_bytes words.now) (S.heard shelf.old) (S.heard shelf.new) (K.taken sink.old) (K.taken sink.new) (λ how text numbers of_files.
        (horizon conflicts actions : ℕ) → Contains (lines_of text) (plan_line (horizon + 1) actions) → Says text horizon (codes "refuted") conflicts → of_files (HasAtLeast how (horizon + 1))) }

    // Where no plan is told and nothing is left open, the last listed horizon is refuted.
    ensures exhausted { OfPlans (map string_bytes words.now) (S.heard shelf.old) (S.heard shelf.new) (K.taken sink.old) (K.taken sink.new) (λ how text numbers of_files.
        result.0 ≡ 1 → of_files (λ task. TellsExhausted text numbers)) }

    // Unfinished is printed only where the conflicts of the horizons are the budget.
    ensures unfinished { OfPlans (map string_bytes words.now) (S.heard shelf.old) (S.heard shelf.new) (K.taken sink.old) (K.taken sink.new) (λ how text numbers of_files.
        result.0 ≡ 2 → of_files (λ task. SpendsAll text numbers.budget)) }

    // Each line of a horizon is so: after exactly so many conflicts its solver stands as the word says.
    ensures lines { OfPlans (map string_bytes words.now) (S.heard shelf.old) (S.heard shelf.new) (K.taken sink.old) (K.taken sink.new) (λ how text numbers of_files.
        (horizon conflicts : ℕ) (word : List ℕ) → IsTrue (is_word word) → Says text horizon word conflicts → of_files (LineIsSo how horizon word conflicts)) }

    // The facts and actions, and the order, that are printed are those of the task.
    ensures ground_told { (text domain problem : List ℕ) → result.0 ≡ 0 → Printed (K.taken sink.old) (K.taken sink.new) text
        → requested (map string_bytes words.now) ≡ Some (grounds domain problem) → OfFiles (S.heard shelf.old) (S.heard shelf.new) domain problem (TellsGround text) }
    ensures order_told { (text domain problem : List ℕ) → result.0 ≡ 0 → Printed (K.taken sink.old) (K.taken sink.new) text
        → requested (map string_bytes words.now) ≡ Some (orders domain problem) → OfFiles (S.heard shelf.old) (S.heard shelf.new) domain problem (TellsOrder text) }

    // Calls that are answered as a plan are one.
    ensures reached { (domain problem plan : List ℕ) → result.0 ≡ 0 → requested (map string_bytes words.now) ≡ Some (checks domain problem plan)
        → OfThreeFiles (S.heard shelf.old) (S.heard shelf.new) domain problem plan AreCallsOfPlan }
    // And calls that are answered as none are none.
    ensures not_reached { (domain problem plan : List ℕ) → result.0 ≡ 1 → requested (map string_bytes words.now) ≡ Some (checks domain problem plan)
        → OfThreeFiles (S.heard shelf.old) (S.heard shelf.new) domain problem plan AreCallsOfNoPlan }

    // What is written as a certificate is one: it spells the horizon and a derivation of the empty clause from its formula.
    ensures certified { (text domain problem : List ℕ) (horizon budget : ℕ) → result.0 ≡ 0 → Printed (K.taken sink.old) (K.taken sink.new) text
        → requested (map string_bytes words.now) ≡ Some (proves domain problem horizon budget) → OfFiles (S.heard shelf.old) (S.heard shelf.new) domain problem (Certifies text horizon) }

    // Where a plan is told in its place, the horizon has a step plan of so many steps.
    ensures proved_plan { (domain problem : List ℕ) (horizon budget : ℕ) → result.0 ≡ 1 → requested (map string_bytes words.now) ≡ Some (proves domain problem horizon budget)
        → OfFiles (S.heard shelf.old) (S.heard shelf.new) domain problem (HasPlanOf Exists horizon) }

    // Where a certificate is accepted, the horizon that it names has no step plan of so many steps, nor of fewer, and no plan of at
    // most so many actions.
    ensures verified { (domain problem proof : List ℕ) → result.0 ≡ 0 → requested (map string_bytes words.now) ≡ Some (verifies domain problem proof)
        → OfThreeFiles (S.heard shelf.old) (S.heard shelf.new) domain problem proof ProvesNone }

    // What is accepted is a certificate, and what is rejected is none.
    ensures accepted { (domain problem proof : List ℕ) → result.0 ≡ 0 → requested (map string_bytes words.now) ≡ Some (verifies domain problem proof)
        → OfThreeFiles (S.heard shelf.old) (S.heard shelf.new) domain problem proof (λ text task. (horizon : ℕ) × Certifies text horizon task) }
    ensures rejected { (domain problem proof : List ℕ) → result.0 ≡ 1 → requested (map string_bytes words.now) ≡ Some (verifies domain problem proof)
        → OfThreeFiles (S.heard shelf.old) (S.heard shelf.new) domain problem proof CertifiesNothing }

    // Each status has its cause, and with every status but 6 the bytes taken are exactly the text due.
    ensures due { (took : List Heard) → S.heard shelf.new ≡ S.heard shelf.old ++ took → result.0 ≢ 6 → result.0 ≢ 8 → (end : Ending) × (result.0 ≡ status_of end)
        × Comes took (S.failed shelf.old) (S.failed shelf.new) (map string_bytes words.now) end
        × (K.taken sink.new ≡ appended (K.taken sink.old) (text_of end)) }
    ensures read_fault { result.0 ≡ 5 → FaultOf (S.failed shelf.old) (S.failed shelf.new) (map string_bytes words.now) }
    ensures write_fault { result.0 ≡ 6 → Rose (K.faults sink.old) (K.faults sink.new) }
    ensures front { (took : List Heard) → S.heard shelf.new ≡ S.heard shelf.old ++ took → result.0 ≡ 6 → (end : Ending)
        × Comes took (S.failed shelf.old) (S.failed shelf.new) (map string_bytes words.now) end
        × TakesFront (K.taken sink.old) (K.taken sink.new) (text_of end) }
    ensures usage { result.0 ≡ 7 → requested (map string_bytes words.now) ≡ None }
    ensures not_taken { requested (map string_bytes words.now) ≡ None → Contains (6 ∷ 7 ∷ 8 ∷ []) result.0 }
    // Where the first word names no command, that is told whatever memory there is.
    ensures no_command { command_named (map string_bytes words.now) ≡ None → Contains (6 ∷ 7 ∷ []) result.0 }
    ensures untouched { requested (map string_bytes words.now) ≡ None → shelf.new ≡ shelf.old }

    // With 8 the sink was not touched.
    ensures nothing { result.0 ≡ 8 → sink.new ≡ sink.old }

    // Files are taken by the names that the words give, each at most once: the names at which the shelf failed are the old
    // ones, followed by names among these, at most one for each.
    ensures noted { NotesAmong (names_in (map string_bytes words.now)) (S.failed shelf.old) (S.failed shelf.new) }

    // What the shelf hands over is what it tells, where it tells that; of a name that it tells to be missing it hands over nothing.
    ensures agrees { Agrees (S.told shelf.old) (S.lacks shelf.old) (S.heard shelf.old) (S.heard shelf.new) }

    // What a shelf tells stays as it was, and no count of faults falls.
    ensures told { S.told shelf.new ≡ S.told shelf.old }
    ensures lacks { S.lacks shelf.new ≡ S.lacks shelf.old }
    ensures never_falls { (name : List ℕ) → fault_count name (S.failed shelf.old) ≤ fault_count name (S.failed shelf.new) }
    ensures faults { K.faults sink.old ≤ K.faults sink.new }

    // What is printed is what each run prints, on whatever shelf, that was handed the same files, by words that ask for the same but for
    // the files' names, the slice, the workers and the turns.
    ensures same_report { (took : List Heard) → S.heard shelf.new ≡ S.heard shelf.old ++ took → (elsewhere : List Heard) (others before after : List (List ℕ)) (end : Ending)
        → AskForOne took elsewhere (map string_bytes words.now) others → Comes elsewhere before after others end
        → HasRead end → result.0 ≢ 5 → result.0 ≢ 6 → result.0 ≢ 8
        → (result.0 ≡ status_of end) × (K.taken sink.new ≡ appended (K.taken sink.old) (text_of end)) }

    // What `prove` wrote for the same domain and problem is accepted.
    ensures passes { (took : List Heard) → S.heard shelf.new ≡ S.heard shelf.old ++ took → (elsewhere : List Heard) (others before after : List (List ℕ)) (text : List ℕ)
        → AskToVerify took elsewhere (map string_bytes words.now) others text → Comes elsewhere before after others (Listing text)
        → result.0 ≢ 5 → result.0 ≢ 6 → result.0 ≢ 8 → result.0 ≡ 0 }

    // Where `plan` tells for the same domain and problem that the horizon is refuted after so many conflicts, `prove` with a budget of
    // as many or more writes the certificate, or tells that it is too long.
    ensures proves_refuted { (took : List Heard) → S.heard shelf.new ≡ S.heard shelf.old ++ took → (elsewhere : List Heard) (others before after : List (List ℕ)) (outcome : Outcome) (text : List ℕ) (horizon conflicts : ℕ)
        → AskToProve took elsewhere (map string_bytes words.now) others horizon conflicts → Comes elsewhere before after others (Report outcome text) → Says text horizon (codes "refuted") conflicts
        → result.0 ≢ 5 → result.0 ≢ 6 → result.0 ≢ 8 → (result.0 ≡ 0) ⊎ ((result.0 ≡ 4) × (K.taken sink.new ≡ appended (K.taken sink.old) (text_of (TooLong Proof)))) }

    // Where it tells that the horizon has a plan, found after so many conflicts, `prove` tells so.
    ensures proves_found { (took : List Heard) → S.heard shelf.new ≡ S.heard shelf.old ++ took → (elsewhere : List Heard) (others before after : List (List ℕ)) (outcome : Outcome) (text : List ℕ) (horizon conflicts : ℕ)
        → AskToProve took elsewhere (map string_bytes words.now) others horizon conflicts → Comes elsewhere before after others (Report outcome text) → Says text horizon (codes "plan") conflicts
        → result.0 ≢ 5 → result.0 ≢ 6 → result.0 ≢ 8 → result.0 ≡ 1 }

    // Each part of a batch is what `plan` has due on the domain and that problem, by the same numbers; the text is the parts' texts under
    // their lines, the status the greatest.
    ensures batch { (took : List Heard) → S.heard shelf.new ≡ S.heard shelf.old ++ took → (domain : List ℕ) (problems : List (List ℕ)) (numbers : Numbers) (turns : Turns)
        → requested (map string_bytes words.now) ≡ Some (batches domain problems numbers turns) → result.0 ≢ 5 → result.0 ≢ 6 → result.0 ≢ 8
        → (parts : List Ending) × IsBatchOf took (S.failed shelf.old) (S.failed shelf.new) domain numbers problems parts
        × (result.0 ≡ greatest (map status_of parts)) × (K.taken sink.new ≡ appended (K.taken sink.old) (parts_text 1 parts)) }

    // What is promised of the text of `plan` holds of each part with a status up to 2.
    ensures parts_are_so { (took : List Heard) → S.heard shelf.new ≡ S.heard shelf.old ++ took → (domain : List ℕ) (problems : List (List ℕ)) (numbers : Numbers) (turns : Turns)
        → requested (map string_bytes words.now) ≡ Some (batches domain problems numbers turns) → result.0 ≢ 5 → result.0 ≢ 6 → result.0 ≢ 8
        → (parts : List Ending) × (first : Heard) × (others : List Heard) × (took ≡ first ∷ others) × ArePartsSo domain numbers first problems others parts
        × (result.0 ≡ greatest (map status_of parts)) × (K.taken sink.new ≡ appended (K.taken sink.old) (parts_text 1 parts)) }

    // The part of a problem is what each run of `plan` prints, on whatever shelf, that was handed the same two files, by the same numbers
    // but for the slice and the workers.
    ensures as_alone { (took : List Heard) → S.heard shelf.new ≡ S.heard shelf.old ++ took → (domain : List ℕ) (problems : List (List ℕ)) (numbers : Numbers) (turns : Turns)
        → requested (map string_bytes words.now) ≡ Some (batches domain problems numbers turns) → result.0 ≢ 5 → result.0 ≢ 6 → result.0 ≢ 8
        → (parts : List Ending) × (result.0 ≡ greatest (map status_of parts)) × (K.taken sink.new ≡ appended (K.taken sink.old) (parts_text 1 parts))
        × ((elsewhere : List Heard) (others before after : List (List ℕ)) (end : Ending) (place : ℕ)
        → AskForOnePart took elsewhere (map string_bytes words.now) place others → Comes elsewhere before after others end
        → HasRead end → slice_get parts place ≡ Some end) }

    // No count of the driver's faults falls, and but for a batch the driver is not touched.
    ensures drives { D.faults driver.old ≤ D.faults driver.new }
    ensures idle { (AskForBatch (map string_bytes words.now) → ⊥) → driver.new ≡ driver.old }

    // Words that are taken and files in order give an answer, where no fault comes from outside.
    ensures complete { (took : List Heard) → S.heard shelf.new ≡ S.heard shelf.old ++ took → (well : GoesWell (map string_bytes words.now) took (S.failed shelf.old) (S.failed shelf.new))
        → (Rose (K.faults sink.old) (K.faults sink.new) → ⊥) → (result.0 ≡ 8) ⊎ ((end : Ending) × (result.0 ≡ status_of end) × IsGood well.request end × (K.taken sink.new ≡ appended (K.taken sink.old) (text_of end))) }
{
    laws();
    finish(alloc, decide(rt, alloc, words, shelf, gate, driver), sink)
}
