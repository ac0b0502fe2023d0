//! What makes grounding useful, as a contract.

ghost use Rattle.grounding_defs.specs.Laws.{LeastIsClosed, CallsAreActions, ActionsAreCalls, AtomsAreKnown, GoalsAgree, OneResult, SoundIsLeast, LeastIsGrounded, GroundedIsTask, GroundedIsWithin};

/// The laws of grounding. It does nothing.
pub fn laws()
    ensures least_is_closed { LeastIsClosed }
    ensures calls_are_actions { CallsAreActions }
    ensures actions_are_calls { ActionsAreCalls }
    ensures atoms_are_known { AtomsAreKnown }
    ensures goals_agree { GoalsAgree }
    ensures one_result { OneResult }
    ensures sound_is_least { SoundIsLeast }
    ensures least_is_grounded { LeastIsGrounded }
    ensures grounded_is_within { GroundedIsWithin }
    ensures grounded_is_task { GroundedIsTask }
{}
