//! What sets of clauses and weights are good for, as a contract.

ghost use Rattle.never_defs.specs.Laws.{ForwardCertificatesHold, BackwardCertificatesHold, CertifiedWeightsHold, ForwardSetHasNoRun, BackwardSetHasNoRun, WeightsHaveNoRun, NothingIsNeeded, RefutedNeverHolds};

/// The laws of sets of clauses and of weights. It does nothing.
pub fn laws()
    ensures forward { ForwardCertificatesHold }
    ensures backward { BackwardCertificatesHold }
    ensures weights { CertifiedWeightsHold }
    ensures forward_set { ForwardSetHasNoRun }
    ensures backward_set { BackwardSetHasNoRun }
    ensures weights_set { WeightsHaveNoRun }
    ensures nothing { NothingIsNeeded }
    ensures refuted { RefutedNeverHolds }
{}
