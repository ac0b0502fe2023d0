//! What certificates are good for, as a contract.

ghost use Rattle.never_laws.specs.Plans.{ForwardCertificateHasNoPlan, BackwardCertificateHasNoPlan, CertifiedWeightsHaveNoPlan, ExcludedGoalHasNoPlan};

/// The laws of certificates, for calls of the files. It does nothing.
pub fn laws()
    ensures forward { ForwardCertificateHasNoPlan }
    ensures backward { BackwardCertificateHasNoPlan }
    ensures weights { CertifiedWeightsHaveNoPlan }
    ensures excluded { ExcludedGoalHasNoPlan }
{
    never_defs::laws::laws();
    two_invariants::laws::laws();
    search_laws::laws::laws();
}
