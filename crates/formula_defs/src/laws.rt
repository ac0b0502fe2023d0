//! What codes keep of clauses, as a contract.

ghost use Rattle.formula_defs.specs.own.Laws.{CodesSayEnough, CodesSayNoMore};

/// The laws of codes. It does nothing.
pub fn laws()
    ensures enough { CodesSayEnough }
    ensures no_more { CodesSayNoMore }
{}
