//! What holds of clauses that are written, as a contract.

ghost use Rattle.never_text.specs.Laws.{SortedIsAsRead, WrittenIsRead};

/// The laws of written clauses. It does nothing.
pub fn laws()
    ensures written { WrittenIsRead }
    ensures sorted { SortedIsAsRead }
{}
