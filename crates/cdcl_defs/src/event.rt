ghost use Rattle.std.specs.Prelude.{◌≡◌};
ghost use Rattle.cdcl_defs.specs.Run.{is_conflict};

use clause_base::literal::Lit;

/// What a solver does next.
#[derive(Clone, Copy)]
pub enum Event {
    /// All literals of the clause with this number are false.
    Conflict(u32),
    /// The clause with this number has one literal that is not false, and this is it.
    Force(Lit, u32),
    /// The chooser decides for this literal.
    Decide(Lit),
    /// Every variable has a value, and every clause a true literal.
    Finish,
}

impl Event {
    /// Whether it is a conflict.
    pub fn is_conflict(&self) -> bool
        ensures { result ≡ is_conflict self.now }
    {
        matches!(self, Event::Conflict(_))
    }
}
