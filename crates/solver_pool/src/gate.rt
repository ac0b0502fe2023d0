// What is told when a run enters and leaves its turn.

/// Is told of each turn: of the run's key before it is advanced, and again after. It promises nothing, so no answer
/// of the pool depends on it. Tests see by it that two runs are at work at once.
pub trait Gate: Sync {
    /// The run of this key is about to be advanced.
    fn enter(&self, horizon: u32);

    /// The run of this key was advanced.
    fn leave(&self, horizon: u32);
}

/// A gate that does nothing.
pub struct OpenGate;

impl Gate for OpenGate {
    fn enter(&self, _horizon: u32) {}

    fn leave(&self, _horizon: u32) {}
}
