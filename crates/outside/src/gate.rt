// The gate that workers pass.

/// What a worker passes before each piece of work that it has claimed. It is shared by threads, and
/// has no effect on any answer.
pub trait Gate: Sync {
    /// Called once for each claimed piece, before the piece is computed. Pieces count from 0.
    fn pass(&self, piece: usize);
}

/// The gate that is always open.
#[derive(Clone, Copy, Debug)]
pub struct OpenGate;

impl Gate for OpenGate {
    fn pass(&self, _piece: usize) {}
}
