/// What is told that the work on a quadrant begins.
pub trait Gate {
    /// Is called once for each quadrant, at the start of the work on it. The quadrants have the numbers 0 to 3, in the order
    /// of their codes.
    fn pass(&self, quadrant: u8);
}

/// A gate that does nothing.
#[derive(Clone, Copy, Debug)]
pub struct NoGate;

impl Gate for NoGate {
    fn pass(&self, _quadrant: u8) {}
}
