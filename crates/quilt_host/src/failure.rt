/// Why a call of the system failed, as far as the program asks.
#[derive(Clone, Copy, Debug, PartialEq, Eq)]
pub enum Failure {
    /// A signal came before anything was done.
    Interrupted,
    /// There is no file of that path.
    Missing,
    /// There is a file of that path.
    Taken,
    /// It is not permitted.
    Forbidden,
    /// A word is no text.
    NotText,
    /// Memory was refused.
    Memory,
    /// Anything else.
    Other,
}
