// Whether a hart runs.

/// The state of a hart as the board keeps it (SBI, "Hart State Management Extension").
#[derive(Clone, Copy, Drop)]
pub enum HartState {
    Started,
    Stopped,
    /// It was asked to start, at `pc` with `word` in a1, and does so at its next look.
    StartPending { pc: u64, word: u64 },
}
