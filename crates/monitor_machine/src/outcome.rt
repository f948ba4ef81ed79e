// How a request went.

/// How a request went: answered by the machine; answered 500 because a call on the files failed; or answered 503 for
/// want of memory, and then nothing has changed. The run goes on after each.
#[derive(Clone, Copy, Drop)]
pub enum Outcome {
    Answered,
    Failed,
    NoMemory,
}
