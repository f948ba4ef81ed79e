use token_bucket::State;

/// What a gate has to keep of its past: the saved form of each bucket that it has.
#[derive(Clone, Copy)]
pub struct GateState {
    pub bandwidth: Option<State>,
    pub ops: Option<State>,
}
