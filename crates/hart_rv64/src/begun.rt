// An instruction between its fetch and the reply that ends it.

use rv_rows::Effect;

/// An instruction that is begun: its word, and what it does, so that a word is decoded once.
#[derive(Clone, Copy, Drop)]
pub struct Begun {
    pub effect: Effect,
    pub word: u32,
}
