// What steers turns.
use crate::pacing::Pace;

/// What steers the turns of a machine: the passes with which the gate is asked, and the pace.
///
/// In a slice each actor asks with the pass at its place: the timer comes first, then the harts by their numbers, and further ones are
/// left alone. Before each turn, and in a turn of one thread, the gate is asked with the first one.
#[derive(Drop)]
pub struct Steering<Q> {
    pub passes: Vec<Q>,
    pub pace: Pace,
}
