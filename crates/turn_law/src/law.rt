// The laws.
ghost use Rattle.turn_law.specs.Rounds.{ToldIsRun, ToldIsStamped};

use turn_table::Fed;
use vm_types::Actor;

/// The journals of a round are a run of the machine in the order of their stamps, from how the places stood when it began to how they
/// stand when it ends, if the seat with all parts is told what happened, has the entries of these journals, each once and in any order,
/// and each journal follows its actor's wants.
pub fn told_is_run<P: Fed, A: Actor>()
    ensures { ToldIsRun P.touch P.value P.made A.wants A.next }
{}

/// In that order each stamp is one more than the larger of the last stamps before it of its actor and of its place, if those of each
/// journal are so behind what its entries found.
pub fn told_is_stamped<P: Fed>()
    ensures { ToldIsStamped P.touch P.value P.made }
{}
