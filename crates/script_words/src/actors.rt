// Who a line names.
ghost use Rattle.std.specs.Prelude.{◌≡◌, codes};
ghost use Rattle.script_words.specs.Actors.{actor_of, hart_of};

use crate::number::numbered_8;
use crate::words::is_line;
use vm_types::ActorId;

/// The number of the hart `hK`.
pub fn hart_from(word: &[u8]) -> Option<u8>
    ensures { result ≡ hart_of word.now }
{
    numbered_8(b"h", word)
}

/// The actor `t`, `hK` or `dK`.
pub fn actor_from(word: &[u8]) -> Option<ActorId>
    ensures { result ≡ actor_of word.now }
{
    if is_line(b"t", word) {
        return Some(ActorId::Timer);
    }
    if let Some(hart) = hart_from(word) {
        return Some(ActorId::Hart(hart));
    }
    Some(ActorId::Device(numbered_8(b"d", word)?))
}
