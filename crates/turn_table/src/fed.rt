// A place that is made from memory which was taken before.
ghost use Rattle.std.specs.Prelude.{◌≡◌, ◌<◌, ◌⊎◌};
ghost use Rattle.turn_table.specs.Blanks.{IsOneAtMost};

use vm_types::{ActorId, Op, Reply};

/// A place that an act may have to make first, from a pool of blanks. It is no `Place`, which acts without one.
pub trait Fed: Drop {
    ghost use Rattle.std.specs.Prelude.{ℕ};
    ghost use Rattle.vm_types.specs.declared.ids.ActorId.{ActorId};
    ghost use Rattle.vm_types.specs.declared.op.Op.{Op};
    ghost use Rattle.vm_types.specs.declared.reply.Reply.{Reply};

    type Pool;

    ghost Value: { Type 0 };

    ghost value: { Self → Self.Value };

    ghost touch: { Self.Value → ActorId → Op → Reply × Self.Value };

    /// The place is made: an act on it takes no blank.
    ghost made: { Self → Type 0 };

    /// How many blanks there are.
    ghost blanks: { Self.Pool → ℕ };

    /// The act of this actor. It takes one blank at most, none if the place is made, and no other memory. A place that is made stays
    /// so, and one that took a blank is made.
    fn act_fed(&mut self, pool: &mut Self::Pool, actor: ActorId, op: &Op) -> Reply
        requires fed { made self.old ⊎ (0 < blanks pool.old) }
        ensures reply { result ≡ (touch (value self.old) actor op.now).0 }
        ensures value { value self.new ≡ (touch (value self.old) actor op.now).1 }
        ensures stays { made self.old → made self.new }
        ensures spent { blanks pool.new < blanks pool.old → made self.new }
        ensures one { IsOneAtMost (blanks pool.old) (blanks pool.new) }
        ensures none { made self.old → blanks pool.new ≡ blanks pool.old };
}
