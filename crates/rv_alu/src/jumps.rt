// Jumps and taken branches.
ghost use Rattle.std.specs.Prelude.{◌≡◌, ◌/◌, ◌*◌, if◌then◌else◌};
ghost use Rattle.rv_rows.specs.declared.effect.Effect.{Effect};
ghost use Rattle.rv_rows.specs.Effects.{transfer, jump};

use rv_rows::{Effect, Exception, Register};

/// An address with its lowest bit cleared.
#[inline]
pub fn even(address: u64) -> u64
    ensures { result ≡ address / 2 * 2 }
{
    address & !1
}

/// Where the target isn't a multiple of 4, the jump traps.
#[inline]
fn transfer(target: u64, effect: Effect) -> Effect
    ensures { result ≡ transfer target effect }
{
    if target % 4 == 0 {
        effect
    } else {
        Effect::Trap {
            exception: Exception::InstructionMisaligned,
            value: target,
        }
    }
}

#[inline]
pub fn jump(rd: Register, pc: u64, target: u64) -> Effect
    ensures { result ≡ jump rd pc target }
{
    let link = pc.wrapping_add(4);
    transfer(target, Effect::Jump { rd, link, target })
}

#[inline]
pub fn branch(is_taken: bool, target: u64) -> Effect
    ensures { result ≡ (if is_taken then transfer target (Effect.Branch target) else Effect.Nothing) }
{
    if is_taken {
        transfer(target, Effect::Branch { target })
    } else {
        Effect::Nothing
    }
}
