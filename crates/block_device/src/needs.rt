// How many bytes of data a request has, and what it needs of its limit.
ghost use Rattle.std.specs.Prelude.{◌≡◌, ◌≤◌, ◌+◌, ◌-◌, ◌^◌, length};
ghost use Rattle.dev_core.specs.Pieces.{total};
ghost use Rattle.queue_device.specs.Chains.{got_of};
ghost use Rattle.block_device.specs.Block.{headed, need_of};

use crate::service::KIND_OUT;
use dev_core::{Collect, total};
use queue_device::TakenChain;
use vq_split::{Part, value32};

/// The writable bytes before the status.
pub fn data_in(parts: &[Part]) -> u64
    requires { length parts.now ≤ 256 }
    ensures bytes { result ≡ total parts.now - 1 }
    ensures most { result ≤ 2 ^ 40 }
{
    total(parts).saturating_sub(1)
}

/// The readable bytes behind the header, of which this is held or left to be read.
pub fn data_out(from: &Collect) -> u64
    ensures bytes { result ≡ length from.now.held + total from.now.from - 16 }
    ensures most { result ≤ 2 ^ 41 }
{
    let rest = total(from.from.parts());
    (from.held.as_slice().len() as u64 + rest).saturating_sub(16)
}

fn need_of(parts: &[Part], from: &Collect) -> u64
    requires { length parts.now ≤ 256 }
    ensures { result ≡ need_of (headed parts.now (got_of from.now)) }
{
    let bytes = from.held.as_slice();
    if bytes.len() < 16 {
        0
    } else if value32(bytes, 0) == KIND_OUT {
        data_out(from)
    } else {
        data_in(parts)
    }
}

/// The bytes that the request of a chain needs of its limit.
#[tactic(auto, using(crate::proofs::Passing::need_is))]
pub fn need(chain: &TakenChain) -> u64
    ensures { result ≡ need_of (headed chain.now.parts chain.now.got) }
{
    need_of(chain.parts().as_slice(), chain.got())
}
