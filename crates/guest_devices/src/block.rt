// A block device as a device of a guest.
ghost use Rattle.std.specs.Prelude.{◌≡◌, ◌^◌, true, nat_lt};
ghost use Rattle.device_trace.specs.States.{changed_at};
ghost use Rattle.block_device.specs.Block.{block_rules};
ghost use Rattle.block_device.specs.States.{block_left};
ghost use Rattle.guest_devices.specs.declared.device.Device.{Device};
ghost use Rattle.guest_devices.specs.declared.device.Device.TheVariants as device;
ghost use Rattle.guest_devices.specs.declared.new_device.NewDevice.{NewDevice};
ghost use Rattle.guest_devices.specs.declared.new_device.NewDevice.TheVariants as starts;
ghost use Rattle.guest_devices.specs.Devices.{device_changed, device_next, device_wants, new_left};
ghost use Rattle.guest_devices.specs.Kept.{are_short, device_left, device_port, is_kept, is_short, is_sized, kept_of};

use crate::change::DeviceChange;
use crate::drive::NewDrive;
use block_device::{Block, BlockChange, BlockData, BlockKind, new_block_device};
use queue_device::{QueueRounds, Rounds, TakenChain};
use vm_types::{Actor, Op, Reply};

/// The block device of this port that has done nothing, in a guest of so many pages.
pub fn new_block(port: u8, pages: u32, drive: &NewDrive) -> Block
    ensures { (what : NewDevice) → what ≡ starts.Block drive.now → device_left (device.Block result) ≡ new_left port pages what }
{
    let facts = BlockData {
        sectors: drive.sectors,
        drive_id: drive.drive_id,
        is_read_only: drive.is_read_only,
        limits: drive.limits.again(),
    };
    new_block_device(port, pages, facts)
}

/// What it wants.
pub fn want_of_block(block: &Block) -> Op
    ensures { (it : Device) → it ≡ device.Block block.now → result ≡ device_wants (device_left it) }
{
    block.want()
}

/// It is given its reply.
pub fn give_block(block: &mut Block, reply: Reply)
    ensures { (it after : Device) → it ≡ device.Block block.old → after ≡ device.Block block.new →
        device_left after ≡ device_next (device_left it) reply }
{
    block.give(reply);
}

fn change_block(block: &mut Block, change: BlockChange)
    ensures { block_left block.new ≡ changed_at block_rules change (block_left block.old) }
{
    block.change(change);
}

/// It is told of a change, if that is one of a block device.
pub fn tell_block(block: &mut Block, change: DeviceChange)
    ensures { (it after : Device) → it ≡ device.Block block.old → after ≡ device.Block block.new →
        device_left after ≡ device_changed change (device_left it) }
{
    match change {
        DeviceChange::Block(change) => change_block(block, change),
        DeviceChange::Net(_) => {}
        DeviceChange::Balloon(_) => {}
    }
}

// A chain that waits is no longer than its types let it be.
fn waits_short(waiting: &Option<TakenChain>)
    ensures { is_short waiting.now ≡ true }
{
    if let Some(chain) = waiting {
        let _parts = chain.parts().as_slice().len();
        let got = chain.got();
        let _more = got.from.parts().len();
        let _bytes = got.held.as_slice().len();
    }
}

// And rounds have the sizes of their types.
pub(crate) fn rounds_sized(rounds: &Rounds)
    ensures pages { nat_lt rounds.now.pages (2 ^ 32) ≡ true }
    ensures short { are_short rounds.now ≡ true }
{
    let _pages = rounds.pages;
    waits_short(&rounds.first.waiting);
    waits_short(&rounds.second.waiting);
    waits_short(&rounds.third.waiting);
}

// So have the data of a block device.
fn has_sizes(state: &QueueRounds<BlockKind>)
    ensures { is_sized (kept_of (device.Block state.now)) ≡ true }
{
    let _sectors = state.kind.facts.sectors;
    rounds_sized(&state.rounds);
}

/// What it keeps, which may be kept.
fn kept_block(block: &Block) -> &QueueRounds<BlockKind>
    ensures state { result.now ≡ block.now }
    ensures kept { (it : Device) → it ≡ device.Block block.now → is_kept it ≡ true }
{
    let kept = block.state();
    has_sizes(kept);
    kept
}

/// A block device that keeps the same.
pub fn block_again(block: &Block) -> Block
    ensures block { result ≡ block.now }
    ensures kept { (it : Device) → it ≡ device.Block block.now → is_kept it ≡ true }
{
    let _kept = kept_block(block);
    block.again()
}

/// The number of its port.
pub fn port_of_block(block: &Block) -> u8
    ensures port { result ≡ device_port (device.Block block.now) }
    ensures kept { (it : Device) → it ≡ device.Block block.now → is_kept it ≡ true }
{
    kept_block(block).rounds.port
}
