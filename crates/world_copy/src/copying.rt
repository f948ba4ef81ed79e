// The copy of a world.
ghost use Rattle.std.specs.Prelude.{◌≡◌, ◌≤◌, IsTrue, IfOk, length, map};
ghost use Rattle.flat_guest.specs.Changes.{reset_guest};
ghost use Rattle.flat_guest.specs.Guest.{Guest};
ghost use Rattle.snap_harts.specs.Copy.{saved_hart};
ghost use Rattle.snap_state.specs.Copy.{saved_board};
ghost use Rattle.snap_state.specs.Valid.{is_valid};
ghost use Rattle.flat_snapshot.specs.Copies.{IsCopyOf};
ghost use Rattle.vm_world.specs.Worlds.{IsWorld};
ghost use Rattle.world_copy.specs.Copying.{AreCounted, IsCopyIn};
ghost use Rattle.world_copy.specs.Ready.{IsReadyWorld};

use crate::attached::{devices_kept, ports_kept};
use crate::configuring::configuration_of;
use board_table::HartState;
use file_format::Items;
use hart_rv64::Hart;
use line_board::Board;
use reservation_copy::reservations_of;
use snap_harts::{SavedHart, SavedHartState};
use snap_state::{SavedBoard, StateCopy, sections_of};
use std::alloc::{AllocError, Global};
use vm_config::Config;
use vm_types::ByteList;
use vm_world::World;

fn hart_copy(hart: &Hart) -> SavedHart
    requires { hart.now.regs.count ≤ 32 }
    ensures { result ≡ saved_hart hart.now }
{
    SavedHart::new(hart.regs(), hart.begun())
}

fn hart_copies(alloc: Global, harts: &[Hart]) -> Result<Items<SavedHart>, AllocError>
    requires { AreCounted harts.now }
    ensures { IfOk result (λ copies. copies ≡ map saved_hart harts.now) }
{
    let mut copies = Items::new(alloc);
    for hart in harts {
        copies.push(hart_copy(hart))?;
    }
    Ok(copies)
}

fn items_of<T: Copy + Drop>(alloc: Global, values: &[T]) -> Result<Items<T>, AllocError>
    ensures { IfOk result (λ items. items ≡ values.now) }
{
    let mut items = Items::new(alloc);
    for value in values {
        items.push(*value)?;
    }
    Ok(items)
}

fn states_of(alloc: Global, states: &[HartState]) -> Result<Items<SavedHartState>, AllocError>
    ensures { IfOk result (λ items. items ≡ states.now) }
{
    let mut items = Items::new(alloc);
    for state in states {
        items.push(SavedHartState { state: *state })?;
    }
    Ok(items)
}

fn board_copy(alloc: Global, board: &Board) -> Result<SavedBoard, AllocError>
    ensures { IfOk result (λ copy. copy ≡ saved_board board.now) }
{
    let enables = items_of(alloc, board.enables())?;
    let software = items_of(alloc, board.software())?;
    let deadlines = items_of(alloc, board.deadlines())?;
    let states = states_of(alloc, board.states())?;
    let console = ByteList::copy_of(alloc, board.console())?;
    Ok(SavedBoard {
        pending: board.pending(),
        enables,
        software,
        deadlines,
        states,
        console,
    })
}

// The copy with these harts.
fn copy_with(
    alloc: Global,
    config: &Config,
    world: &World,
    harts: Items<SavedHart>,
) -> Result<StateCopy, AllocError>
    requires { harts ≡ map saved_hart world.now.harts }
    ensures copied { IfOk result (λ copy. IsCopyIn config.now world.now copy) }
    ensures pages { IfOk result (λ copy. copy.pages ≡ length world.now.pages) }
{
    let configuration = configuration_of(alloc, config)?;
    let board = board_copy(alloc, world.board())?;
    let ports = ports_kept(alloc, world.ports())?;
    let sections = sections_of(alloc, ports.as_slice(), config.entropy)?;
    let devices = devices_kept(alloc, world.devices())?;
    let reservations = reservations_of(alloc, world.pages())?;
    Ok(StateCopy {
        configuration,
        pages: world.pages().len() as u32,
        track_dirty_pages: config.machine.track_dirty_pages,
        guest_time: world.board().now(),
        board,
        harts,
        ports,
        devices,
        reservations,
        sections,
    })
}

/// The copy of a world of a machine that is configured so, as it is behind the Reset that comes before a create; the world
/// itself isn't reset. It is one that a state file can have, as each copy of a ready world is.
pub fn copy_world(alloc: Global, config: &Config, world: &World) -> Result<StateCopy, AllocError>
    requires { IsReadyWorld config.now world.now }
    ensures copied { IfOk result (λ copy. (g : Guest) → IsWorld world.now g → IsCopyOf config.now (reset_guest g) copy) }
    ensures valid { IfOk result (λ copy. IsTrue (is_valid copy)) }
    ensures pages { IfOk result (λ copy. copy.pages ≡ length world.now.pages) }
{
    let harts = hart_copies(alloc, world.harts())?;
    let copy = copy_with(alloc, config, world, harts)?;
    Ok(copy)
}
