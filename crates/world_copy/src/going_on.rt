// The world that goes on from a copy.
ghost use Rattle.std.specs.Prelude.{◌≡◌, ◌≤◌, ◌*◌, true, false, IsTrue, IfOk, length, replicate};
ghost use Rattle.std.specs.List.{list_all};
ghost use Rattle.guest_memory.specs.Ram.{page_size};
ghost use Rattle.guest_memory.specs.Reserved.{unreserved};
ghost use Rattle.guest_pages.specs.Pages.{flat_of, marks_of};
ghost use Rattle.hart_trace.specs.States.{LeadsTo};
ghost use Rattle.snap_harts.specs.declared.hart.HartPlace.TheVariants.{Access};
ghost use Rattle.snap_harts.specs.Copy.{hart_of, regs_of};
ghost use Rattle.snap_state.specs.Copy.{board_at};
ghost use Rattle.snap_state.specs.Sections.{entropy_in};
ghost use Rattle.snap_state.specs.Valid.{asks, is_board, is_hart, is_valid};
ghost use Rattle.flat_snapshot.specs.Carried.{carried_guest, steps_at};
ghost use Rattle.vm_world.specs.Worlds.{IsWorld};
ghost use Rattle.world_copy.specs.GoingOn.{GoOn};

use crate::attached::{devices_of, ports_of};
use api_calls::Entropy;
use board_table::HartState;
use guest_pages::PageSet;
use hart_rv64::Hart;
use line_board::{Board, HartParts};
use reservation_copy::reserve;
use snap_harts::{HartPlace, SavedHart, SavedHartState};
use snap_state::{Configuration, SavedBoard, StateCopy, entropy_in};
use std::alloc::{AllocError, Global};
use vm_world::World;

// A hart where its copy has it, and where the steps of one that goes on lead.
fn hart_of(saved: &SavedHart) -> Hart
    requires { asks saved.now.place (regs_of saved.now) ≡ true }
    ensures same { result ≡ hart_of saved.now }
    ensures leads { LeadsTo (regs_of saved.now) (steps_at saved.now.place saved.now.pc) result }
{
    match saved.place {
        HartPlace::Access(word) => begun_hart(saved, word),
        _ => Hart::with_regs(saved.regs()),
    }
}

// A hart that has begun the instruction of this word.
fn begun_hart(saved: &SavedHart, word: u32) -> Hart
    requires place { saved.now.place ≡ Access word }
    requires asks { asks (Access word) (regs_of saved.now) ≡ true }
    ensures same { result ≡ hart_of saved.now }
    ensures leads { LeadsTo (regs_of saved.now) (steps_at saved.now.place saved.now.pc) result }
{
    Hart::from_parts(saved.regs(), Some(word))
}

fn harts_of(alloc: Global, pages: u32, saved: &[SavedHart]) -> Result<Vec<Hart>, AllocError>
    requires { list_all (is_hart pages) saved.now ≡ true }
    ensures { IfOk result (λ harts. GoOn saved.now harts.items) }
{
    let mut harts = Vec::new(alloc);
    for hart in saved {
        harts.push(hart_of(hart))?;
    }
    Ok(harts)
}

fn states_of(alloc: Global, saved: &[SavedHartState]) -> Result<Vec<HartState>, AllocError>
    ensures { IfOk result (λ states. states.items ≡ saved.now) }
{
    let mut states = Vec::new(alloc);
    for state in saved {
        states.push(state.state)?;
    }
    Ok(states)
}

fn board_of(alloc: Global, harts: u64, now: u64, saved: SavedBoard) -> Result<Board, AllocError>
    requires valid { is_board harts saved ≡ true }
    requires few { harts ≤ 32 }
    ensures { IfOk result (λ board. board ≡ board_at now saved) }
{
    let states = states_of(alloc, saved.states.as_slice())?;
    let parts = HartParts {
        enables: saved.enables.into_vec(),
        software: saved.software.into_vec(),
        deadlines: saved.deadlines.into_vec(),
        states,
    };
    let board = Board::from_parts(alloc, saved.console.as_slice(), now, saved.pending, parts)?;
    Ok(board)
}

/// The world that goes on from a copy, and what was configured.
#[derive(Drop)]
pub struct Carried {
    pub world: World,
    pub configuration: Configuration,
    pub entropy: Option<Entropy>,
}

/// The world that goes on from a copy, whose memory has these bytes. Nothing is reserved in the pages yet, and none is
/// marked. The copy's ports and devices are the world's.
pub fn world_of(alloc: Global, copy: StateCopy, pages: PageSet) -> Result<Carried, AllocError>
    requires valid { IsTrue (is_valid copy) }
    requires count { length pages.pages ≡ copy.pages }
    requires free { (flat_of pages.pages).reserved ≡ unreserved copy.pages }
    requires unmarked { marks_of pages.pages ≡ replicate copy.pages false }
    ensures world { IfOk result (λ it. IsWorld it.world (carried_guest copy (flat_of pages.pages).bytes)) }
    ensures configuration { IfOk result (λ it. it.configuration ≡ copy.configuration) }
    ensures entropy { IfOk result (λ it. it.entropy ≡ entropy_in copy.sections) }
    ensures whole { length (flat_of pages.pages).bytes ≡ page_size * copy.pages }
{
    let mut pages = pages;
    // Their bytes are so many whole pages.
    let _size = pages.len();
    let count = copy.configuration.machine.vcpu_count;
    let harts = harts_of(alloc, copy.pages, copy.harts.as_slice())?;
    let entropy = entropy_in(copy.sections.as_slice());
    let reservations = copy.reservations.as_slice();
    pages.reserve_for(alloc, reservations.len() as u64)?;
    reserve(&mut pages, count, reservations);
    let board = board_of(alloc, count, copy.guest_time, copy.board)?;
    let ports = ports_of(alloc, copy.ports.into_vec())?;
    let devices = devices_of(alloc, copy.devices.into_vec())?;
    Ok(Carried {
        world: World::from_parts(pages, board, harts, ports, devices),
        configuration: copy.configuration,
        entropy,
    })
}
