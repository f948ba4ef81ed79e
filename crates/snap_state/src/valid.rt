// Which copies there are.
ghost use Rattle.std.specs.Prelude.{◌≡◌, ◌==◌, ◌&&◌, ◌≤◌, Option, List, ℕ, length, nat_le};
ghost use Rattle.std.specs.List.{list_all};
ghost use Rattle.std.specs.Option.{option_copied};
ghost use Rattle.api_calls.specs.Form.{has_path_bytes, is_path, is_short_text};
ghost use Rattle.snap_state.specs.Valid.{are_paths, is_source, is_machine, is_board, is_counted, is_aligned};
ghost use Rattle.snap_state.specs.Valid.{has_bits, is_granule, asks, is_placed, is_hart, is_reserved};
ghost use Rattle.snap_state.specs.Valid.{is_before, is_rising, has_machine, has_devices, is_valid};
ghost use Rattle.snap_harts.specs.Copy.{regs_of};

use crate::attached::{are_devices, are_drives, are_interfaces, are_timely, has_room};
use crate::balloon::holds_balloon;
use crate::board::SavedBoard;
use crate::configuration::BootSource;
use crate::copy::{Reservation, StateCopy};
use crate::entropy::holds_entropy;
use crate::kinds::{are_device_kinds, are_ports};
use crate::mmds::holds_mmds;
use crate::sections::{are_sections, entropy_in};
use crate::vsock::holds_vsock;
use api_calls::MachineConfig;
use board_table::RING_SIZE;
use guest_memory::{PAGE_SIZE, RAM_START, is_ram};
use rv_doing::{effect_of_word, wanted};
use rv_supervisor::{HartCsr, INTERRUPTS, Regs, csr_value};
use snap_harts::{HartPlace, SavedHart};
use vm_types::TextList;

fn has_path_bytes(text: &str) -> bool
    ensures { result ≡ has_path_bytes text.now }
{
    let bytes = text.as_bytes();
    0 < bytes.len() && bytes.len() <= 4095 && !bytes.contains(&0)
}

fn is_within(most: usize, text: &str) -> bool
    ensures { result ≡ nat_le (length text.now) most }
{
    text.len() <= most
}

pub(crate) fn is_short_text(most: usize, text: &str) -> bool
    ensures { result ≡ is_short_text most text.now }
{
    is_within(most, text)
}

/// Whether this is the name of a file: 1 to 4,095 bytes of UTF-8 without a NUL.
pub fn is_path(path: &str) -> bool
    ensures { result ≡ is_path path.now }
{
    has_path_bytes(path)
}

fn are_paths(path: &Option<TextList>) -> bool
    ensures { result ≡ are_paths path.now }
{
    match path {
        None => true,
        Some(path) => is_path(path.as_str()),
    }
}

fn is_source(source: &BootSource) -> bool
    ensures { result ≡ is_source source.now }
{
    is_path(source.kernel_image_path.as_str())
        && are_paths(&source.initrd_path)
        && is_short_text(2048, source.boot_args.as_str())
}

fn is_machine(machine: &MachineConfig) -> bool
    ensures { result ≡ is_machine machine.now }
{
    1 <= machine.vcpu_count
        && machine.vcpu_count <= 32
        && 4 <= machine.mem_size_mib
        && machine.mem_size_mib <= 4096
}

fn is_board(harts: u64, board: &SavedBoard) -> bool
    ensures { result ≡ is_board harts board.now }
{
    board.enables.as_slice().len() as u64 == harts
        && board.software.as_slice().len() as u64 == harts
        && board.deadlines.as_slice().len() as u64 == harts
        && board.states.as_slice().len() as u64 == harts
        && board.console.as_slice().len() <= RING_SIZE
}

fn is_counted(hart: &SavedHart) -> bool
    ensures { result ≡ is_counted hart.now }
{
    1 <= hart.count && hart.count <= 32
}

fn is_aligned(hart: &SavedHart) -> bool
    ensures { result ≡ is_aligned hart.now }
{
    hart.pc % 4 == 0 && hart.sepc % 4 == 0 && hart.stvec % 4 == 0
}

fn has_bits(hart: &SavedHart, regs: &Regs) -> bool
    requires { regs.now ≡ regs_of hart.now }
    ensures { result ≡ has_bits hart.now }
{
    hart.sie & INTERRUPTS == hart.sie && csr_value(HartCsr::Sstatus, regs) == hart.sstatus
}

fn is_granule(pages: u32, held: Option<u64>) -> bool
    ensures { result ≡ is_granule pages held }
{
    match held {
        None => true,
        Some(held) => held % 8 == 0 && is_ram(PAGE_SIZE * pages as usize, held, 8),
    }
}

fn asks(place: HartPlace, regs: &Regs) -> bool
    ensures { result ≡ asks place regs.now }
{
    match place {
        HartPlace::Access(word) => {
            RAM_START <= regs.pc && wanted(effect_of_word(word, regs), word, regs).is_some()
        }
        _ => true,
    }
}

fn is_placed(is_look_due: bool, place: HartPlace) -> bool
    ensures { result ≡ is_placed is_look_due place }
{
    match place {
        HartPlace::Begin => true,
        HartPlace::BeginWaiting => is_look_due,
        _ => !is_look_due,
    }
}

fn is_hart(pages: u32, hart: &SavedHart) -> bool
    ensures { result ≡ is_hart pages hart.now }
{
    let regs = hart.regs();
    is_counted(hart)
        && is_aligned(hart)
        && has_bits(hart, &regs)
        && is_granule(pages, hart.held)
        && is_placed(hart.is_look_due, hart.place)
        && asks(hart.place, &regs)
}

fn are_harts(pages: u32, harts: &[SavedHart]) -> bool
    ensures { result ≡ list_all (is_hart pages) harts.now }
{
    harts.iter().all(|h| is_hart(pages, h))
}

fn is_reserved(pages: u32, harts: u64, reservation: &Reservation) -> bool
    ensures { result ≡ is_reserved pages harts reservation.now }
{
    reservation.page < pages
        && (reservation.hart as u64) < harts
        && reservation.offset < 4096
        && reservation.offset % 8 == 0
}

fn are_reserved(pages: u32, harts: u64, reservations: &[Reservation]) -> bool
    ensures { result ≡ list_all (is_reserved pages harts) reservations.now }
{
    reservations.iter().all(|r| is_reserved(pages, harts, r))
}

fn is_before(a: &Reservation, b: &Reservation) -> bool
    ensures { result ≡ is_before a.now b.now }
{
    a.page < b.page || a.page == b.page && a.hart < b.hart
}

fn is_rising(reservations: &[Reservation]) -> bool
    ensures { result ≡ is_rising reservations.now }
{
    let Some((first, others)) = reservations.split_first() else {
        return true;
    };
    let mut last = first;
    for next in others {
        if !is_before(last, next) {
            return false;
        }
        last = next;
    }
    true
}

fn has_machine(copy: &StateCopy, machine: &MachineConfig) -> bool
    ensures { result ≡ has_machine copy.now machine.now }
{
    is_machine(machine)
        && copy.pages as u64 == 256 * machine.mem_size_mib
        && copy.track_dirty_pages == machine.track_dirty_pages
}

// A port and a device of each kind that is configured.
fn has_devices(copy: &StateCopy) -> bool
    ensures { result ≡ has_devices copy.now }
{
    let devices = copy.devices.as_slice();
    let entropy = entropy_in(copy.sections.as_slice());
    are_ports(&copy.configuration, &entropy, copy.ports.as_slice())
        && are_device_kinds(&copy.configuration, &entropy, devices)
        && are_devices(copy.pages, devices)
}

/// Whether there is such a copy: what the fields are besides fitting their places.
#[tactic(auto, unfolding(crate::specs::Valid::is_valid))]
pub fn is_valid(copy: &StateCopy) -> bool
    ensures { result ≡ is_valid copy.now }
{
    let machine = &copy.configuration.machine;
    let harts = machine.vcpu_count;
    let entropy = entropy_in(copy.sections.as_slice());
    is_source(&copy.configuration.boot_source)
        && are_drives(&copy.configuration.drives.items)
        && are_interfaces(&copy.configuration.interfaces.items)
        && holds_vsock(&copy.configuration.vsock)
        && holds_mmds(
            &copy.configuration.interfaces.items,
            &copy.configuration.mmds,
        )
        && has_machine(copy, machine)
        && holds_balloon(machine.mem_size_mib, &copy.configuration.balloon)
        && has_room(
            &copy.configuration.drives.items,
            &copy.configuration.interfaces.items,
            &copy.configuration.vsock,
            &copy.configuration.balloon,
            &entropy,
        )
        && is_board(harts, &copy.board)
        && copy.harts.as_slice().len() as u64 == harts
        && are_harts(copy.pages, copy.harts.as_slice())
        && has_devices(copy)
        && are_reserved(copy.pages, harts, copy.reservations.as_slice())
        && is_rising(copy.reservations.as_slice())
        && are_sections(copy.ports.as_slice(), copy.sections.as_slice())
        && are_timely(copy.guest_time, copy.devices.as_slice())
        && holds_entropy(&entropy)
}
