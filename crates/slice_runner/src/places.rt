// The places of a slice, in a table of turns.
ghost use Rattle.std.specs.Prelude.{◌≡◌, ◌+◌, ◌≤◌, ◌^◌, length};
ghost use Rattle.slice_runner.specs.Blanks.{was_made};

use flat_guest::{Layout as Size, place};
use guest_memory::PAGE_SIZE;
use machine_places::MachinePlace;
use stamp_merge::Layout;
use turn_table::Turns;
use vm_types::{Op, PlaceId};

/// A machine's places, each at its index, how many pages and ports there are, and which of the pages were made when the slice began.
#[derive(Drop)]
pub struct Places {
    pub turns: Turns<MachinePlace>,
    pub layout: Layout,
    pub made: Vec<bool>,
    pub ghost counted: { turns.table.shared.table_id.words ≡ layout.pages + (layout.ports + 1) },
    pub ghost few: { layout.pages ≤ 2 ^ 28 },
    pub ghost marked: { length made.items ≡ layout.pages },
}

impl Places {
    /// Whether the place of an op was made when the slice began. What is no page was.
    #[tactic(auto, using(crate::proofs::Routes::page_there))]
    pub fn was_made(&self, op: &Op) -> bool
        ensures { result ≡ was_made self.now.made.items self.now.layout op.now }
    {
        let size = Size {
            memory_size: PAGE_SIZE * self.layout.pages as usize,
            ports: self.layout.ports,
        };
        match place(size, op) {
            PlaceId::Page(number) => self.made[number as usize],
            PlaceId::Port(_) => true,
            PlaceId::Board => true,
            PlaceId::Out => true,
        }
    }
}
