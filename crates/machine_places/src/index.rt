// Where a place stands in the list of a machine's places.
ghost use Rattle.std.specs.Prelude.{◌≡◌, ◌≤◌, ◌^◌, ◌<◌, ◌+◌};
ghost use Rattle.machine_places.specs.Laid.{index_among, is_laid};
ghost use Rattle.std.specs.Prelude.{true};

use stamp_merge::Layout;
use vm_types::PlaceId;

/// The index of a place that there is, among so many pages and ports: pages by their numbers, then ports, and the board.
pub fn index_of(layout: Layout, place: PlaceId) -> usize
    requires place { is_laid layout place ≡ true }
    requires few { layout.pages ≤ 2 ^ 28 }
    ensures index { result ≡ index_among layout place }
    ensures below { result < layout.pages + (layout.ports + 1) }
{
    match place {
        PlaceId::Page(number) => number as usize,
        PlaceId::Port(number) => layout.pages as usize + usize::from(number),
        PlaceId::Board => layout.pages as usize + usize::from(layout.ports),
        PlaceId::Out => unreachable!(),
    }
}
