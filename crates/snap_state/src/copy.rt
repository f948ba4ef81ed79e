// What a state file holds.
ghost use Rattle.std.specs.Prelude.{◌≡◌, OnOk};
ghost use Rattle.file_format.specs.Versions.{current_version};
ghost use Rattle.file_format.specs.Reading.{Takes};
ghost use Rattle.snap_state.specs.Copies.{behind_harts, behind_time, reservation, section, sections_in, state_copy, tag_of};

use crate::board::SavedBoard;
use crate::configuration::Configuration;
use crate::devices::{read_devices, write_devices};
use crate::filed::Filed;
use crate::sections::Section;
use api_calls::Entropy;
use file_format::{Counted, Input, Items, Listed, ReadError, Stored, Version};
use mmio_port::Port;
use snap_devices::{Saved, SavedDevice};
use snap_harts::SavedHart;
use std::alloc::{AllocError, Global};
use vm_types::ByteList;

/// What one hart has reserved in one page: a granule of 8 bytes.
#[derive(Clone, Copy, Drop)]
pub struct Reservation {
    pub page: u32,
    pub hart: u32,
    /// The granule's offset in the page, in bytes.
    pub offset: u32,
}

/// What is kept of a machine that is on, besides the bytes of its memory.
#[derive(Drop)]
pub struct StateCopy {
    pub configuration: Configuration,
    /// How many pages of 4,096 bytes its memory has.
    pub pages: u32,
    pub track_dirty_pages: bool,
    /// Guest time in nanoseconds.
    pub guest_time: u64,
    pub board: SavedBoard,
    pub harts: Items<SavedHart>,
    /// The ports of the devices, by their numbers.
    pub ports: Items<Counted<Saved<Port>>>,
    /// The devices, each by the number of its port.
    pub devices: Items<Listed<SavedDevice>>,
    /// By page and then by hart.
    pub reservations: Items<Reservation>,
    /// By their tags, which rise.
    pub sections: Items<Section>,
}

#[tactic(auto, unfolding(crate::specs::Copies::reservation))]
impl Stored for Reservation {
    ghost format = { reservation };

    fn write(&self, out: &mut Vec<u8>) -> Result<(), AllocError> {
        self.page.write(out)?;
        self.hart.write(out)?;
        self.offset.write(out)?;
        Ok(())
    }

    fn read(alloc: Global, input: &mut Input) -> Result<Reservation, ReadError> {
        let (page, (hart, offset)) = Stored::read(alloc, input)?;
        Ok(Reservation { page, hart, offset })
    }
}

fn tag_of(section: &Section) -> u32
    ensures { result ≡ tag_of section.now }
{
    match section {
        Section::Offering(_) => 1,
        Section::Entropy(_) => 3,
    }
}

#[tactic(auto, unfolding(crate::specs::Copies::section, file_format::specs::Kinds::number32))]
impl Stored for Section {
    ghost format = { section };

    fn write(&self, out: &mut Vec<u8>) -> Result<(), AllocError> {
        tag_of(self).write(out)?;
        match self {
            Section::Offering(bytes) => bytes.write(out)?,
            Section::Entropy(it) => it.write(out)?,
        }
        Ok(())
    }

    fn read(alloc: Global, input: &mut Input) -> Result<Section, ReadError> {
        let section = match u32::read(alloc, input)? {
            1 => {
                let bytes: ByteList = Stored::read(alloc, input)?;
                Section::Offering(bytes)
            }
            3 => {
                let it: Counted<Filed<Entropy>> = Stored::read(alloc, input)?;
                Section::Entropy(it)
            }
            _ => return Err(ReadError::Bad),
        };
        Ok(section)
    }
}

#[tactic(auto, unfolding(crate::specs::Copies::sections_in))]
fn write_sections(sections: &Items<Section>, out: &mut Vec<u8>) -> Result<(), AllocError>
    ensures fits { OnOk result ((sections_in current_version).Fits sections.now) }
    ensures bytes { OnOk result (out.new.items ≡ (sections_in current_version).puts sections.now out.old.items) }
{
    sections.write(out)
}

#[tactic(auto, unfolding(crate::specs::Copies::sections_in))]
fn read_sections(
    alloc: Global,
    version: Version,
    input: &mut Input,
) -> Result<Items<Section>, ReadError>
    ensures { Takes (sections_in version) input.old input.new result }
{
    match version {
        Version::One => Ok(Items::new(alloc)),
        Version::Two => Stored::read(alloc, input),
    }
}

type BehindHarts = (
    Items<Counted<Saved<Port>>>,
    (
        Items<Listed<SavedDevice>>,
        (Items<Reservation>, Items<Section>),
    ),
);

// What stands behind the harts.
#[tactic(auto)]
fn read_behind_harts(
    alloc: Global,
    version: Version,
    input: &mut Input,
) -> Result<BehindHarts, ReadError>
    ensures { Takes (behind_harts version) input.old input.new result }
{
    let ports = Stored::read(alloc, input)?;
    let devices = read_devices(alloc, input)?;
    let reservations = Stored::read(alloc, input)?;
    let sections = read_sections(alloc, version, input)?;
    Ok((ports, (devices, (reservations, sections))))
}

// What stands behind guest time.
#[tactic(auto)]
fn read_behind_time(
    alloc: Global,
    version: Version,
    input: &mut Input,
) -> Result<(SavedBoard, (Items<SavedHart>, BehindHarts)), ReadError>
    ensures { Takes (behind_time version) input.old input.new result }
{
    let (board, harts) = Stored::read(alloc, input)?;
    let behind = read_behind_harts(alloc, version, input)?;
    Ok((board, (harts, behind)))
}

/// The copy at the front of a body of this version.
#[tactic(auto, unfolding(crate::specs::Copies::state_copy))]
pub(crate) fn read_copy(
    alloc: Global,
    version: Version,
    input: &mut Input,
) -> Result<StateCopy, ReadError>
    ensures { Takes (state_copy version) input.old input.new result }
{
    let (configuration, (pages, (track_dirty_pages, guest_time))) = Stored::read(alloc, input)?;
    let (board, (harts, (ports, (devices, (reservations, sections))))) = read_behind_time(
        alloc, version, input,
    )?;
    Ok(StateCopy {
        configuration,
        pages,
        track_dirty_pages,
        guest_time,
        board,
        harts,
        ports,
        devices,
        reservations,
        sections,
    })
}

#[tactic(auto, unfolding(crate::specs::Copies::state_copy))]
impl Stored for StateCopy {
    ghost format = { state_copy current_version };

    fn write(&self, out: &mut Vec<u8>) -> Result<(), AllocError> {
        self.configuration.write(out)?;
        self.pages.write(out)?;
        self.track_dirty_pages.write(out)?;
        self.guest_time.write(out)?;
        self.board.write(out)?;
        self.harts.write(out)?;
        self.ports.write(out)?;
        write_devices(&self.devices, out)?;
        self.reservations.write(out)?;
        write_sections(&self.sections, out)?;
        Ok(())
    }

    fn read(alloc: Global, input: &mut Input) -> Result<StateCopy, ReadError> {
        read_copy(alloc, Version::Two, input)
    }
}
