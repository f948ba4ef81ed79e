// What stands in the sections of a state file.
ghost use Rattle.std.specs.Prelude.{◌≡◌, IfOk, map};
ghost use Rattle.std.specs.Int.{w32, to_le_bytes};
ghost use Rattle.std.specs.List.{list_any};
ghost use Rattle.std.specs.Str.{bytes_eq};
ghost use Rattle.snap_state.specs.Sections as spec;
ghost use Rattle.snap_state.specs.Sections.{are_sections, is_offering, offering_byte, offering_bytes, sections_of};

use crate::filed::Filed;
use api_calls::Entropy;
use file_format::{Counted, Items};
use mmio_port::Port;
use port_table::Feature;
use snap_devices::Saved;
use std::alloc::{AllocError, Global};
use vm_types::ByteList;

/// What version 2 of the file has behind the copy, by its tag.
#[derive(Drop)]
pub enum Section {
    /// Tag 1: which devices offer indirect descriptors and the event index.
    Offering(ByteList),
    /// Tag 3: the entropy device, as it is configured.
    Entropy(Counted<Filed<Entropy>>),
}

// ---- what is offered

fn is_offering(port: &Port) -> bool
    ensures { result ≡ is_offering port.now }
{
    let both = Feature::IndirectDescriptors.mask() | Feature::EventIndex.mask();
    port.state().offered & both == both
}

fn offering_byte(port: &Port) -> u8
    ensures { result ≡ offering_byte port.now }
{
    if is_offering(port) { 1 } else { 0 }
}

fn has_offering(ports: &[Counted<Saved<Port>>]) -> bool
    ensures { result ≡ list_any is_offering ports.now }
{
    ports.iter().any(|port| is_offering(&port.value.value))
}

// How many items the list has, as it says before them.
fn count_bytes(count: usize) -> [u8; 4]
    ensures { result ≡ to_le_bytes w32 count }
{
    let bytes = (count as u64).to_le_bytes();
    [bytes[0], bytes[1], bytes[2], bytes[3]]
}

// Whether these are the list's items.
fn are_items(ports: &[Counted<Saved<Port>>], bytes: &[u8]) -> bool
    ensures { result ≡ bytes_eq bytes.now (map offering_byte ports.now) }
{
    let mut left = bytes;
    for port in ports {
        let Some((first, others)) = left.split_first() else {
            return false;
        };
        if *first != offering_byte(&port.value.value) {
            return false;
        }
        left = others;
    }
    left.is_empty()
}

// Whether these are the bytes of the list.
fn are_offering_bytes(ports: &[Counted<Saved<Port>>], bytes: &[u8]) -> bool
    ensures { result ≡ bytes_eq bytes.now (offering_bytes ports.now) }
{
    let count = count_bytes(ports.len());
    match bytes.strip_prefix(&count) {
        Some(items) => are_items(ports, items),
        None => false,
    }
}

// The bytes of the list.
fn offering_bytes(alloc: Global, ports: &[Counted<Saved<Port>>]) -> Result<ByteList, AllocError>
    ensures { IfOk result (λ bytes. bytes ≡ offering_bytes ports.now) }
{
    let mut bytes = ByteList::copy_of(alloc, &count_bytes(ports.len()))?;
    for port in ports {
        bytes.append(&[offering_byte(&port.value.value)])?;
    }
    Ok(bytes)
}

// ---- the entropy device

fn entropy_by(section: &Section) -> Option<Entropy>
    ensures { result ≡ spec.entropy_by section.now }
{
    match section {
        Section::Offering(_) => None,
        Section::Entropy(it) => Some(it.value.value),
    }
}

/// The entropy device that these sections configure, if they do.
pub fn entropy_in(sections: &[Section]) -> Option<Entropy>
    ensures { result ≡ spec.entropy_in sections.now }
{
    for section in sections {
        if let Some(entropy) = entropy_by(section) {
            return Some(entropy);
        }
    }
    None
}

// Whether these are the section of an entropy device alone, or none.
fn are_configured(sections: &[Section]) -> bool
    ensures { result ≡ spec.are_configured sections.now }
{
    match sections {
        [] => true,
        [Section::Entropy(_)] => true,
        _ => false,
    }
}

// ---- both

/// Whether these are the sections of a copy with these ports.
pub fn are_sections(ports: &[Counted<Saved<Port>>], sections: &[Section]) -> bool
    ensures { result ≡ are_sections ports.now sections.now }
{
    match sections {
        [Section::Offering(bytes), others @ ..] => {
            has_offering(ports)
                && are_offering_bytes(ports, bytes.as_slice())
                && are_configured(others)
        }
        _ => !has_offering(ports) && are_configured(sections),
    }
}

/// The sections of a copy with these ports, and with this entropy device, if there is one.
pub fn sections_of(
    alloc: Global,
    ports: &[Counted<Saved<Port>>],
    entropy: Option<Entropy>,
) -> Result<Items<Section>, AllocError>
    ensures { IfOk result (λ sections. sections ≡ sections_of ports.now entropy) }
{
    let mut sections = Items::new(alloc);
    if has_offering(ports) {
        let bytes = offering_bytes(alloc, ports)?;
        sections.push(Section::Offering(bytes))?;
    }
    if let Some(value) = entropy {
        sections.push(Section::Entropy(Counted {
            value: Filed { value },
        }))?;
    }
    Ok(sections)
}
