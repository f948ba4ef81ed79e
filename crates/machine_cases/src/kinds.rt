// What a network device, a balloon and an entropy device do, over a small memory.
mod answering;
mod laying;

use crate::chains::memory::PAGES;
use crate::kinds::answering::{Outside, answered};
use crate::kinds::laying::{Setting, setting_from};
use balloon_device::{BalloonChange, BalloonKind};
use entropy_device::EntropyKind;
use net_device::NetKind;
use queue_device::QueueRounds;
use rate_gate::{Bucket, RateGate};
use std::alloc::AllocError;
use vm_types::Actor;

/// Puts the letters of a network device's acts at the end.
pub fn add_net(memory: &mut [u8], case: &str, text: &mut String) -> Result<(), AllocError> {
    let Some(setting) = setting_from(memory, case) else {
        return text.push_str("none");
    };
    let gate = RateGate::new(bucket(&setting), None);
    let kind = NetKind::new(gate, RateGate::new(bucket(&setting), None));
    let mut device = QueueRounds::new(0, PAGES, kind);
    let mut outside = Outside::new(&setting);
    act(&mut device, &mut outside, memory, setting.acts, text)
}

/// Puts the letters of a balloon's acts at the end.
pub fn add_balloon(memory: &mut [u8], case: &str, text: &mut String) -> Result<(), AllocError> {
    let Some(setting) = setting_from(memory, case) else {
        return text.push_str("none");
    };
    let kind = BalloonKind::new((setting.interval % 0x1_0000) as u16);
    let mut device = QueueRounds::new(0, PAGES, kind);
    let mut outside = Outside::new(&setting);
    if setting.change < setting.acts {
        act(&mut device, &mut outside, memory, setting.change, text)?;
        device.change(BalloonChange::Interval((setting.sooner % 0x1_0000) as u16));
        let acts = setting.acts - setting.change;
        return act(&mut device, &mut outside, memory, acts, text);
    }
    act(&mut device, &mut outside, memory, setting.acts, text)
}

/// Puts the letters of an entropy device's acts at the end.
pub fn add_entropy(memory: &mut [u8], case: &str, text: &mut String) -> Result<(), AllocError> {
    let Some(setting) = setting_from(memory, case) else {
        return text.push_str("none");
    };
    let kind = EntropyKind::new(RateGate::new(bucket(&setting), None));
    let mut device = QueueRounds::new(0, PAGES, kind);
    let mut outside = Outside::new(&setting);
    act(&mut device, &mut outside, memory, setting.acts, text)
}

// A new bucket, by numbers of 16 bits.
fn bucket(setting: &Setting) -> Option<Bucket> {
    Bucket::new(setting.size % 0x1_0000, 0, setting.ms % 0x1_0000)
}

// So many acts of a device.
fn act<A: Actor>(
    device: &mut A,
    outside: &mut Outside,
    memory: &mut [u8],
    acts: u64,
    text: &mut String,
) -> Result<(), AllocError> {
    for _ in 0..acts {
        let op = device.want();
        let (letter, reply) = answered(outside, memory, &op);
        text.push(letter)?;
        device.give(reply);
    }
    Ok(())
}
