// A port.
ghost use Rattle.std.specs.Prelude.{◌≡◌, OnOk};
ghost use Rattle.file_format.specs.Kinds.{times};
ghost use Rattle.file_format.specs.Reading.{Takes};
ghost use Rattle.snap_devices.specs.Ports.{kind, kind_code, port, port_fields, port_queue};

use crate::saved::Saved;
use file_format::{Input, ReadError, Stored, read_into, write_items};
use mmio_port::Port;
use port_table::{DeviceKind, PortQueue, PortState};
use std::alloc::{AllocError, Global};

fn kind_code(kind: DeviceKind) -> u8
    ensures { result ≡ kind_code kind }
{
    match kind {
        DeviceKind::Net => 0,
        DeviceKind::Block => 1,
        DeviceKind::Balloon => 2,
        DeviceKind::Vsock => 3,
        DeviceKind::Entropy => 4,
    }
}

#[tactic(auto, unfolding(crate::specs::Ports::kind, file_format::specs::Kinds::byte))]
impl Stored for Saved<DeviceKind> {
    ghost format = { kind };

    fn write(&self, out: &mut Vec<u8>) -> Result<(), AllocError> {
        kind_code(self.value).write(out)?;
        Ok(())
    }

    fn read(alloc: Global, input: &mut Input) -> Result<Saved<DeviceKind>, ReadError> {
        let value = match u8::read(alloc, input)? {
            0 => DeviceKind::Net,
            1 => DeviceKind::Block,
            2 => DeviceKind::Balloon,
            3 => DeviceKind::Vsock,
            4 => DeviceKind::Entropy,
            _ => return Err(ReadError::Bad),
        };
        Ok(Saved { value })
    }
}

#[tactic(auto, unfolding(crate::specs::Ports::port_queue))]
impl Stored for Saved<PortQueue> {
    ghost format = { port_queue };

    fn write(&self, out: &mut Vec<u8>) -> Result<(), AllocError> {
        self.value.descriptors.write(out)?;
        self.value.available.write(out)?;
        self.value.used.write(out)?;
        self.value.size.write(out)?;
        self.value.ready.write(out)?;
        self.value.is_kicked.write(out)?;
        Ok(())
    }

    fn read(alloc: Global, input: &mut Input) -> Result<Saved<PortQueue>, ReadError> {
        let (descriptors, (available, (used, (size, (ready, is_kicked))))) = Stored::read(
            alloc, input,
        )?;
        Ok(Saved {
            value: PortQueue {
                descriptors,
                available,
                used,
                size,
                ready,
                is_kicked,
            },
        })
    }
}

#[tactic(auto, using(crate::proofs::Three::three_of), unfolding(file_format::specs::Kinds::times))]
fn write_queues(queues: &[PortQueue; 3], out: &mut Vec<u8>) -> Result<(), AllocError>
    ensures fits { OnOk result ((times 3 port_queue).Fits queues.now) }
    ensures bytes { OnOk result (out.new.items ≡ (times 3 port_queue).puts queues.now out.old.items) }
{
    let saved = [
        Saved { value: queues[0] },
        Saved { value: queues[1] },
        Saved { value: queues[2] },
    ];
    write_items(&saved, out)?;
    Ok(())
}

#[tactic(auto, using(crate::proofs::Three::three_of), unfolding(file_format::specs::Kinds::times))]
fn read_queues(alloc: Global, input: &mut Input) -> Result<[PortQueue; 3], ReadError>
    ensures { Takes (times 3 port_queue) input.old input.new result }
{
    let none = PortQueue {
        descriptors: 0,
        available: 0,
        used: 0,
        size: 0,
        ready: 0,
        is_kicked: false,
    };
    let mut saved = [
        Saved { value: none },
        Saved { value: none },
        Saved { value: none },
    ];
    read_into(alloc, &mut saved, input)?;
    let (first, second, third) = (&saved[0], &saved[1], &saved[2]);
    Ok([first.value, second.value, third.value])
}

#[tactic(auto, unfolding(crate::specs::Ports::port_fields))]
fn write_fields(port: &PortState, out: &mut Vec<u8>) -> Result<(), AllocError>
    ensures fits { OnOk result (port_fields.Fits port.now) }
    ensures bytes { OnOk result (out.new.items ≡ port_fields.puts port.now out.old.items) }
{
    Saved { value: port.kind }.write(out)?;
    port.offered.write(out)?;
    port.accepted.write(out)?;
    port.offered_select.write(out)?;
    port.accepted_select.write(out)?;
    port.queue_select.write(out)?;
    port.interrupt_status.write(out)?;
    port.status.write(out)?;
    port.config_generation.write(out)?;
    port.is_reset_asked.write(out)?;
    write_queues(&port.queues, out)?;
    port.config.write(out)?;
    Ok(())
}

#[tactic(auto, unfolding(crate::specs::Ports::port_fields))]
fn read_fields(alloc: Global, input: &mut Input) -> Result<PortState, ReadError>
    ensures { Takes port_fields input.old input.new result }
{
    let (kind, (offered, (accepted, (offered_select, (accepted_select, queue_select))))): (
        Saved<DeviceKind>,
        (u64, (u64, (u32, (u32, u32)))),
    ) = Stored::read(alloc, input)?;
    let (interrupt_status, (status, (config_generation, is_reset_asked))) = Stored::read(
        alloc, input,
    )?;
    let queues = read_queues(alloc, input)?;
    let config = Stored::read(alloc, input)?;
    Ok(PortState {
        offered,
        accepted,
        queues,
        offered_select,
        accepted_select,
        queue_select,
        interrupt_status,
        status,
        config_generation,
        config,
        kind: kind.value,
        is_reset_asked,
    })
}

#[tactic(auto, unfolding(crate::specs::Ports::port))]
fn write_port(it: &Port, out: &mut Vec<u8>) -> Result<(), AllocError>
    ensures fits { OnOk result (port.Fits it.now) }
    ensures bytes { OnOk result (out.new.items ≡ port.puts it.now out.old.items) }
{
    write_fields(it.state(), out)?;
    Ok(())
}

#[tactic(auto, unfolding(crate::specs::Ports::port))]
impl Stored for Saved<Port> {
    ghost format = { port };

    fn write(&self, out: &mut Vec<u8>) -> Result<(), AllocError> {
        write_port(&self.value, out)?;
        Ok(())
    }

    fn read(alloc: Global, input: &mut Input) -> Result<Saved<Port>, ReadError> {
        let state = read_fields(alloc, input)?;
        match Port::from_state(state) {
            Some(value) => Ok(Saved { value }),
            None => Err(ReadError::Bad),
        }
    }
}
