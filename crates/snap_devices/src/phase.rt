// Where a block device is.
ghost use Rattle.std.specs.Prelude.{◌≡◌};
ghost use Rattle.snap_devices.specs.Phases.{break_code, break_stage, phase, phase_code};
ghost use Rattle.snap_devices.specs.Phases.{return_code, return_stage};
ghost use Rattle.snap_devices.specs.Serving.{service, service_code, units};

use crate::file::FilePhase;
use crate::saved::Saved;
use block_device::ServiceStage;
use dev_core::{BreakStage, ReturnStage};
use file_format::{Input, ReadError, Stored};
use std::alloc::{AllocError, Global};
use std::marker::Model;

fn break_code(stage: BreakStage) -> u8
    ensures { result ≡ break_code stage }
{
    match stage {
        BreakStage::Port => 0,
        BreakStage::Line => 1,
    }
}

#[tactic(auto, unfolding(crate::specs::Phases::break_stage, file_format::specs::Kinds::byte))]
impl Stored for Saved<BreakStage> {
    ghost format = { break_stage };

    fn write(&self, out: &mut Vec<u8>) -> Result<(), AllocError> {
        break_code(self.value).write(out)?;
        Ok(())
    }

    fn read(alloc: Global, input: &mut Input) -> Result<Saved<BreakStage>, ReadError> {
        let value = match u8::read(alloc, input)? {
            0 => BreakStage::Port,
            1 => BreakStage::Line,
            _ => return Err(ReadError::Bad),
        };
        Ok(Saved { value })
    }
}

fn return_code(stage: ReturnStage) -> u8
    ensures { result ≡ return_code stage }
{
    match stage {
        ReturnStage::Pair => 0,
        ReturnStage::Half => 1,
        ReturnStage::Index => 2,
        ReturnStage::Interrupt => 3,
        ReturnStage::Line => 4,
        ReturnStage::Event => 5,
    }
}

#[tactic(auto, unfolding(crate::specs::Phases::return_stage, file_format::specs::Kinds::byte))]
impl Stored for Saved<ReturnStage> {
    ghost format = { return_stage };

    fn write(&self, out: &mut Vec<u8>) -> Result<(), AllocError> {
        return_code(self.value).write(out)?;
        Ok(())
    }

    fn read(alloc: Global, input: &mut Input) -> Result<Saved<ReturnStage>, ReadError> {
        let value = match u8::read(alloc, input)? {
            0 => ReturnStage::Pair,
            1 => ReturnStage::Half,
            2 => ReturnStage::Index,
            3 => ReturnStage::Interrupt,
            4 => ReturnStage::Line,
            5 => ReturnStage::Event,
            _ => return Err(ReadError::Bad),
        };
        Ok(Saved { value })
    }
}

// A sector, a unit, and how many units follow.
#[derive(Drop)]
struct Units {
    sector: u64,
    unit: u64,
    more: u64,
}

impl Model for Units {
    ghost use Rattle.std.specs.Prelude.{ℕ};

    ghost Value = { ℕ × (ℕ × ℕ) };

    ghost view = { λ u. (u.sector, (u.unit, u.more)) };
}

#[tactic(auto, unfolding(crate::specs::Serving::units))]
impl Stored for Units {
    ghost format = { units };

    fn write(&self, out: &mut Vec<u8>) -> Result<(), AllocError> {
        self.sector.write(out)?;
        self.unit.write(out)?;
        self.more.write(out)?;
        Ok(())
    }

    fn read(alloc: Global, input: &mut Input) -> Result<Units, ReadError> {
        let (sector, (unit, more)) = Stored::read(alloc, input)?;
        Ok(Units { sector, unit, more })
    }
}

fn service_code(stage: ServiceStage) -> u8
    ensures { result ≡ service_code stage }
{
    match stage {
        ServiceStage::Read { .. } => 0,
        ServiceStage::Put { .. } => 1,
        ServiceStage::PutId => 2,
        ServiceStage::Gather { .. } => 3,
        ServiceStage::Disk { .. } => 4,
        ServiceStage::Flush => 5,
        ServiceStage::Status { .. } => 6,
    }
}

#[tactic(auto, unfolding(crate::specs::Serving::service, file_format::specs::Kinds::byte))]
impl Stored for Saved<ServiceStage> {
    ghost format = { service };

    fn write(&self, out: &mut Vec<u8>) -> Result<(), AllocError> {
        service_code(self.value).write(out)?;
        match self.value {
            ServiceStage::Read { sector, unit, more } => Units { sector, unit, more }.write(out)?,
            ServiceStage::Put { sector, unit, more } => Units { sector, unit, more }.write(out)?,
            ServiceStage::Gather { sector, part, more } => Units {
                sector,
                unit: part,
                more,
            }
            .write(out)?,
            ServiceStage::Disk { sector, part, more } => Units {
                sector,
                unit: part,
                more,
            }
            .write(out)?,
            ServiceStage::Status { status, used } => {
                status.write(out)?;
                used.write(out)?;
            }
            ServiceStage::PutId | ServiceStage::Flush => {}
        }
        Ok(())
    }

    fn read(alloc: Global, input: &mut Input) -> Result<Saved<ServiceStage>, ReadError> {
        let value = match u8::read(alloc, input)? {
            0 => {
                let Units { sector, unit, more } = Units::read(alloc, input)?;
                ServiceStage::Read { sector, unit, more }
            }
            1 => {
                let Units { sector, unit, more } = Units::read(alloc, input)?;
                ServiceStage::Put { sector, unit, more }
            }
            2 => ServiceStage::PutId,
            3 => {
                let Units { sector, unit, more } = Units::read(alloc, input)?;
                ServiceStage::Gather {
                    sector,
                    part: unit,
                    more,
                }
            }
            4 => {
                let Units { sector, unit, more } = Units::read(alloc, input)?;
                ServiceStage::Disk {
                    sector,
                    part: unit,
                    more,
                }
            }
            5 => ServiceStage::Flush,
            6 => {
                let (status, used) = Stored::read(alloc, input)?;
                ServiceStage::Status { status, used }
            }
            _ => return Err(ReadError::Bad),
        };
        Ok(Saved { value })
    }
}

fn phase_code(phase: FilePhase) -> u8
    ensures { result ≡ phase_code phase }
{
    match phase {
        FilePhase::Between => 0,
        FilePhase::Break { .. } => 1,
        FilePhase::Header { .. } => 2,
        FilePhase::Serve { .. } => 3,
        FilePhase::Return { .. } => 4,
    }
}

#[tactic(auto, unfolding(crate::specs::Phases::phase, file_format::specs::Kinds::byte))]
impl Stored for Saved<FilePhase> {
    ghost format = { phase };

    fn write(&self, out: &mut Vec<u8>) -> Result<(), AllocError> {
        phase_code(self.value).write(out)?;
        match self.value {
            FilePhase::Between => {}
            FilePhase::Break { stage } => Saved { value: stage }.write(out)?,
            FilePhase::Header { len, head } => {
                len.write(out)?;
                head.write(out)?;
            }
            FilePhase::Serve { at, stage, head } => {
                at.write(out)?;
                Saved { value: stage }.write(out)?;
                head.write(out)?;
            }
            FilePhase::Return { len, head, stage } => {
                len.write(out)?;
                head.write(out)?;
                Saved { value: stage }.write(out)?;
            }
        }
        Ok(())
    }

    fn read(alloc: Global, input: &mut Input) -> Result<Saved<FilePhase>, ReadError> {
        let value = match u8::read(alloc, input)? {
            0 => FilePhase::Between,
            1 => {
                let stage: Saved<BreakStage> = Stored::read(alloc, input)?;
                FilePhase::Break { stage: stage.value }
            }
            2 => {
                let (len, head) = Stored::read(alloc, input)?;
                FilePhase::Header { len, head }
            }
            3 => {
                let (at, (stage, head)): (u64, (Saved<ServiceStage>, u16)) = Stored::read(
                    alloc, input,
                )?;
                FilePhase::Serve {
                    at,
                    stage: stage.value,
                    head,
                }
            }
            4 => {
                let (len, (head, stage)): (u32, (u16, Saved<ReturnStage>)) = Stored::read(
                    alloc, input,
                )?;
                FilePhase::Return {
                    len,
                    head,
                    stage: stage.value,
                }
            }
            _ => return Err(ReadError::Bad),
        };
        Ok(Saved { value })
    }
}
