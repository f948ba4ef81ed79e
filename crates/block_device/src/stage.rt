// What comes next in the service of a request.
ghost use Rattle.std.specs.Prelude.{ℕ, ◌≡◌, ◌≤◌, ◌<◌, ◌+◌, ◌-◌, ◌/◌, ◌^◌, ◌%◌, [], true};
ghost use Rattle.device_trace.specs.Doing.{and_then};
ghost use Rattle.dev_core.specs.Collecting.{nothing};
ghost use Rattle.dev_core.specs.Pieces.{put_all, share};
ghost use Rattle.queue_device.specs.Chains.{got_of};
ghost use Rattle.block_device.specs.Service.{id_put, is_range, status_written, units_in, units_out, used_of};
ghost use Rattle.block_device.specs.Serving.{IsStage, IsWithin, StayPlaced, serving_left};

use dev_core::{Collect, Held, Scatter};

pub const OK: u8 = 0;

pub const IO_ERROR: u8 = 1;

pub const UNSUPPORTED: u8 = 2;

/// The act that is wanted. `more` counts the units of 64 bytes behind this one. What is read begins at `sector`, `unit`
/// units before this one; 2^26 units are as many as none, since the used length is modulo 2^32, and `sector` is then
/// 2^23 further. What is written is `part`, below 8, of `sector`.
#[derive(Clone, Copy, Drop)]
pub enum ServiceStage {
    /// A unit is read from the disk.
    Read { sector: u64, unit: u64, more: u64 },
    /// The bytes that are held are written to the driver's parts.
    Put { sector: u64, unit: u64, more: u64 },
    /// So is the drive's id.
    PutId,
    /// A piece is read of the driver's parts.
    Gather { sector: u64, part: u64, more: u64 },
    /// A unit is written to the disk.
    Disk { sector: u64, part: u64, more: u64 },
    Flush,
    /// The status is written.
    Status { status: u8, used: u32 },
}

/// The used length where so many units were written, and the status.
pub fn used_of(unit: u64) -> u32
    requires { unit ≤ 2 ^ 50 }
    ensures { result ≡ used_of unit }
{
    ((64 * unit + 1) % 0x1_0000_0000) as u32
}

/// How many of the bytes that are held the next piece takes.
pub fn share(held: &Held, to: &Scatter) -> usize
    ensures share { result ≡ share held.now to.now }
    ensures most { result ≤ 64 }
{
    held.as_slice().len().min(to.room())
}

/// Nothing is left of a request but its status.
pub fn ended(from: &mut Collect, to: &mut Scatter, status: u8, used: u32) -> ServiceStage
    ensures left { (at : ℕ) → serving_left result from.new to.new at ≡ status_written at status used }
    ensures stage { IsStage result from.new to.new }
    ensures placed { StayPlaced from.old to.old from.new to.new }
{
    from.clear();
    to.clear();
    ServiceStage::Status { status, used }
}

/// So many units of the disk, after as many as `unit`, go into the driver's parts.
pub fn read_stage(
    from: &mut Collect,
    to: &mut Scatter,
    sector: u64,
    unit: u64,
    units: u64,
) -> ServiceStage
    requires most { unit ≤ 2 ^ 26 }
    requires units { unit + units ≤ 2 ^ 50 }
    requires inside { sector + (unit + units - 1) / 8 < 2 ^ 64 }
    requires clear { from.old ≡ nothing }
    ensures left { (at : ℕ) → serving_left result from.new to.new at ≡ units_in units unit sector to.old at }
    ensures stage { IsStage result from.new to.new }
    ensures placed { StayPlaced from.old to.old from.new to.new }
{
    if units == 0 {
        ended(from, to, OK, used_of(unit))
    } else if unit == 0x400_0000 {
        ServiceStage::Read {
            sector: sector + 0x80_0000,
            unit: 0,
            more: units - 1,
        }
    } else {
        ServiceStage::Read {
            sector,
            unit,
            more: units - 1,
        }
    }
}

/// The bytes of a unit go into the driver's parts.
pub fn put_stage(
    from: &mut Collect,
    to: &mut Scatter,
    sector: u64,
    unit: u64,
    more: u64,
) -> ServiceStage
    requires within { IsWithin sector unit more }
    requires unit { unit < 2 ^ 26 }
    requires parts { from.old.from ≡ [] }
    ensures left { (at : ℕ) → serving_left result from.new to.new at ≡
        and_then (put_all from.old.held to.old) (λ left. units_in more (unit + 1) sector left at) }
    ensures stage { IsStage result from.new to.new }
    ensures placed { StayPlaced from.old to.old from.new to.new }
{
    if share(&from.held, to) == 0 {
        from.held.clear();
        read_stage(from, to, sector, unit + 1, more)
    } else {
        ServiceStage::Put { sector, unit, more }
    }
}

/// So do the bytes of the id.
pub fn id_stage(from: &mut Collect, to: &mut Scatter) -> ServiceStage
    requires { from.old.from ≡ [] }
    ensures left { (at : ℕ) → serving_left result from.new to.new at ≡ id_put from.old.held to.old at }
    ensures stage { IsStage result from.new to.new }
    ensures placed { StayPlaced from.old to.old from.new to.new }
{
    if share(&from.held, to) == 0 {
        ended(from, to, OK, 21)
    } else {
        ServiceStage::PutId
    }
}

/// The driver's bytes go to so many units of the disk, from this part of a sector on.
pub fn collect_stage(
    from: &mut Collect,
    to: &mut Scatter,
    sector: u64,
    part: u64,
    units: u64,
) -> ServiceStage
    requires part { part < 8 }
    requires units { part + units ≤ 2 ^ 50 }
    requires inside { sector + (part + units - 1) / 8 < 2 ^ 64 }
    requires clear { to.old ≡ [] }
    ensures left { (at : ℕ) → serving_left result from.new to.new at ≡
        units_out units part sector at (got_of from.old) }
    ensures stage { IsStage result from.new to.new }
    ensures placed { StayPlaced from.old to.old from.new to.new }
{
    if units == 0 {
        ended(from, to, OK, 1)
    } else if from.is_done(64) {
        ServiceStage::Disk {
            sector,
            part,
            more: units - 1,
        }
    } else {
        ServiceStage::Gather {
            sector,
            part,
            more: units - 1,
        }
    }
}

/// So do they from the part behind this one on.
pub fn next_stage(
    from: &mut Collect,
    to: &mut Scatter,
    sector: u64,
    part: u64,
    units: u64,
) -> ServiceStage
    requires part { part < 8 }
    requires units { part + units < 2 ^ 50 }
    requires inside { sector + (part + units) / 8 < 2 ^ 64 }
    requires clear { to.old ≡ [] }
    ensures left { (at : ℕ) → serving_left result from.new to.new at ≡
        units_out units (part + 1) sector at (got_of from.old) }
    ensures stage { IsStage result from.new to.new }
    ensures placed { StayPlaced from.old to.old from.new to.new }
{
    if units == 0 {
        ended(from, to, OK, 1)
    } else if part == 7 {
        collect_stage(from, to, sector + 1, 0, units)
    } else {
        collect_stage(from, to, sector, part + 1, units)
    }
}

/// Whether whole sectors from one on are inside the disk.
pub fn is_range(len: u64, sector: u64, sectors: u64) -> bool
    ensures test { result ≡ is_range len sector sectors }
    ensures within { result ≡ true → (len % 512 ≡ 0) × (sector + len / 512 ≤ sectors) }
{
    len % 512 == 0 && sector <= sectors && len / 512 <= sectors - sector
}
