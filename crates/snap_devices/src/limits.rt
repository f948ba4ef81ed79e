// The limits of a device, a chain that waits, and what may be lacking at a list's end.
ghost use Rattle.std.specs.Prelude.{◌≡◌, ◌++◌, OnOk};
ghost use Rattle.file_format.specs.Ends.{EndFits, TakesEnd, end_bytes};
ghost use Rattle.file_format.specs.Kinds.{optional};
ghost use Rattle.file_format.specs.Reading.{Takes};
ghost use Rattle.snap_devices.specs.Limits.{bucket, chain, end_of_device, is_no_more, limits, maybe_chain, more, owed};

use crate::file::FileMore;
use crate::mark::{accepted_at, accepted_code};
use crate::queue::{
    read_collect, read_parts, read_queue, read_registers, write_collect, write_parts, write_queue,
    write_registers,
};
use crate::saved::Saved;
use file_format::{Input, ReadError, Stored};
use queue_device::{SoundQueue, TakenChain, TakenParts};
use rate_gate::RateGate;
use std::alloc::{AllocError, Global};
use token_bucket::{Bucket, BucketParts};
use vm_types::Accepted;

const HALF: u128 = 0x1_0000_0000_0000_0000;

#[tactic(auto, unfolding(crate::specs::Limits::owed))]
impl Stored for Saved<u128> {
    ghost format = { owed };

    fn write(&self, out: &mut Vec<u8>) -> Result<(), AllocError> {
        let low = (self.value % HALF) as u64;
        let high = (self.value / HALF) as u64;
        low.write(out)?;
        high.write(out)?;
        Ok(())
    }

    fn read(alloc: Global, input: &mut Input) -> Result<Saved<u128>, ReadError> {
        let (low, high): (u64, u64) = Stored::read(alloc, input)?;
        Ok(Saved {
            value: low as u128 + HALF * high as u128,
        })
    }
}

#[tactic(auto, unfolding(crate::specs::Limits::bucket, crate::specs::Limits::bucket_fields))]
impl Stored for Saved<Bucket> {
    ghost format = { bucket };

    fn write(&self, out: &mut Vec<u8>) -> Result<(), AllocError> {
        let parts = self.value.parts();
        parts.size.write(out)?;
        parts.refill.write(out)?;
        parts.burst.write(out)?;
        Saved { value: parts.owed }.write(out)?;
        parts.moment.write(out)?;
        Ok(())
    }

    fn read(alloc: Global, input: &mut Input) -> Result<Saved<Bucket>, ReadError> {
        let (size, (refill, (burst, (owed, moment)))): (u64, (u64, (u64, (Saved<u128>, u64)))) =
            Stored::read(alloc, input)?;
        let parts = BucketParts {
            size,
            refill,
            burst,
            owed: owed.value,
            moment,
        };
        match Bucket::from_parts(parts) {
            Some(value) => Ok(Saved { value }),
            None => Err(ReadError::Bad),
        }
    }
}

#[tactic(auto, unfolding(file_format::specs::Kinds::optional, file_format::specs::Kinds::flag))]
fn write_bucket(it: &Option<Bucket>, out: &mut Vec<u8>) -> Result<(), AllocError>
    ensures fits { OnOk result ((optional bucket).Fits it.now) }
    ensures bytes { OnOk result (out.new.items ≡ (optional bucket).puts it.now out.old.items) }
{
    match it {
        Some(bucket) => {
            true.write(out)?;
            Saved {
                value: bucket.again(),
            }
            .write(out)?;
        }
        None => false.write(out)?,
    }
    Ok(())
}

fn read_bucket(alloc: Global, input: &mut Input) -> Result<Option<Bucket>, ReadError>
    ensures { Takes (optional bucket) input.old input.new result }
{
    let it: Option<Saved<Bucket>> = Stored::read(alloc, input)?;
    match it {
        Some(bucket) => Ok(Some(bucket.value)),
        None => Ok(None),
    }
}

#[tactic(auto, unfolding(crate::specs::Limits::limits))]
pub(crate) fn write_limits(it: &RateGate, out: &mut Vec<u8>) -> Result<(), AllocError>
    ensures fits { OnOk result (limits.Fits it.now) }
    ensures bytes { OnOk result (out.new.items ≡ limits.puts it.now out.old.items) }
{
    let (bandwidth, ops) = it.buckets();
    write_bucket(bandwidth, out)?;
    write_bucket(ops, out)?;
    Ok(())
}

#[tactic(auto, unfolding(crate::specs::Limits::limits))]
pub(crate) fn read_limits(alloc: Global, input: &mut Input) -> Result<RateGate, ReadError>
    ensures { Takes limits input.old input.new result }
{
    let bandwidth = read_bucket(alloc, input)?;
    let ops = read_bucket(alloc, input)?;
    Ok(RateGate::new(bandwidth, ops))
}

#[tactic(auto, unfolding(crate::specs::Limits::chain, crate::specs::Limits::chain_fields, crate::specs::Queues::collect), using(vq_split::proofs::Kept::test_of_sound))]
fn write_chain(it: &TakenChain, out: &mut Vec<u8>) -> Result<(), AllocError>
    ensures fits { OnOk result ((chain it.now.queue.accepted).Fits it.now) }
    ensures bytes { OnOk result (out.new.items ≡ (chain it.now.queue.accepted).puts it.now out.old.items) }
{
    write_registers(&it.queue().fields(), out)?;
    it.head().write(out)?;
    write_parts(it.parts().as_slice(), out)?;
    write_collect(it.got(), out)?;
    Ok(())
}

#[tactic(auto, unfolding(crate::specs::Limits::chain, crate::specs::Limits::chain_fields, crate::specs::Queues::collect))]
fn read_chain(alloc: Global, accepted: Accepted, input: &mut Input) -> Result<TakenChain, ReadError>
    ensures { Takes (chain accepted) input.old input.new result }
{
    let queue = read_registers(alloc, accepted, input)?;
    let head = u16::read(alloc, input)?;
    let parts = read_parts(alloc, input)?;
    let got = read_collect(alloc, input)?;
    match SoundQueue::from_fields(queue) {
        Some(queue) => Ok(TakenChain::new(queue, head, TakenParts::new(parts, got))),
        None => Err(ReadError::Bad),
    }
}

/// Puts the chain that waits, if there is one, at the end.
#[tactic(auto, unfolding(crate::specs::Limits::maybe_chain, crate::specs::Marks::maybe, file_format::specs::Kinds::byte), using(crate::specs::Marks::at_code))]
pub fn write_waiting(it: &Option<TakenChain>, out: &mut Vec<u8>) -> Result<(), AllocError>
    ensures fits { OnOk result (maybe_chain.Fits it.now) }
    ensures bytes { OnOk result (out.new.items ≡ maybe_chain.puts it.now out.old.items) }
{
    match it {
        Some(chain) => {
            (1 + accepted_code(chain.queue().fields().accepted)).write(out)?;
            write_chain(chain, out)?;
        }
        None => 0u8.write(out)?,
    }
    Ok(())
}

/// Takes it from the front.
#[tactic(auto, unfolding(crate::specs::Limits::maybe_chain, crate::specs::Marks::maybe, file_format::specs::Kinds::byte))]
pub fn read_waiting(alloc: Global, input: &mut Input) -> Result<Option<TakenChain>, ReadError>
    ensures { Takes maybe_chain input.old input.new result }
{
    let code = u8::read(alloc, input)?;
    if code == 0 {
        return Ok(None);
    }
    let Some(accepted) = accepted_at(code - 1) else {
        return Err(ReadError::Bad);
    };
    let chain = read_chain(alloc, accepted, input)?;
    Ok(Some(chain))
}

// ---- all of it

fn is_no_more(it: &FileMore) -> bool
    ensures { result ≡ is_no_more it.now }
{
    !it.limits.is_limited() && it.waiting.is_none() && it.in_hand.is_none()
}

#[tactic(auto, unfolding(crate::specs::Limits::more))]
fn write_there(it: &FileMore, out: &mut Vec<u8>) -> Result<(), AllocError>
    ensures fits { OnOk result (more.Fits it.now) }
    ensures bytes { OnOk result (out.new.items ≡ more.puts it.now out.old.items) }
{
    write_limits(&it.limits, out)?;
    write_waiting(&it.waiting, out)?;
    write_queue(it.in_hand, out)?;
    Ok(())
}

#[tactic(auto, unfolding(crate::specs::Limits::more))]
fn read_there(alloc: Global, input: &mut Input) -> Result<FileMore, ReadError>
    ensures { Takes more input.old input.new result }
{
    let limits = read_limits(alloc, input)?;
    let waiting = read_waiting(alloc, input)?;
    let in_hand = read_queue(alloc, input)?;
    Ok(FileMore {
        limits,
        waiting,
        in_hand,
    })
}

/// Puts what there is of it at the end.
#[tactic(auto, using(file_format::proofs::Ending::ends_none, file_format::proofs::Ending::ends_some))]
pub fn write_more(it: &FileMore, out: &mut Vec<u8>) -> Result<(), AllocError>
    ensures fits { OnOk result (EndFits end_of_device it.now) }
    ensures bytes { OnOk result (out.new.items ≡ out.old.items ++ end_bytes end_of_device it.now) }
{
    if is_no_more(it) {
        return Ok(());
    }
    write_there(it, out)?;
    Ok(())
}

/// All that is left, as far as there is something.
#[tactic(auto, using(file_format::proofs::Ending::end_none, file_format::proofs::Ending::end_bad, file_format::proofs::Ending::end_long, file_format::proofs::Ending::end_lacks, file_format::proofs::Ending::end_some,))]
pub fn read_more(alloc: Global, input: &mut Input) -> Result<FileMore, ReadError>
    ensures { TakesEnd end_of_device input.old result }
{
    if input.is_empty() {
        return Ok(FileMore {
            limits: RateGate::new(None, None),
            waiting: None,
            in_hand: None,
        });
    }
    match read_there(alloc, input) {
        Ok(it) => {
            if !input.is_empty() {
                return Err(ReadError::Bad);
            }
            if is_no_more(&it) {
                return Err(ReadError::Bad);
            }
            Ok(it)
        }
        Err(error) => Err(error),
    }
}
