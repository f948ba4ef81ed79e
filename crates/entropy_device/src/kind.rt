// What an entropy device does, beside its rounds.
ghost use Rattle.std.specs.Prelude.{ℕ, ◌≡◌, ◌<◌, ◌≤◌, ◌-◌, ◌*◌, true, length};
ghost use Rattle.vm_types.specs.declared.reply.Reply.{Reply};
ghost use Rattle.device_trace.specs.Doing.{led};
ghost use Rattle.vq_split.specs.Kept.{are_inside};
ghost use Rattle.dev_core.specs.Pieces.{past, share};
ghost use Rattle.queue_device.specs.Acting.{Works, performing};
ghost use Rattle.queue_device.specs.Kept.{work_after};
ghost use Rattle.queue_device.specs.Spilling.{spill_left};
ghost use Rattle.queue_device.specs.declared.lanes.Which.{Which};
ghost use Rattle.queue_device.specs.declared.phase.Work.TheVariants as work;
ghost use Rattle.entropy_device.specs.declared.kind.Stage.TheVariants.{Rest};
ghost use Rattle.entropy_device.specs.Entropy.{filled};
ghost use Rattle.entropy_device.specs.Words.{before, filled_length, filling_from, word_bytes, word_count, writing};
ghost use Rattle.entropy_device.specs.Work.{IsWord, hand_of, is_stage, is_word, is_work, kept_from};

use dev_core::{Held, Scatter, total};
use le_fields::put64;
use queue_device::{Spill, parts_again};
use rate_gate::RateGate;
use std::marker::Model;
use vm_types::Piece;
use vq_split::PartList;

/// A chain is filled with no more bytes.
const MOST_BYTES: u64 = 4096;

/// How many bytes a word has.
pub(crate) const WORD_SIZE: u32 = 8;

/// What the API may change of an entropy device, which is nothing.
#[derive(Drop)]
pub struct EntropyChange;

/// What an entropy device is at. Chains are filled with so many bytes, by a word of this number.
#[derive(Drop)]
pub enum Stage {
    Rest,
    /// The word is asked for.
    Draw(u32, u32, Scatter),
    /// Its bytes are written.
    Write(u32, u32, Spill),
}

/// An entropy device: its limits, and its work.
#[derive(Drop)]
pub struct EntropyKind {
    pub(crate) limits: RateGate,
    pub(crate) stage: Stage,
}

impl Model for EntropyKind {
    ghost use Rattle.entropy_device.specs.Entropy.{Entropy};
    ghost use Rattle.entropy_device.specs.Work.{IsStage, Kept};

    ghost Value = { Kept };

    ghost view = { λ e. record { own = record { limits = e.limits }; stage = e.stage } };

    ghost invariant = { λ e. IsStage e.stage };
}

/// How many bytes of a chain of these parts are filled.
pub(crate) fn filled_length(parts: &PartList) -> u32
    ensures length { result ≡ filled_length parts.now }
    ensures most { result ≤ 4096 }
{
    MOST_BYTES.min(total(parts.as_slice())) as u32
}

/// How many words so many bytes take.
pub(crate) fn word_count(length: u32) -> u32
    requires { length ≤ 4096 }
    ensures count { result ≡ word_count length }
    ensures most { result ≤ 512 }
{
    (length + 7) / WORD_SIZE
}

// The bytes of a word, cut to what is left.
#[tactic(auto, using(crate::proofs::Resuming::word_short))]
fn word_bytes(len: u32, index: u32, word: u64) -> Piece
    requires { IsWord len index }
    ensures bytes { result ≡ word_bytes len index word }
    ensures most { length result ≤ 8 }
{
    let mut bytes = [0; 8];
    put64(&mut bytes, 0, word);
    let left = WORD_SIZE.min(len - WORD_SIZE * index) as usize;
    Piece::from_slice(&bytes[..left])
}

// The bytes of a word, for these parts.
pub(crate) fn spilled(len: u32, index: u32, word: u64, to: Scatter) -> Spill
    requires { IsWord len index }
    ensures spill { result ≡ record { held = word_bytes len index word; to = to } }
    ensures most { length result.held ≤ 8 }
{
    let mut held = Held::new();
    held.append(&word_bytes(len, index, word));
    Spill { held, to }
}

// What is left of a spill behind its next piece.
#[tactic(auto, using(queue_device::proofs::Spilling::spill_on))]
pub(crate) fn without_piece(spill: Spill) -> Spill
    requires some { 0 < share spill.held spill.to }
    requires few { length spill.held ≤ 8 }
    ensures left { (reply : Reply) → spill_left result ≡ led (spill_left spill) reply }
    ensures to { result.to ≡ past (share spill.held spill.to) spill.to }
    ensures few { length result.held ≤ 8 }
{
    let mut rest = spill;
    let piece = rest.share();
    rest.held.skip(piece);
    rest.to.pass(piece);
    rest
}

// Whether one of so many bytes has a word of this number.
fn is_word(length: u32, index: u32) -> bool
    ensures { result ≡ is_word length index }
{
    length <= 4096 && index < word_count(length)
}

// Whether there is something to want.
pub(crate) fn is_stage(stage: &Stage) -> bool
    ensures { result ≡ is_stage stage.now }
{
    match stage {
        Stage::Rest => true,
        Stage::Draw(length, index, _) => is_word(*length, *index),
        Stage::Write(length, index, spill) => {
            is_word(*length, *index) && 0 < spill.share() && spill.held.as_slice().len() <= 8
        }
    }
}

impl EntropyKind {
    /// An entropy device with these limits.
    pub fn new(limits: RateGate) -> EntropyKind
        ensures { result ≡ record { own = record { limits = limits }; stage = Rest } }
    {
        EntropyKind {
            limits,
            stage: Stage::Rest,
        }
    }

    /// The entropy device that keeps these, if one may be at this stage.
    #[tactic(auto, using(crate::proofs::Stages::stage_of))]
    pub fn from_parts(limits: RateGate, stage: Stage) -> Option<EntropyKind>
        ensures { result ≡ kept_from (record { own = record { limits = limits }; stage = stage }) }
    {
        if is_stage(&stage) {
            Some(EntropyKind { limits, stage })
        } else {
            None
        }
    }

    /// How much it may give.
    pub fn limits(&self) -> &RateGate
        ensures { result.now ≡ self.now.own.limits }
    {
        &self.limits
    }

    /// What it is at, where one may be.
    #[tactic(auto, using(crate::proofs::Stages::test_of_stage))]
    pub fn stage(&self) -> &Stage
        ensures stage { result.now ≡ self.now.stage }
        ensures is { is_stage self.now.stage ≡ true }
    {
        &self.stage
    }

    // The word of this number is asked for, as long as there is one.
    #[tactic(auto, using(crate::proofs::Working::drawn, crate::proofs::Working::draws, crate::proofs::Staying::draw_more))]
    pub(crate) fn draw(&mut self, length: u32, index: u32, to: Scatter) -> Option<Option<u32>>
        requires most { length ≤ 4096 }
        requires rest { self.old.stage ≡ Rest }
        ensures works { Works (performing (filling_from length index to) self.old.own filled)
            result self.new.own (hand_of self.new.stage).op (hand_of self.new.stage).serving }
        ensures work { (pages : ℕ) (k : Which) → are_inside pages to ≡ true →
            is_work (work_after result (work.Serve k)) pages self.new.stage ≡ true }
    {
        if index >= word_count(length) {
            return Some(Some(length));
        }
        let _parts = to.parts();
        self.stage = Stage::Draw(length, index, to);
        None
    }

    // The bytes of that word are written, as long as there are some, and the next is asked for.
    #[tactic(auto, using(crate::proofs::Working::written, crate::proofs::Working::writes, crate::proofs::Staying::write_more))]
    pub(crate) fn write(&mut self, len: u32, index: u32, spill: Spill) -> Option<Option<u32>>
        requires word { IsWord len index }
        requires few { length spill.held ≤ 8 }
        requires rest { self.old.stage ≡ Rest }
        ensures works { Works (performing (writing len index spill.held spill.to) self.old.own filled)
            result self.new.own (hand_of self.new.stage).op (hand_of self.new.stage).serving }
        ensures work { (pages : ℕ) (k : Which) → are_inside pages spill.to ≡ true →
            is_work (work_after result (work.Serve k)) pages self.new.stage ≡ true }
    {
        if spill.is_done() {
            let Spill { held: _, to } = spill;
            return self.draw(len, index + 1, to);
        }
        let _parts = spill.to.parts();
        self.stage = Stage::Write(len, index, spill);
        None
    }
}

// ---- once more

fn spill_again(spill: &Spill) -> Spill
    ensures { result ≡ spill.now }
{
    let held = Held::copy_of(spill.held.as_slice()).unwrap();
    Spill::new(held, parts_again(spill.to.parts()))
}

pub(crate) fn stage_again(stage: &Stage) -> Stage
    ensures { result ≡ stage.now }
{
    match stage {
        Stage::Rest => Stage::Rest,
        Stage::Draw(length, index, to) => {
            Stage::Draw(*length, *index, Scatter::new(parts_again(to.parts())))
        }
        Stage::Write(length, index, spill) => Stage::Write(*length, *index, spill_again(spill)),
    }
}
