// What holds of an entropy device, by what holds of every kind of device with queues.
ghost use Rattle.std.specs.Prelude.{◌≡◌, ◌≤◌, ◌^◌, ℕ, true, List, length, take};
ghost use Rattle.vm_types.specs.declared.entry.Step.{Step};
ghost use Rattle.vm_types.specs.declared.reply.Reply.{Reply};
ghost use Rattle.vm_types.specs.Fits.{Fits};
ghost use Rattle.device_trace.specs.Script.{Ends, Script};
ghost use Rattle.device_trace.specs.States.{LeadsTo, changed_at, stepped, wants};
ghost use Rattle.device_trace.specs.Traces.{Item};
ghost use Rattle.vq_split.specs.declared.queue.Part.{Part};
ghost use Rattle.dev_core.specs.Bytes.{AreParts, addresses};
ghost use Rattle.rate_gate.specs.Gate.{Buckets};
ghost use Rattle.queue_device.specs.declared.lanes.Rounds.{Rounds};
ghost use Rattle.queue_device.specs.declared.phase.Phase.{Phase};
ghost use Rattle.queue_device.specs.Confined.{IsConfined, IsDeviceAct};
ghost use Rattle.queue_device.specs.Kept.{is_state};
ghost use Rattle.queue_device.specs.Left.{left_at, queued};
ghost use Rattle.queue_device.specs.Service.{Queued};
ghost use Rattle.queue_device.specs.Timing.{is_timed_left};
ghost use Rattle.entropy_device.specs.declared.kind.EntropyChange.{EntropyChange};
ghost use Rattle.entropy_device.specs.declared.kind.Stage.{Stage};
ghost use Rattle.entropy_device.specs.Entropy.{Entropy, entropy, entropy_rules, is_word_call, new_entropy};
ghost use Rattle.entropy_device.specs.Sequences.{failing, finish, broken, filled, limits_at, no_limits, refused, start, used_lane, waits};
ghost use Rattle.entropy_device.specs.Words.{filled_length, filling_from};
ghost use Rattle.entropy_device.specs.Work.{EntropyKept, hand_of, is_work};
ghost use Rattle.entropy_device.specs.Written.{Runs, bytes_in, places_in, words_in, written_in};

use crate::kind::EntropyKind;
use queue_device::{queue_goes_on, queue_kept, queue_one, queue_stays};

/// A chain is filled with the words that are given, in their order, the lowest byte of each first and the last one cut at the chain's
/// length, or at 4,096 bytes; they go into its parts from their first byte on. So many bytes were written as it is given back with.
pub fn entropy_does()
    ensures bytes { (parts : List Part) (steps : List Step) (len : ℕ) → AreParts parts →
        Runs (filling_from (filled_length parts) 0 parts) steps len →
        written_in steps ≡ take (filled_length parts) (bytes_in (words_in steps)) }
    ensures places { (parts : List Part) (steps : List Step) (len : ℕ) → AreParts parts →
        Runs (filling_from (filled_length parts) 0 parts) steps len → places_in steps ≡ take len (addresses parts) }
    ensures used { (parts : List Part) (steps : List Step) (len : ℕ) → AreParts parts →
        Runs (filling_from (filled_length parts) 0 parts) steps len → len ≡ length (written_in steps) }
{}

/// Wherever the items of an entropy device lead, it wants an act of its own, a word alone of host objects, or guest time, and in a
/// guest of fewer than 2^32 pages no byte outside RAM.
pub fn entropy_stays()
    ensures { (port pages : ℕ) (limits : Buckets) (items : List (Item EntropyChange)) (left : Script (Queued Entropy)) →
        LeadsTo entropy_rules (new_entropy port pages limits) items left →
        IsDeviceAct (is_timed_left entropy left) is_word_call port pages (wants entropy_rules left) }
{
    queue_stays::<EntropyKind>();
}

/// What is left of an entropy device in a state that it may be in is confined, and tells its data.
pub fn entropy_kept()
    ensures stays { (p : Phase) (r : Rounds) (e : Entropy) (g : Stage) →
        is_state entropy true is_work p r g ≡ true →
        IsConfined entropy is_word_call r.port r.pages (left_at entropy p (hand_of g) (queued r e)) }
    ensures one { (p q : Phase) (r t : Rounds) (e f : Entropy) (g h : Stage) →
        is_state entropy true is_work p r g ≡ true → is_state entropy true is_work q t h ≡ true →
        left_at entropy p (hand_of g) (queued r e) ≡ left_at entropy q (hand_of h) (queued t f) → queued r e ≡ queued t f }
{
    queue_kept::<EntropyKind>();
    queue_one::<EntropyKind>();
}

/// What is kept of an entropy device leads to what is kept of it, in a guest of at most 2^20 pages: at its start, behind each fitting
/// reply, and behind a change.
pub fn entropy_goes_on()
    ensures begins { (port pages : ℕ) (limits : Buckets) → pages ≤ 2 ^ 20 →
        EntropyKept port pages (Ends (new_entropy port pages limits)) }
    ensures reply { (port pages : ℕ) (t : Script (Queued Entropy)) (reply : Reply) → pages ≤ 2 ^ 20 →
        EntropyKept port pages t → Fits (wants entropy_rules t) reply → EntropyKept port pages (stepped entropy_rules t reply) }
    ensures change { (port pages : ℕ) (t : Script (Queued Entropy)) (c : EntropyChange) → pages ≤ 2 ^ 20 →
        EntropyKept port pages t → EntropyKept port pages (changed_at entropy_rules c t) }
{
    queue_goes_on::<EntropyKind>();
}

/// A chain of ten bytes takes two words, and two bytes of the second. Where a word fails, the chain is given back with what was
/// written until then. A chain waits until its bytes have flowed in. One with a part to read breaks the queue, without a question for
/// guest time.
pub fn entropy_sequences()
    ensures filled { LeadsTo entropy_rules (start no_limits) filled (Ends (finish used_lane no_limits)) }
    ensures failing { LeadsTo entropy_rules (start no_limits) failing (Ends (finish used_lane no_limits)) }
    ensures waits { LeadsTo entropy_rules (start (limits_at 0)) waits (Ends (finish used_lane (limits_at 1000))) }
    ensures refused { LeadsTo entropy_rules (start (limits_at 0)) refused (Ends (broken (limits_at 0))) }
{}
