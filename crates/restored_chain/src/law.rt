// What holds of every chain of creates, merges and a load.
ghost use Rattle.std.specs.Prelude.{[], ◌∷◌, ◌≡◌, ℕ, List, None, Option, Some};
ghost use Rattle.http_stream.specs.Stream.{Connection};
ghost use Rattle.api_calls.specs.declared.call.SnapshotLoad.{SnapshotLoad};
ghost use Rattle.api_rules.specs.Answers.{no_content};
ghost use Rattle.script_text.specs.declared.item.Item.{Item};
ghost use Rattle.responses.specs.Responses.{Response};
ghost use Rattle.snapshot_merge.specs.InOrder.{MergeAll};
ghost use Rattle.snapshot_chain.specs.Chains.{Saving, snapshot_of};
ghost use Rattle.flat_machine.specs.Machine.{Machine};
ghost use Rattle.flat_machine.specs.Requests.{carried, respond};
ghost use Rattle.flat_machine.specs.Run.{Act, Run};
ghost use Rattle.flat_trace.specs.Events.{quiet_act};
ghost use Rattle.flat_trace.specs.Showing as trace;
ghost use Rattle.flat_trace.specs.Showing.{Out};
ghost use Rattle.alike_runs.specs.Alike.{Alike, as_loaded};
ghost use Rattle.alike_runs.specs.Twins.{Twins};
ghost use Rattle.restored_chain.specs.Merged.{MergeCalls};
ghost use Rattle.restored_chain.specs.Restored.{IsRestored};

use flat_trace::every_trace_ready;

/// Calls of the merge command that were done, one after another, into one base, merge their files in order: what the last of
/// them left is what `snapshot_merge` makes of what the first found.
pub fn calls_merge()
    ensures { (base : List ℕ) (files : List (List ℕ)) (text : List ℕ) (left : Option (List ℕ)) →
        MergeCalls base files (Some text) left → (merged : List ℕ) × (left ≡ Some merged) × MergeAll text files merged }
{}

/// The load is answered No Content, and makes the machine of the snapshot that the last create made. That machine, and the one
/// that the last create left, with what a load doesn't carry as the load has it, are alike on one connection. So each later
/// list that begins on a new connection, and each trace, goes on the same from both, whoever goes first, and leaves them alike.
pub fn restored_chain()
    ensures loads { (first : Saving) (savings : List Saving) (last : Saving) (k : Machine) (load : SnapshotLoad)
        (said : List Response) (p : Machine) (is : IsRestored first savings last k load said p) →
        (said ≡ respond is.given no_content) × (p ≡ carried k load (snapshot_of last)) }
    ensures alike { (first : Saving) (savings : List Saving) (last : Saving) (k : Machine) (load : SnapshotLoad)
        (said : List Response) (p : Machine) (c : Connection) → IsRestored first savings last k load said p →
        Alike [] (record (as_loaded last.after k load) { connection = c }) (record p { connection = c }) }
    ensures forth { (first : Saving) (savings : List Saving) (last : Saving) (k : Machine) (load : SnapshotLoad)
        (said : List Response) (p : Machine) (acts : List Act) (text : List ℕ) (end : Machine) →
        IsRestored first savings last k load said p →
        Run (quiet_act Item.Connect ∷ acts) (as_loaded last.after k load) text end →
        (other : Machine) × (twins : List Twins) × Run (quiet_act Item.Connect ∷ acts) p text other × Alike twins end other }
    ensures back { (first : Saving) (savings : List Saving) (last : Saving) (k : Machine) (load : SnapshotLoad)
        (said : List Response) (p : Machine) (acts : List Act) (text : List ℕ) (other : Machine) →
        IsRestored first savings last k load said p → Run (quiet_act Item.Connect ∷ acts) p text other →
        (end : Machine) × (twins : List Twins)
        × Run (quiet_act Item.Connect ∷ acts) (as_loaded last.after k load) text end × Alike twins end other }
    ensures trace_forth { (first : Saving) (savings : List Saving) (last : Saving) (k : Machine) (load : SnapshotLoad)
        (said : List Response) (p : Machine) (acts : List Act) (outs : List Out) (end : Machine) →
        IsRestored first savings last k load said p →
        trace.Run (quiet_act Item.Connect ∷ acts) (as_loaded last.after k load) outs end →
        (other : Machine) × (twins : List Twins)
        × trace.Run (quiet_act Item.Connect ∷ acts) p outs other × Alike twins end other }
    ensures trace_back { (first : Saving) (savings : List Saving) (last : Saving) (k : Machine) (load : SnapshotLoad)
        (said : List Response) (p : Machine) (acts : List Act) (outs : List Out) (other : Machine) →
        IsRestored first savings last k load said p → trace.Run (quiet_act Item.Connect ∷ acts) p outs other →
        (end : Machine) × (twins : List Twins)
        × trace.Run (quiet_act Item.Connect ∷ acts) (as_loaded last.after k load) outs end × Alike twins end other }
{
    every_trace_ready();
}
