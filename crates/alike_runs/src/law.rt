// What holds of machines that are alike.
ghost use Rattle.std.specs.Prelude.{[], ◌++◌, ◌<◌, ◌^◌, ◌≡◌, ℕ, List, Some, true};
ghost use Rattle.vm_types.specs.Saved.{Saved};
ghost use Rattle.vm_outside.specs.Calls.{FileCall};
ghost use Rattle.http_stream.specs.Stream.{Connection};
ghost use Rattle.api_calls.specs.declared.call.SnapshotCreate.{SnapshotCreate};
ghost use Rattle.api_calls.specs.declared.call.SnapshotLoad.{SnapshotLoad};
ghost use Rattle.flat_guest.specs.Changes.{reset_guest};
ghost use Rattle.flat_guest.specs.Guest.{Guest, unwritten};
ghost use Rattle.flat_guest.specs.Same.{AreAlike};
ghost use Rattle.snap_state.specs.declared.copy.StateCopy.{StateCopy};
ghost use Rattle.flat_snapshot.specs.Carried.{carried_guest};
ghost use Rattle.flat_snapshot.specs.Copies.{IsCopyOf};
ghost use Rattle.flat_machine.specs.Machine.{Machine, new_machine};
ghost use Rattle.flat_machine.specs.Ready.{Ready};
ghost use Rattle.flat_machine.specs.Requests.{Creates, carried, next_identity};
ghost use Rattle.flat_machine.specs.Run.{Act, Run};
ghost use Rattle.flat_trace.specs.Showing as trace;
ghost use Rattle.flat_trace.specs.Showing.{Out};
ghost use Rattle.alike_runs.specs.Alike.{Alike, as_loaded};
ghost use Rattle.alike_runs.specs.Twins.{Twins};

/// Each run of a machine is one of any machine that is alike: of the same acts, with the same text, and it leaves them alike.
/// Nothing is asked of the acts. What they save is the same, but for the lineages of the snapshots that both made.
pub fn any_later_run()
    ensures forth { (acts : List Act) (twins : List Twins) (m n k : Machine) (text : List ℕ) → Alike twins m n →
        Run acts m text k →
        (l : Machine) × (more : List Twins) × Run acts n text l × Alike (more ++ twins) k l }
    ensures back { (acts : List Act) (twins : List Twins) (m n l : Machine) (text : List ℕ) → Alike twins m n →
        Run acts n text l →
        (k : Machine) × (more : List Twins) × Run acts m text k × Alike (more ++ twins) k l }
{}

/// And so is each run over a trace, which shows the same.
pub fn any_later_trace()
    ensures forth { (acts : List Act) (twins : List Twins) (m n k : Machine) (outs : List Out) → Alike twins m n →
        trace.Run acts m outs k →
        (l : Machine) × (more : List Twins) × trace.Run acts n outs l × Alike (more ++ twins) k l }
    ensures back { (acts : List Act) (twins : List Twins) (m n l : Machine) (outs : List Out) → Alike twins m n →
        trace.Run acts n outs l →
        (k : Machine) × (more : List Twins) × trace.Run acts m outs k × Alike (more ++ twins) k l }
{}

/// A machine that has started, and that a run or a trace leads to from one that had not, is configured.
pub fn started_is_configured()
    ensures run { (acts : List Act) (id : List ℕ) (saved : Saved) (calls : List FileCall) (text : List ℕ) (n : Machine) (g : Guest) →
        Run acts (new_machine id saved calls) text n → n.guest ≡ Some g → n.config.configured ≡ true }
    ensures traced { (acts : List Act) (id : List ℕ) (saved : Saved) (calls : List FileCall) (outs : List Out) (n : Machine)
        (g : Guest) → trace.Run acts (new_machine id saved calls) outs n → n.guest ≡ Some g → n.config.configured ≡ true }
{}

/// A machine that saved its guest, and one that loads what it saved, are alike, on one connection; with what a load doesn't
/// carry as the load has it, where the lineage of the one that loads has 64 bits. The machine is one that a run or a trace
/// leads to, and so it is ready and configured; and its guest goes on as the one that was saved, which
/// `snapshot_chain::answered_creates` says where the guest is on.
pub fn saved_is_loaded()
    ensures { (m n k : Machine) (g : Guest) (it : SnapshotCreate) (load : SnapshotLoad) (copy : StateCopy) (c : Connection) →
        Ready m → m.config.configured ≡ true → k.ids.lineage < 2 ^ 64 → m.guest ≡ Some g →
        IsCopyOf m.config (reset_guest g) copy → Creates m.guest m it copy.devices n →
        AreAlike (unwritten (reset_guest g)) (carried_guest copy g.memory.bytes) →
        Alike [] (record (as_loaded n k load) { connection = c })
        (record (carried k load (record { identity = next_identity m; copy = copy; bytes = g.memory.bytes })) { connection = c }) }
{}
