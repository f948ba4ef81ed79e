// What holds of every machine and script.
ghost use Rattle.std.specs.Prelude.{[], ◌≡◌, ◌≢◌, ◌*◌, ℕ, List, Ok, Some, length};
ghost use Rattle.vm_types.specs.declared.exit.Exit.{Exit};
ghost use Rattle.vm_types.specs.declared.exit.Object.{Object};
ghost use Rattle.vm_types.specs.Saved.{Saved};
ghost use Rattle.vm_outside.specs.Calls.{FileCall};
ghost use Rattle.http_stream.specs.Conversation.{IsQuiet};
ghost use Rattle.http_stream.specs.declared.request.Next.{Next};
ghost use Rattle.flat_machine.specs.Between.{GoesOn};
ghost use Rattle.flat_machine.specs.Machine.{Machine, devices_of, new_machine};
ghost use Rattle.flat_machine.specs.Outcome.{Outcome};
ghost use Rattle.flat_machine.specs.Outcome.Outcome.{Answered};
ghost use Rattle.flat_machine.specs.Ready.{CanBeCopied, Ready};
ghost use Rattle.flat_machine.specs.Replay.{IsReplay};
ghost use Rattle.flat_machine.specs.Run.{Act, AllAnswered, AllKeepNone, Run, SameKept};
ghost use Rattle.flat_machine.specs.Stops.{IsStopped};
ghost use Rattle.api_calls.specs.declared.call.SnapshotCreate.{SnapshotCreate};
ghost use Rattle.api_calls.specs.declared.call.SnapshotType.TheVariants as snapshot;
ghost use Rattle.api_calls.specs.declared.call.SnapshotLoad.{SnapshotLoad};
ghost use Rattle.api_calls.specs.declared.call.ApiCall.TheVariants as call;
ghost use Rattle.guest_memory.specs.Ram.{page_size};
ghost use Rattle.guest_devices.specs.declared.device.Device.{Device};
ghost use Rattle.flat_guest.specs.Changes.{reset_guest};
ghost use Rattle.flat_guest.specs.Guest.{Guest};
ghost use Rattle.responses.specs.Responses.{Response};
ghost use Rattle.snap_state.specs.declared.copy.StateCopy.{StateCopy};
ghost use Rattle.flat_snapshot.specs.Bytes.{AreBytes};
ghost use Rattle.flat_snapshot.specs.Copies.{IsCopyOf};
ghost use Rattle.flat_snapshot.specs.Found.{found};
ghost use Rattle.flat_machine.specs.Requests.{Creates, Leaves, RequestStep, carried, next_identity};

/// A run is determined: acts from one machine write one text and leave one machine.
pub fn one_run()
    ensures text { (acts : List Act) (m n k : Machine) (t u : List ℕ) → Run acts m t n → Run acts m u k → t ≡ u }
    ensures after { (acts : List Act) (m n k : Machine) (t u : List ℕ) → Run acts m t n → Run acts m u k → n ≡ k }
{}

/// A replay in which the machine answers every request is determined, by the script, the machine at the start, and what was
/// kept of the devices in each snapshot that was written.
pub fn one_replay()
    ensures acts { (script : List ℕ) (m n k : Machine) (acts others : List Act) (exit stop : Exit) (t u : List ℕ) →
        AllAnswered acts → AllAnswered others → SameKept acts others →
        IsReplay script m acts exit t n → IsReplay script m others stop u k → acts ≡ others }
    ensures exit { (script : List ℕ) (m n k : Machine) (acts others : List Act) (exit stop : Exit) (t u : List ℕ) →
        AllAnswered acts → AllAnswered others → SameKept acts others →
        IsReplay script m acts exit t n → IsReplay script m others stop u k → exit ≡ stop }
    ensures text { (script : List ℕ) (m n k : Machine) (acts others : List Act) (exit stop : Exit) (t u : List ℕ) →
        AllAnswered acts → AllAnswered others → SameKept acts others →
        IsReplay script m acts exit t n → IsReplay script m others stop u k → t ≡ u }
    ensures after { (script : List ℕ) (m n k : Machine) (acts others : List Act) (exit stop : Exit) (t u : List ℕ) →
        AllAnswered acts → AllAnswered others → SameKept acts others →
        IsReplay script m acts exit t n → IsReplay script m others stop u k → n ≡ k }
{}

/// A machine without devices keeps nothing of them, whatever it is asked. A machine that has started always has as many of
/// them, so a run that leaves one without devices kept nothing.
pub fn no_devices()
    ensures request { (m n : Machine) (kept : List Device) (given : Next) (said : List Response) →
        devices_of m.guest ≡ [] → RequestStep (Answered kept) given m said n → kept ≡ [] }
    ensures run { (acts : List Act) (m n : Machine) (text : List ℕ) → Run acts m text n → devices_of n.guest ≡ [] →
        AllKeepNone acts }
{}

/// Every script has a replay from a machine that has not started, whatever bytes the files hold and whatever calls were
/// made on them: the flat machine is never stuck.
pub fn some_replay()
    ensures { (script id : List ℕ) (saved : Saved) (calls : List FileCall) → AreBytes saved →
        (acts : List Act) × (exit : Exit) × (text : List ℕ) × (end : Machine) × AllAnswered acts
        × IsReplay script (new_machine id saved calls) acts exit text end }
{}

/// Between two lines nothing is due on the connection; so where a host object failed, whole lines were answered, and
/// no request of the line that was next.
pub fn whole_lines()
    ensures quiet { (acts : List Act) (id : List ℕ) (saved : Saved) (calls : List FileCall)
        (text : List ℕ) (n : Machine) →
        Run acts (new_machine id saved calls) text n → IsQuiet n.connection }
    ensures fault { (script id : List ℕ) (saved : Saved) (calls : List FileCall) (acts : List Act) (part : List Outcome)
        (name : Object) (text : List ℕ) (end : Machine) →
        IsStopped script (new_machine id saved calls) acts part (Exit.Fault name) text end → part ≡ [] }
{}

/// The two files that a full create wrote of a copy of the guest, as it is behind a Reset, are loaded as the machine of that copy,
/// by any machine whose files hold what they held then: the load finds this snapshot, so that the files don't refuse it, and the
/// machine's guest, its configuration and its identity are the copy's, and the rest is its own. The memory is all of the copy's
/// pages.
pub fn create_then_load()
    ensures finds { (m n k : Machine) (g : Guest) (it : SnapshotCreate) (load : SnapshotLoad) (copy : StateCopy) →
        it.snapshot_type ≡ snapshot.Full → m.guest ≡ Some g → it.files.mem_file_path ≢ it.files.snapshot_path →
        IsCopyOf m.config (reset_guest g) copy → length g.memory.bytes ≡ page_size * copy.pages →
        Creates m.guest m it copy.devices n → load.files ≡ it.files → k.saved ≡ n.saved →
        found k.saved load.files ≡ Ok (record { identity = next_identity m; copy = copy; bytes = g.memory.bytes }) }
    ensures loads { (m n k p : Machine) (g : Guest) (it : SnapshotCreate) (load : SnapshotLoad) (copy : StateCopy) →
        it.snapshot_type ≡ snapshot.Full → m.guest ≡ Some g → it.files.mem_file_path ≢ it.files.snapshot_path →
        IsCopyOf m.config (reset_guest g) copy → length g.memory.bytes ≡ page_size * copy.pages →
        Creates m.guest m it copy.devices n → load.files ≡ it.files → k.saved ≡ n.saved →
        Leaves k (call.LoadSnapshot load) p →
        p ≡ carried k load (record { identity = next_identity m; copy = copy; bytes = g.memory.bytes }) }
{}

/// A machine that has started keeps its guest over any run, with as many devices, and gives no number of a snapshot again.
/// Between two creates of it, whatever else the run does, a page that is unwritten is as it was.
pub fn between_creates()
    ensures { (acts : List Act) (m n : Machine) (text : List ℕ) (g : Guest) →
        m.guest ≡ Some g → Run acts m text n → GoesOn g m n }
{}

/// A machine that a run leads to from one that has not started is ready, and stays so. Each copy of the guest of a ready
/// machine, as it is behind a Reset, passes every test of a state file, and its pages are all of the guest's memory.
pub fn every_run_ready()
    ensures ready { (acts : List Act) (id : List ℕ) (saved : Saved) (calls : List FileCall) (text : List ℕ) (n : Machine) →
        Run acts (new_machine id saved calls) text n → Ready n }
    ensures stays { (acts : List Act) (m n : Machine) (text : List ℕ) → Ready m → Run acts m text n → Ready n }
    ensures copied { (m : Machine) → Ready m → CanBeCopied m }
{}
