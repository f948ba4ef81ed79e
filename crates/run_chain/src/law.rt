// What the lines of a run's script ask for.
ghost use Rattle.std.specs.Prelude.{◌++◌, ◌≤◌, ℕ, [], None, codes, false, true};
ghost use Rattle.std.specs.Fmt.{decimal};
ghost use Rattle.api_calls.specs.declared.call.ApiCall.TheVariants as call;
ghost use Rattle.api_calls.specs.declared.call.SnapshotType.TheVariants as snapshot;
ghost use Rattle.api_calls.specs.declared.call.VmState.TheVariants as state;
ghost use Rattle.run_chain.specs.Asked.{Asks, boot_body, configure_body, create_body, diff_body, load_body, pause_body, resume_body, start_body};

/// What the lines of the opening bring on an empty connection, and what each asks for.
pub fn requests_arrive()
    ensures boots { Asks (codes "PUT") (codes "/boot-source") boot_body
        (call.PutBootSource (record { kernel_image_path = codes "k"; initrd_path = None; boot_args = [] })) }
    ensures configures { Asks (codes "PUT") (codes "/machine-config") configure_body
        (call.PutMachineConfig (record { vcpu_count = 2; mem_size_mib = 4; track_dirty_pages = true })) }
    ensures starts { Asks (codes "PUT") (codes "/actions") start_body call.InstanceStart }
    ensures pauses { Asks (codes "PATCH") (codes "/vm") pause_body (call.PatchVm state.Paused) }
    ensures resumes { Asks (codes "PATCH") (codes "/vm") resume_body (call.PatchVm state.Resumed) }
    ensures creates { Asks (codes "PUT") (codes "/snapshot/create") create_body
        (call.CreateSnapshot (record {
          files = record { snapshot_path = codes "s0"; mem_file_path = codes "m0" };
          snapshot_type = snapshot.Full;
        })) }
{}

/// And so do the line of a round's diff, and the one that loads the last round's snapshot: there are 64 rounds at most.
pub fn rounds_arrive()
    ensures creates { (i : ℕ) → 1 ≤ i → i ≤ 64 → Asks (codes "PUT") (codes "/snapshot/create") (diff_body i)
        (call.CreateSnapshot (record {
          files = record { snapshot_path = codes "s" ++ decimal i; mem_file_path = codes "d" ++ decimal i };
          snapshot_type = snapshot.Diff;
        })) }
    ensures loads { (i : ℕ) → 1 ≤ i → i ≤ 64 → Asks (codes "PUT") (codes "/snapshot/load") (load_body i)
        (call.LoadSnapshot (record {
          files = record { snapshot_path = codes "s" ++ decimal i; mem_file_path = codes "m0" };
          track_dirty_pages = false;
          resume_vm = false;
        })) }
{}
