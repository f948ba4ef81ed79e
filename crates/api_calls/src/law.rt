// What holds of every call that the tables let through.
ghost use Rattle.std.specs.Prelude.{◌≡◌, ◌≢◌, ◌<◌, ◌≤◌, ◌^◌, ℕ, true, length, Ok, Some};
ghost use Rattle.std.specs.Str.{is_utf8};
ghost use Rattle.http_stream.specs.declared.request.Request.{Request};
ghost use Rattle.api_calls.specs.declared.call.ApiCall.TheVariants as call;
ghost use Rattle.api_calls.specs.declared.balloon.Balloon.{Balloon};
ghost use Rattle.api_calls.specs.declared.balloon.StatisticsPatch.{StatisticsPatch};
ghost use Rattle.api_calls.specs.declared.call.BootSource.{BootSource};
ghost use Rattle.api_calls.specs.declared.call.Drive.{Drive};
ghost use Rattle.api_calls.specs.declared.call.DrivePatch.{DrivePatch};
ghost use Rattle.api_calls.specs.declared.call.MachineConfig.{MachineConfig};
ghost use Rattle.api_calls.specs.declared.call.MachinePatch.{MachinePatch};
ghost use Rattle.api_calls.specs.declared.call.SnapshotCreate.{SnapshotCreate};
ghost use Rattle.api_calls.specs.declared.call.SnapshotLoad.{SnapshotLoad};
ghost use Rattle.api_calls.specs.declared.entropy.Entropy.{Entropy};
ghost use Rattle.api_calls.specs.declared.interface.Interface.{Interface};
ghost use Rattle.api_calls.specs.declared.interface.InterfacePatch.{InterfacePatch};
ghost use Rattle.api_calls.specs.declared.mmds.MmdsConfig.{MmdsConfig};
ghost use Rattle.api_calls.specs.declared.vsock.Vsock.{Vsock};
ghost use Rattle.api_calls.specs.Addresses.{is_small_mac};
ghost use Rattle.api_calls.specs.Form.{are_ids, holds, is_address, is_id, is_path};
ghost use Rattle.api_calls.specs.Limits.{is_limiter};
ghost use Rattle.api_calls.specs.Call.{call_of};

/// What a create and a load ask for: a create names two files whose names differ, and each name in either call is one
/// of 1 to 4,095 bytes without a NUL.
pub fn paths_differ()
    ensures differ { (r : Request) (it : SnapshotCreate) → call_of r ≡ Ok (call.CreateSnapshot it) →
        it.files.mem_file_path ≢ it.files.snapshot_path }
    ensures paths { (r : Request) (it : SnapshotCreate) → call_of r ≡ Ok (call.CreateSnapshot it) →
        (is_path it.files.snapshot_path ≡ true) × (is_path it.files.mem_file_path ≡ true) }
    ensures loaded { (r : Request) (load : SnapshotLoad) → call_of r ≡ Ok (call.LoadSnapshot load) →
        (is_path load.files.snapshot_path ≡ true) × (is_path load.files.mem_file_path ≡ true) }
{}

/// What a PUT and a PATCH of a drive name: an id of 1 to 64 letters and digits of ASCII and `_`, and a file by a name of 1
/// to 4,095 bytes without a NUL, which a PATCH may leave out.
pub fn drives_are_named()
    ensures put { (r : Request) (drive : Drive) → call_of r ≡ Ok (call.PutDrive drive) →
        (is_id drive.drive_id ≡ true) × (is_path drive.path_on_host ≡ true) }
    ensures patch { (r : Request) (patch : DrivePatch) → call_of r ≡ Ok (call.PatchDrive patch) →
        (is_id patch.drive_id ≡ true) × (holds is_path patch.path_on_host ≡ true) }
{}

/// What a PUT and a PATCH of a network interface name: an id of 1 to 64 letters and digits of ASCII and `_`, a link by a name
/// of 1 to 4,095 bytes without a NUL, and an address in six pairs of small hexadecimal digits, which may be left out.
pub fn interfaces_are_named()
    ensures put { (r : Request) (interface : Interface) → call_of r ≡ Ok (call.PutInterface interface) →
        (is_id interface.iface_id ≡ true) × (is_path interface.host_dev_name ≡ true)
        × (holds is_small_mac interface.guest_mac ≡ true) }
    ensures patch { (r : Request) (patch : InterfacePatch) → call_of r ≡ Ok (call.PatchInterface patch) →
        is_id patch.iface_id ≡ true }
{}

/// Limits of a drive, of an interface or of the entropy device have buckets of fewer than 2^48 tokens, of a refill time below 2^32 milliseconds,
/// and of a burst below 2^48.
pub fn limits_are_bounded()
    ensures drive { (r : Request) (drive : Drive) → call_of r ≡ Ok (call.PutDrive drive) →
        holds is_limiter drive.rate_limiter ≡ true }
    ensures drive_patch { (r : Request) (patch : DrivePatch) → call_of r ≡ Ok (call.PatchDrive patch) →
        holds is_limiter patch.rate_limiter ≡ true }
    ensures interface { (r : Request) (interface : Interface) → call_of r ≡ Ok (call.PutInterface interface) →
        (holds is_limiter interface.rx_rate_limiter ≡ true) × (holds is_limiter interface.tx_rate_limiter ≡ true) }
    ensures interface_patch { (r : Request) (patch : InterfacePatch) → call_of r ≡ Ok (call.PatchInterface patch) →
        (holds is_limiter patch.rx_rate_limiter ≡ true) × (holds is_limiter patch.tx_rate_limiter ≡ true) }
    ensures entropy { (r : Request) (entropy : Entropy) → call_of r ≡ Ok (call.PutEntropy entropy) →
        holds is_limiter entropy.rate_limiter ≡ true }
{}

/// The CID of a vsock device is from 3 to 2^32 - 2, and its socket has a name of 1 to 4,095 bytes without a NUL.
pub fn sockets_are_named()
    ensures { (r : Request) (vsock : Vsock) → call_of r ≡ Ok (call.PutVsock vsock) →
        (3 ≤ vsock.guest_cid) × (vsock.guest_cid ≤ 4294967294) × (is_path vsock.uds_path ≡ true) }
{}

/// A balloon's reports have fewer than 2^16 seconds between them.
pub fn reports_are_near()
    ensures put { (r : Request) (balloon : Balloon) → call_of r ≡ Ok (call.PutBalloon balloon) →
        balloon.stats_polling_interval_s < 2 ^ 16 }
    ensures patch { (r : Request) (patch : StatisticsPatch) → call_of r ≡ Ok (call.PatchStatistics patch) →
        patch.stats_polling_interval_s < 2 ^ 16 }
{}

/// Metadata are given at interfaces by their ids, of which there are 1 to 16, and at an address from 169.254.1.0 to
/// 169.254.254.255.
pub fn metadata_have_a_place()
    ensures { (r : Request) (mmds : MmdsConfig) → call_of r ≡ Ok (call.PutMmdsConfig mmds) →
        (are_ids mmds.network_interfaces ≡ true) × (is_address mmds.ipv4_address ≡ true) }
{}

/// What a machine boots: files by names of 1 to 4,095 bytes without a NUL, the second of which may be left out, and at most
/// 2,048 bytes of arguments, in UTF-8.
pub fn sources_are_short()
    ensures short { (r : Request) (source : BootSource) → call_of r ≡ Ok (call.PutBootSource source) →
        (is_path source.kernel_image_path ≡ true) × (holds is_path source.initrd_path ≡ true)
        × (length source.boot_args ≤ 2048) }
    ensures text { (r : Request) (source : BootSource) → call_of r ≡ Ok (call.PutBootSource source) →
        is_utf8 source.boot_args ≡ true }
{}

/// A machine has 1 to 32 harts and 4 to 4,096 MiB of memory, by a PUT and by what a PATCH gives.
pub fn machines_are_in_range()
    ensures harts { (r : Request) (machine : MachineConfig) → call_of r ≡ Ok (call.PutMachineConfig machine) →
        (1 ≤ machine.vcpu_count) × (machine.vcpu_count ≤ 32) }
    ensures mib { (r : Request) (machine : MachineConfig) → call_of r ≡ Ok (call.PutMachineConfig machine) →
        (4 ≤ machine.mem_size_mib) × (machine.mem_size_mib ≤ 4096) }
    ensures patched_harts { (r : Request) (patch : MachinePatch) (n : ℕ) →
        call_of r ≡ Ok (call.PatchMachineConfig patch) → patch.vcpu_count ≡ Some n → (1 ≤ n) × (n ≤ 32) }
    ensures patched_mib { (r : Request) (patch : MachinePatch) (n : ℕ) →
        call_of r ≡ Ok (call.PatchMachineConfig patch) → patch.mem_size_mib ≡ Some n → (4 ≤ n) × (n ≤ 4096) }
{}
