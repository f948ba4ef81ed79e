// The calls of the API, in the table's order.
ghost use Rattle.std.specs.Prelude.{◌≡◌};

use crate::balloon::{Balloon, BalloonPatch, StatisticsPatch};
use crate::entropy::Entropy;
use crate::interface::{Interface, InterfacePatch};
use crate::limiter::Limiter;
use crate::mmds::MmdsConfig;
use crate::vsock::Vsock;
use metadata_store::Tree;
use vm_types::TextList;

/// What a GET tells.
#[derive(Clone, Copy, Drop)]
pub enum Part {
    /// GET /: the id of the machine, its phase and its version.
    Instance,
    /// GET /version
    Version,
    /// GET /machine-config
    MachineConfig,
    /// GET /mmds: the metadata.
    Metadata,
    /// GET /vm/config: all that is configured.
    VmConfig,
    /// GET /balloon: what is configured of the balloon.
    Balloon,
    /// GET /balloon/statistics: what its device and its driver say.
    Statistics,
}

/// What the machine boots.
#[derive(Drop)]
pub struct BootSource {
    /// The name of the kernel image's file, of 1 to 4,095 bytes.
    pub kernel_image_path: TextList,
    /// The name of the initial RAM disk's file, of 1 to 4,095 bytes.
    pub initrd_path: Option<TextList>,
    /// What the kernel is told on its command line, of at most 2,048 bytes.
    pub boot_args: TextList,
}

/// Whether a drive offers its guest to flush what it wrote (VIRTIO 1.2, 5.2.3).
#[derive(Clone, Copy, Drop)]
pub enum CacheType {
    /// It doesn't.
    Unsafe,
    /// It does.
    Writeback,
}

impl CacheType {
    ghost use Rattle.api_calls.specs.Drives.{cache_text};

    /// How a request, a text and a file say it.
    pub fn text(self) -> &'static str
        ensures { result.now ≡ cache_text self }
    {
        match self {
            CacheType::Unsafe => "Unsafe",
            CacheType::Writeback => "Writeback",
        }
    }
}

/// A drive: a block device over a file.
#[derive(Drop)]
pub struct Drive {
    /// Its name among the drives: 1 to 64 letters and digits of ASCII, and `_`.
    pub drive_id: TextList,
    /// The name of its file, of 1 to 4,095 bytes.
    pub path_on_host: TextList,
    /// Whether it is the first of the machine's devices. One drive at most is.
    pub is_root_device: bool,
    /// Whether the guest can only read it.
    pub is_read_only: bool,
    pub cache_type: CacheType,
    /// The limits of its requests.
    pub rate_limiter: Option<Limiter>,
}

/// What is to be replaced of a drive; what isn't given stays.
#[derive(Drop)]
pub struct DrivePatch {
    /// The name of the drive.
    pub drive_id: TextList,
    /// The name of its file, of 1 to 4,095 bytes.
    pub path_on_host: Option<TextList>,
    /// The buckets that take the place of those of the same name.
    pub rate_limiter: Option<Limiter>,
}

/// The machine itself. Simultaneous multithreading is always off.
#[derive(Clone, Copy, Drop)]
pub struct MachineConfig {
    /// The number of harts.
    pub vcpu_count: u64,
    /// The memory in MiB, from 4 to 4,096.
    pub mem_size_mib: u64,
    /// Whether the pages that the guest writes are marked for diff snapshots.
    pub track_dirty_pages: bool,
}

/// The fields of a machine that are to be replaced; the others stay.
#[derive(Clone, Copy, Drop)]
pub struct MachinePatch {
    pub vcpu_count: Option<u64>,
    pub mem_size_mib: Option<u64>,
    pub track_dirty_pages: Option<bool>,
}

/// Whether a machine that has started is to stand still or to go on.
#[derive(Clone, Copy, Drop)]
pub enum VmState {
    Paused,
    Resumed,
}

/// The names of a snapshot's two files.
#[derive(Drop)]
pub struct SnapshotFiles {
    pub snapshot_path: TextList,
    pub mem_file_path: TextList,
}

/// Which pages a snapshot's memory file has.
#[derive(Clone, Copy, Drop)]
pub enum SnapshotType {
    /// All of them.
    Full,
    /// Those that the guest wrote since the snapshot that was written or loaded last.
    Diff,
}

/// The snapshot that is to be written.
#[derive(Drop)]
pub struct SnapshotCreate {
    pub files: SnapshotFiles,
    pub snapshot_type: SnapshotType,
}

/// The snapshot that is to be loaded.
#[derive(Drop)]
pub struct SnapshotLoad {
    pub files: SnapshotFiles,
    /// Whether the pages that the guest writes are marked from then on: either of the two fields that ask for it is set.
    pub track_dirty_pages: bool,
    /// Whether the machine then runs.
    pub resume_vm: bool,
}

/// A call of the API.
#[derive(Drop)]
pub enum ApiCall {
    /// PUT /boot-source
    PutBootSource(BootSource),
    /// PUT /drives/{id}
    PutDrive(Drive),
    /// PATCH /drives/{id}
    PatchDrive(DrivePatch),
    /// PUT /network-interfaces/{id}
    PutInterface(Interface),
    /// PATCH /network-interfaces/{id}
    PatchInterface(InterfacePatch),
    /// PUT /vsock
    PutVsock(Vsock),
    /// PUT /machine-config
    PutMachineConfig(MachineConfig),
    /// PATCH /machine-config
    PatchMachineConfig(MachinePatch),
    /// PUT /balloon
    PutBalloon(Balloon),
    /// PATCH /balloon
    PatchBalloon(BalloonPatch),
    /// PATCH /balloon/statistics
    PatchStatistics(StatisticsPatch),
    /// PUT /entropy
    PutEntropy(Entropy),
    /// PUT /mmds/config
    PutMmdsConfig(MmdsConfig),
    /// PUT /mmds: an object, whose numbers may be any.
    PutMetadata(Tree),
    /// PATCH /mmds: an object, whose numbers may be any.
    PatchMetadata(Tree),
    /// PUT /actions with InstanceStart
    InstanceStart,
    /// PATCH /vm
    PatchVm(VmState),
    /// PUT /snapshot/create
    CreateSnapshot(SnapshotCreate),
    /// PUT /snapshot/load
    LoadSnapshot(SnapshotLoad),
    /// GET of a part
    Get(Part),
}
