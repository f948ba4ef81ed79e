// PUT /actions: a start
ghost use Rattle.std.specs.Prelude.{◌≡◌};
ghost use Rattle.api_calls.specs.declared.call.ApiCall.TheVariants.{InstanceStart};
ghost use Rattle.api_rules.specs.Table as table;

use guest_memory::do_loads_fit;
use refusals::Refusal;
use vm_config::Config;

/// What a start is refused by the configuration.
pub fn start_refusal(config: &Config) -> Option<Refusal>
    ensures { result ≡ table.first_refusal (table.start_rows config.now) }
{
    if config.boot_source.is_none() {
        Some(Refusal::NoBootSource)
    } else {
        None
    }
}

/// What the files have under the name of the initial RAM disk.
#[derive(Clone, Copy, PartialEq, Drop)]
pub enum InitrdFile {
    /// No name is configured.
    Unnamed,
    /// There is no file of that name.
    Missing,
    /// There is one, of so many bytes.
    There(u64),
}

/// How many bytes the file has, if there is one.
pub fn initrd_len(initrd: InitrdFile) -> Option<u64>
    ensures { result ≡ table.len_of initrd }
{
    match initrd {
        InitrdFile::Unnamed | InitrdFile::Missing => None,
        InitrdFile::There(len) => Some(len),
    }
}

/// What a start that `decide` allows is refused by the files.
///
/// `image` is how many bytes the file of the kernel image has, if there is one, and `has_drive_files` is whether each
/// drive has its file.
pub fn boot_refusal(
    config: &Config,
    image: Option<u64>,
    initrd: InitrdFile,
    has_drive_files: bool,
) -> Option<Refusal>
    ensures { result ≡ table.boot_refusal config.now image initrd has_drive_files }
{
    let Some(image) = image else {
        return Some(Refusal::NoSuchFile);
    };
    if initrd == InitrdFile::Missing || !has_drive_files {
        return Some(Refusal::NoSuchFile);
    }
    if do_loads_fit(config.machine.mem_size_mib, image, initrd_len(initrd)) {
        None
    } else {
        Some(Refusal::DoesNotFit)
    }
}
