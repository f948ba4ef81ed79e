// What holds of every device tree.
ghost use Rattle.std.specs.Prelude.{◌≤◌, length, Option};
ghost use Rattle.vm_config.specs.declared.config.Config.{Config};
ghost use Rattle.vm_config.specs.Devices.{device_count};
ghost use Rattle.guest_memory.specs.Boot.{tree_size};
ghost use Rattle.devtree.specs.declared.machine.InitrdPlace.{InitrdPlace};
ghost use Rattle.devtree.specs.Machine.{args_by, tree_bytes};

/// The tree of a machine that the API takes, of at most 2,048 bytes of arguments, 32 harts and 16 devices, has room where a
/// start puts it.
pub fn trees_have_room()
    ensures { (config : Config) (initrd : Option InitrdPlace) → length (args_by config.boot_source) ≤ 2048 →
        config.machine.vcpu_count ≤ 32 → device_count config ≤ 16 →
        length (tree_bytes config initrd) ≤ tree_size }
{}
