// What holds of the numbers of devices, and of their ids.
ghost use Rattle.std.specs.Prelude.{◌≡◌, ℕ, true, length, slice_get, List, Some};
ghost use Rattle.api_calls.specs.declared.balloon.Balloon.{Balloon};
ghost use Rattle.api_calls.specs.declared.call.Drive.{Drive};
ghost use Rattle.api_calls.specs.declared.interface.Interface.{Interface};
ghost use Rattle.vm_config.specs.declared.config.Config.{Config};
ghost use Rattle.vm_config.specs.Devices.{balloon_device, device_count, devices_of, interface_device, of_balloon, of_drive, of_interface};
ghost use Rattle.api_calls.specs.declared.call.DrivePatch.{DrivePatch};
ghost use Rattle.api_calls.specs.declared.interface.InterfacePatch.{InterfacePatch};
ghost use Rattle.vm_config.specs.Drives.{device_of, id_of_drive, is_named, patch_drive, put_drive};
ghost use Rattle.vm_config.specs.Interfaces.{id_of_interface, is_interface, patch_interface, put_interface};
ghost use Rattle.vm_config.specs.Named.{are_apart};

/// The devices of a machine are as many as are counted. The numbers of a drive, of an interface and of the balloon are their
/// places among them.
pub fn devices_are_numbered()
    ensures count { (config : Config) → length (devices_of config) ≡ device_count config }
    ensures drive { (config : Config) (id : List ℕ) (k : ℕ) → device_of config.drives id ≡ Some k →
        (d : Drive) × (slice_get (devices_of config) k ≡ Some (of_drive d)) × (is_named id d ≡ true) }
    ensures interface { (config : Config) (id : List ℕ) (k : ℕ) → interface_device config id ≡ Some k →
        (i : Interface) × (slice_get (devices_of config) k ≡ Some (of_interface i)) × (is_interface id i ≡ true) }
    ensures balloon { (config : Config) (k : ℕ) → balloon_device config ≡ Some k →
        (b : Balloon) × (config.balloon ≡ Some b) × (slice_get (devices_of config) k ≡ Some (of_balloon b)) }
{}

/// No two drives have one id, and no two interfaces, whatever is put or replaced.
pub fn ids_stay_apart()
    ensures put_drive { (drives : List Drive) (drive : Drive) → are_apart id_of_drive drives ≡ true →
        are_apart id_of_drive (put_drive drives drive) ≡ true }
    ensures patch_drive { (drives : List Drive) (patch : DrivePatch) →
        are_apart id_of_drive (patch_drive drives patch) ≡ are_apart id_of_drive drives }
    ensures put_interface { (interfaces : List Interface) (interface : Interface) →
        are_apart id_of_interface interfaces ≡ true →
        are_apart id_of_interface (put_interface interfaces interface) ≡ true }
    ensures patch_interface { (interfaces : List Interface) (patch : InterfacePatch) →
        are_apart id_of_interface (patch_interface interfaces patch) ≡ are_apart id_of_interface interfaces }
{}
