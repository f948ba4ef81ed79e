// What holds of all encodings.
ghost use Rattle.std.specs.Prelude.{◌≡◌, length};
ghost use Rattle.port_table.specs.declared.state.PortState.{PortState};
ghost use Rattle.snap_devices.specs.Ports.{port};

/// A port has 149 bytes.
pub fn port_size()
    ensures { (p : PortState) → port.Fits p → length (port.bytes p) ≡ 149 }
{}
