// The bytes of a device's configuration.
ghost use Rattle.std.specs.Prelude.{◌≡◌, ◌≤◌, replicate};
ghost use Rattle.port_table.specs.Access as access;
ghost use Rattle.port_table.specs.Ports as ports;

use port_table::{DeviceKind, PortState};
use vm_types::Piece;

/// Writes a piece over these bytes from a place on. What doesn't fit is lost.
fn overlay(bytes: &mut [u8], at: usize, piece: &[u8])
    ensures { bytes.new ≡ ports.put_over bytes.old at piece.now }
{
    if at < bytes.len() {
        let count = piece.len().min(bytes.len() - at);
        bytes[at..at + count].copy_from_slice(&piece[..count]);
    }
}

/// Puts these bytes in place of the configuration's first ones. What the device doesn't have is lost.
pub fn put_config(kind: DeviceKind, config: &mut [u8; 8], bytes: &[u8])
    ensures { config.new ≡ ports.with_config kind config.old bytes.now }
{
    let count = bytes.len().min(kind.config_length());
    overlay(config, 0, &bytes[..count]);
}

/// Takes back what the driver wrote of the configuration.
pub fn reset_config(kind: DeviceKind, config: &mut [u8; 8])
    ensures { config.new ≡ ports.reset_config kind config.old }
{
    if let DeviceKind::Balloon = kind {
        config[4..].copy_from_slice(&[0; 4]);
    }
}

/// Writes what the driver may write of the configuration.
pub fn write_config(kind: DeviceKind, config: &mut [u8; 8], at: usize, piece: &[u8])
    ensures { config.new ≡ access.config_after kind config.old at piece.now }
{
    if let DeviceKind::Balloon = kind {
        let old = *config;
        overlay(config, at, piece);
        config[..4].copy_from_slice(&old[..4]);
    }
}

/// So many zeros.
pub fn zero_piece(len: usize) -> Piece
    requires { len ≤ 64 }
    ensures { result ≡ replicate len 0 }
{
    Piece::from_slice(&[0; 64][..len])
}

/// So many bytes of the configuration from a place on, and zeros behind its last one.
pub fn config_piece(state: &PortState, at: usize, len: usize) -> Piece
    requires { len ≤ 8 }
    ensures { result ≡ access.config_bytes state.now at len }
{
    let count = state.kind.config_length();
    if at >= count {
        return zero_piece(len);
    }
    let mut shown = [0; 16];
    shown[..count].copy_from_slice(&state.config[..count]);
    Piece::from_slice(&shown[at..at + len])
}
