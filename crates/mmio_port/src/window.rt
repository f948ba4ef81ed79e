// Reads and writes of a port by the guest.
ghost use Rattle.std.specs.Prelude.{◌≡◌, ◌≤◌, ◌<◌, length, true};
ghost use Rattle.le_fields.specs.Fields.{bytes_of};
ghost use Rattle.port_table.specs.Access as access;

use crate::config::{config_piece, write_config, zero_piece};
use crate::registers::{read_register, write_register};
use le_fields::{get32, put32};
use port_table::PortState;
use vm_types::Piece;

/// Where the configuration begins.
const CONFIG_START: u64 = 0x100;

fn is_word(offset: u64, len: usize) -> bool
    ensures { result ≡ access.is_word offset len }
{
    len == 4 && offset % 4 == 0
}

fn is_config_width(len: usize) -> bool
    ensures width { result ≡ access.is_config_width len }
    ensures most { result ≡ true → len ≤ 8 }
{
    len == 1 || len == 2 || len == 4 || len == 8
}

fn word_piece(value: u32) -> Piece
    ensures { result ≡ bytes_of 4 value }
{
    let mut bytes = [0; 4];
    put32(&mut bytes, 0, value);
    Piece::from_slice(&bytes)
}

/// What a read of so many bytes shows.
pub fn read_bytes(state: &PortState, offset: u64, len: usize) -> Piece
    requires { len ≤ 64 }
    ensures { result ≡ access.bytes_read state.now offset len }
{
    if offset < CONFIG_START {
        if is_word(offset, len) {
            word_piece(read_register(state, offset))
        } else {
            zero_piece(len)
        }
    } else if is_config_width(len) {
        config_piece(state, (offset - CONFIG_START) as usize, len)
    } else {
        zero_piece(len)
    }
}

/// Writes these bytes.
pub fn write_bytes(state: &mut PortState, offset: u64, piece: &[u8])
    ensures { state.new ≡ access.after_bytes state.old offset piece.now }
{
    if offset < CONFIG_START {
        if is_word(offset, piece.len()) {
            if let Some(value) = get32(piece, 0) {
                write_register(state, offset, value);
            }
        }
    } else if is_config_width(piece.len()) {
        let kind = state.kind;
        write_config(
            kind,
            &mut state.config,
            (offset - CONFIG_START) as usize,
            piece,
        );
    }
}
