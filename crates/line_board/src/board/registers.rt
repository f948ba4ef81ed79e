// The board's registers.
ghost use Rattle.std.specs.Prelude.{◌≡◌, ◌≤◌, ◌/◌, ◌-◌, length, replicate, true};
ghost use Rattle.vm_types.specs.declared.ids.ActorId.TheVariants.{Timer};
ghost use Rattle.vm_types.specs.declared.op.Op.TheVariants.{Read, Write};
ghost use Rattle.le_fields.specs.Fields.{bytes_of};
ghost use Rattle.board_table.specs.Acts.{touch};
ghost use Rattle.board_table.specs.Window as window;

use crate::Board;
use board_table::{WINDOW_START, is_window};
use le_fields::{get32, put32};
use vm_types::{GuestAddr, Piece, Reply};

/// Where the words of the harts begin.
const ENABLES_START: u64 = 0x100;

fn is_register(at: GuestAddr, len: usize) -> bool
    ensures { result ≡ window.is_register at len }
{
    len == 4 && at % 4 == 0
}

fn word_piece(value: u32) -> Piece
    ensures { result ≡ bytes_of 4 value }
{
    let mut bytes = [0; 4];
    put32(&mut bytes, 0, value);
    Piece::from_slice(&bytes)
}

fn zero_piece(len: usize) -> Piece
    requires { len ≤ 64 }
    ensures { result ≡ replicate len 0 }
{
    Piece::from_slice(&[0; 64][..len])
}

impl Board {
    fn register_value(&self, offset: u64) -> u32
        ensures { result ≡ window.register_value self.now offset }
    {
        if offset == 0 {
            return self.pending as u32;
        }
        if offset < ENABLES_START {
            return 0;
        }
        let hart = (offset - ENABLES_START) / 4;
        if hart < self.enables.len() as u64 {
            self.enables[hart as usize] as u32
        } else {
            0
        }
    }

    fn put_register(&mut self, offset: u64, value: u32)
        ensures { self.new ≡ window.register_after self.old offset value }
    {
        let lines = (value % 0x1_0000) as u16;
        if offset == 0 {
            self.pending &= !lines;
        } else if offset >= ENABLES_START {
            let hart = (offset - ENABLES_START) / 4;
            if hart < self.enables.len() as u64 {
                self.enables[hart as usize] = lines;
            }
        }
    }

    fn window_bytes(&self, at: GuestAddr, len: usize) -> Piece
        requires few { len ≤ 64 }
        requires inside { window.is_window at len ≡ true }
        ensures { result ≡ window.window_bytes self.now at len }
    {
        if is_register(at, len) {
            word_piece(self.register_value(at - WINDOW_START))
        } else {
            zero_piece(len)
        }
    }

    fn put_window(&mut self, at: GuestAddr, piece: &[u8])
        requires { window.is_window at (length piece.now) ≡ true }
        ensures { self.new ≡ window.window_after self.old at piece.now }
    {
        if is_register(at, piece.len()) {
            if let Some(value) = get32(piece, 0) {
                self.put_register(at - WINDOW_START, value);
            }
        }
    }

    /// Reads these bytes, if all of them are the board's.
    pub fn read(&self, at: GuestAddr, len: usize) -> Reply
        ensures { result ≡ (touch self.now Timer (Read at len)).0 }
    {
        if len <= 64 && is_window(at, len) {
            Reply::Bytes(self.window_bytes(at, len))
        } else {
            Reply::AccessFault
        }
    }

    /// Writes these bytes, if all of them are the board's.
    pub fn write(&mut self, at: GuestAddr, piece: &Piece) -> Reply
        ensures reply { result ≡ (touch self.old Timer (Write at piece.now)).0 }
        ensures value { self.new ≡ (touch self.old Timer (Write at piece.now)).1 }
    {
        if is_window(at, piece.len()) {
            self.put_window(at, piece.as_slice());
            Reply::Done
        } else {
            Reply::AccessFault
        }
    }
}
