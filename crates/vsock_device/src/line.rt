// The line by which a connection of the host asks for a port of the guest, and the one that answers it.
ghost use Rattle.std.specs.Prelude.{◌≡◌, ◌==◌, ◌<◌, ◌≤◌, ◌+◌, ◌++◌, ◌^◌, length, take, drop, position, nat_lt, true, if◌then◌else◌, Some, None, IfSome};
ghost use Rattle.std.specs.List.{list_all};
ghost use Rattle.script_words.specs.Numbers.{is_digit, value_of};
ghost use Rattle.vsock_device.specs.Lines.{asked_port, line_ended, line_longer, lined, ok_line, port_of};

use dev_core::Held;
use itoa::Buffer;
use script_words::{behind, is_digit};
use vm_types::Piece;

/// The most bytes of a line, with its LF.
const MOST_LINE: usize = 32;

/// Ports are smaller than this.
const NO_PORT: u64 = 0x1_0000_0000;

/// What a line comes to.
#[derive(Drop)]
pub enum Lined {
    /// More of it is to come behind these bytes.
    More(Piece),
    /// It is another line.
    Other,
    /// It asks for this port, and these bytes stand behind it.
    Asks(u32, Piece),
}

// The number that digits write, if 32 bits hold it.
#[tactic(auto, using(crate::proofs::Lines::none_written))]
fn value_of(digits: &[u8]) -> Option<u32>
    requires { list_all is_digit digits.now ≡ true }
    ensures { result ≡ (if nat_lt (value_of digits.now) (2 ^ 32) then Some (value_of digits.now) else None) }
{
    let mut value: u64 = 0;
    for digit in digits {
        if value >= NO_PORT {
            return None;
        }
        value = 10 * value + (*digit).saturating_sub(b'0') as u64;
    }
    if value < NO_PORT {
        Some(value as u32)
    } else {
        None
    }
}

fn are_digits(text: &[u8]) -> bool
    ensures { result ≡ list_all is_digit text.now }
{
    text.iter().all(|c| is_digit(*c))
}

fn port_of(digits: &[u8]) -> Option<u32>
    ensures { result ≡ port_of digits.now }
{
    if 0 < digits.len() && are_digits(digits) {
        value_of(digits)
    } else {
        None
    }
}

// The port that a line asks for, without its LF.
fn asked_port(line: &[u8]) -> Option<u32>
    ensures { result ≡ asked_port line.now }
{
    match behind(b"CONNECT ", line) {
        None => None,
        Some(digits) => port_of(digits),
    }
}

// Two pieces.
fn joined(first: &Piece, second: &Piece) -> Held
    ensures { result ≡ first.now ++ second.now }
{
    let _first = first.len();
    let _second = second.len();
    let mut held = Held::new();
    held.append(first);
    held.append(second);
    held
}

fn line_ended(line: &[u8], rest: Piece) -> Lined
    ensures { result ≡ line_ended line.now rest }
{
    if line.len() < MOST_LINE {
        match asked_port(line) {
            None => Lined::Other,
            Some(port) => Lined::Asks(port, rest),
        }
    } else {
        Lined::Other
    }
}

// Where the first LF is.
fn lf_at(bytes: &[u8]) -> Option<usize>
    ensures at { result ≡ position (λ b. b == 10) bytes.now }
    ensures below { IfSome result (λ at. at < length bytes.now) }
{
    bytes.iter().position(|b| *b == b'\n')
}

// The bytes before one, and those behind it.
#[tactic(auto, using(crate::proofs::Lines::tail_slice))]
fn cut(bytes: &Piece, at: usize) -> (Piece, Piece)
    requires { at < length bytes.now }
    ensures before { result.0 ≡ take at bytes.now }
    ensures behind { result.1 ≡ drop (at + 1) bytes.now }
{
    let bytes = bytes.as_slice();
    (
        Piece::from_slice(&bytes[..at]),
        Piece::from_slice(&bytes[at + 1..]),
    )
}

// More of the line is to come, unless there is too much of it.
fn line_longer(line: &[u8]) -> Lined
    requires { length line.now ≤ 128 }
    ensures { result ≡ line_longer line.now }
{
    if line.len() < MOST_LINE {
        Lined::More(Piece::from_slice(line))
    } else {
        Lined::Other
    }
}

/// What comes of bytes behind those of a line that came before.
pub(crate) fn read_line(so_far: &Piece, bytes: &Piece) -> Lined
    ensures { result ≡ lined so_far.now bytes.now }
{
    match lf_at(bytes.as_slice()) {
        Some(at) => {
            let (before, behind) = cut(bytes, at);
            line_ended(joined(so_far, &before).as_slice(), behind)
        }
        None => line_longer(joined(so_far, bytes).as_slice()),
    }
}

/// The guest takes the connection, which has this port at the host.
pub(crate) fn ok_line(port: u32) -> Piece
    ensures { result ≡ ok_line port }
{
    let mut buffer = Buffer::new();
    let digits = buffer.format(port).as_bytes();
    let mut line = Held::new();
    line.append(&Piece::from_slice(b"OK "));
    line.append(&Piece::from_slice(digits));
    line.append(&Piece::from_slice(b"\n"));
    line.front(line.as_slice().len())
}
