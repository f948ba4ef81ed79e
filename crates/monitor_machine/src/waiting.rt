// The line of a step that comes to an act on a host object.
ghost use Rattle.std.specs.Prelude.{◌≡◌, ◌≤◌, ◌+◌, ◌++◌, length, take, IfOk};
ghost use Rattle.flat_machine.specs.Items.{steps_text};
ghost use Rattle.script_text.specs.Output.{waits_line};

use itoa::Buffer;
use std::alloc::{AllocError, Global};
use vm_types::ByteList;

/// The line has at most so many bytes: its word, a number and the line's end.
const MOST: usize = 8 + 40 + 1;

/// Room for the line, which is taken before any event.
pub fn waits_room(alloc: Global) -> Result<Vec<u8>, AllocError>
    ensures { IfOk result (λ room. length room.items ≡ 49) }
{
    Ok(vec![in alloc; 0u8; MOST]?)
}

// Puts bytes at this place, over what is there. The front up to their end is the front before them, and they.
fn put(room: &mut Vec<u8>, at: usize, bytes: &[u8])
    requires { at + length bytes.now ≤ length room.old.items }
    ensures front { take (at + length bytes.now) room.new.items ≡ take at room.old.items ++ bytes.now }
    ensures size { length room.new.items ≡ length room.old.items }
{
    room[at..at + bytes.len()].copy_from_slice(bytes);
}

// The line in this room.
fn waits_in(mut room: Vec<u8>, count: u64) -> ByteList
    requires { length room.items ≡ 49 }
    ensures { result ≡ waits_line count }
{
    let mut buffer = Buffer::new();
    let digits = buffer.format(count).as_bytes();
    let end = 8 + digits.len();
    put(&mut room, 0, b"? waits ");
    put(&mut room, 8, digits);
    put(&mut room, end, b"\n");
    room.truncate(end + 1);
    ByteList::from_vec(room)
}

/// What a step line writes that asked for `count` events of an actor that is there, and made so many.
pub fn steps_line(alloc: Global, room: Vec<u8>, count: u64, made: u64, is_off: bool) -> ByteList
    requires { length room.items ≡ 49 }
    ensures { result ≡ steps_text count made is_off }
{
    if made < count {
        if is_off {
            ByteList::new(alloc)
        } else {
            waits_in(room, made)
        }
    } else {
        ByteList::new(alloc)
    }
}
