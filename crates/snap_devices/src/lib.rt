//! Ports and devices as bytes: how a state file has each of them, one encoding for each state.
//!
//! `specs/` has the formats: `Ports` of a port, `Devices` of a device by its kind, and under it `Blocks`, `Phases`,
//! `Serving`, `Queues` and `Limits` of a block device, `Nets` of a network device, `Vsocks` of a vsock device, `Balloons` of a
//! balloon and `Entropies` of an entropy device, each over `Rounds` and `Places`. `Saved<Port>` and
//! `SavedDevice` are written and read so (`Stored`, and `Whole` of a device): what is read is the one port or device that
//! bytes at a front are, exactly where they are the encoding of a state that it may be in. What this takes of memory is no
//! more than a few times the bytes that are there.
//!
//! Numbers are little-endian; a flag is a byte 0 or 1; an option is a flag, and behind a 1 the value; a list is a count
//! of 4 bytes, and its items.
//!
//! A port, 149 bytes: the kind of its device (1 byte: 0 net, 1 block, 2 balloon, 3 vsock, 4 entropy); the features that are
//! offered and those that were accepted (8 each); DeviceFeaturesSel, DriverFeaturesSel and QueueSel (4 each);
//! InterruptStatus, Status and ConfigGeneration (4 each); the flag that a reset is asked; three queues; the 8 bytes of
//! the configuration. A queue, 33 bytes: QueueDesc, QueueDriver and QueueDevice (8 each), QueueNum and QueueReady (4
//! each), and the flag that it was kicked.
//!
//! What was accepted of a queue, 0 neither, 1 indirect descriptors, 2 the event index, 3 both, stands in the byte in front of
//! it: 0 where there is no queue, walk or chain, and else 1 and what was accepted; a queue's number in front of a walk or a
//! chain in hand, and the byte of what is due, have four times that added. `specs/Marks` says so.
//!
//! A device: its kind (1 byte: 0 net, 1 block, 2 balloon, 3 vsock, 4 entropy), and what is kept of it. A block device:
//!
//! - its data, 67 bytes: the size of the disk in sectors (8); the queue, 30 bytes: its three tables (8 each), its size
//!   (2) and the guest's pages (4); the drive's id (20); the number of the next chain and how many were given back (2
//!   each); the number of its port (1); the flags that it is read-only, that the queue was kicked, and that the round
//!   gave a chain back; and what is due (1: 0 a look, 1 a walk, 2 a wait);
//! - where it is, a byte and what follows it: 0 between two groups; 1 the queue is broken, and then 0 the port, 1 the
//!   line is told (1); 2 the header of a request: how many bytes the chain has for the device to read (8), and its head
//!   (2); 3 a request is served: where its status goes (8), the act, and the head (2); 4 a chain is given back: how
//!   many bytes were written (4), the head (2), and how far (1: 0 the pair, 1 its second half, 2 the index, 3 the
//!   interrupt, 4 the line, 5 the driver's event);
//! - the act of a request, a byte and what follows it: 0 a unit is read from the disk, 1 its bytes are written to the
//!   driver's parts, each with the sector, how many units behind it, and how many follow (8 each); 2 the drive's id
//!   is written; 3 a piece is read of the driver's parts, 4 a unit is written to the disk, each with the sector, the
//!   part of it, below 8, and how many follow (8 each); 5 a flush; 6 the status is written: it (1), and the used
//!   length (4);
//! - the walk that is begun, an option: the queue, 30 bytes; the number of its chain (2); the act (1: 0 the index, 1
//!   the ring's entry, 2 a descriptor, and behind a 2 the chain's head and the descriptor's number, 2 each; 3 the event is
//!   written, 4 the index once more; 5 an entry of a table, 6 the rest of one: the chain's head (2), where the table is (8), how
//!   many entries it has and which is read (2 each), and behind a 6 the list of the bytes that were read); the list of its
//!   parts;
//! - the list of the parts that are still read; the list of the bytes that are held; the list of the parts that are
//!   still written. A part, 13 bytes: where it is (8), how many bytes it has (4), and the flag that the device writes
//!   it;
//! - and where the gate has a bucket, a chain waits, or the chain in hand is of another queue than the round's: the bucket of bytes
//!   and that of operations, each an option; the chain that waits, an option; and the queue of the chain in hand, an option. Where
//!   none of these is there the list ends before them. A bucket, 48 bytes: how many tokens it holds, in how many nanoseconds so many
//!   flow in, and what is left of its burst (8 each); what is owed to a full balance, in tokens times nanoseconds (16); and the
//!   moment of the newest request that passed (8). A chain that waits: its queue, 30 bytes; its head (2); the list of the parts that
//!   are still needed; the list of the parts that are still read; the list of the bytes that were read.
//!
//! A network device, a vsock device, a balloon or an entropy device begins with these:
//!
//! - its rounds: the guest's pages (4); the number of its port (1); what is due (1: 0 a look, 1 the question to its host, which
//!   a balloon never asks, 2 a queue, and behind a 2 the queue's number (1), 3 a wait); the flag that the round gave a chain
//!   back or received a frame; and its three queues. A queue: the number of its next chain and how many were given back (2 each);
//!   the flag that it was kicked; its registers, an option of 30 bytes; and the chain that waits, an option;
//! - where it is, a byte and what follows it: 0 between two groups; 1 its host answered, which is never so of a balloon; 2 a
//!   chain is walked: the queue's number (1) and the walk; 3 a chain is read before it may be served, which is never so of these
//!   three, and 4 it is served: the chain in hand; 5 it is given back: how many bytes were written (4), how far (1), and the
//!   chain in hand; 6 a queue is broken: its number (1), and then 0 the port, 1 the line is told (1). A chain in hand, 33 bytes:
//!   its queue's number (1), that queue as it was when the chain was taken (30), and the chain's head (2).
//!
//! Behind them a network device has:
//!
//! - what waits for the driver, a list of at most 1,526 bytes: the header of 12 bytes and a frame, or no byte;
//! - the limits of what it receives, and of what it transmits: each the bucket of bytes and that of operations, as a block device has
//!   them;
//! - what it is at, a byte and what follows it: 0 nothing; 1 a frame is taken from the link: its length, and the number of its
//!   next piece (8 each); 2 a frame is written to the driver: from which byte on (8), and the list of the parts that are left; 3 a
//!   frame is read of the driver: how many bytes are passed over (8), and the list of the parts that are left; 4 a piece is sent: the
//!   list of its bytes, at most 64, and then as in 3; 5 the frame that was sent is ended;
//! - the frame of 1 and 2 behind its header, as far as it came, a list of at most 1,526 bytes.
//!
//! A vsock device, which a file has without its connections, and so without bytes of the host for the guest:
//!
//! - the guest's CID (8); the next port at the host (4); the answer that waits for the guest, an option; the chain in hand; and the
//!   flag that the guest is to be told that its connections are gone. An answer, 13 bytes: its operation (1: 1 request, 2
//!   response, 3 rst, 4 shutdown, 5 rw, 6 credit update, 7 credit request), the port of the host and that of the guest, and how
//!   many of the guest's bytes went to the host (4 each). The chain in hand, a byte and what follows it: 0 none; 1 a packet is
//!   written to the guest: it, as an answer is, and the list of its bytes, at most 64; 2 a packet of the guest isn't judged yet; 3
//!   nor will it be, since its connection is gone; 4 it is judged: the answer to it, an option;
//! - what it is at, a byte and what follows it: 0 nothing; 1 a connection is closed at the host: its number (4); 2 a packet is
//!   written: the list of the bytes that are held, the list of the parts that are left, and how many bytes the packet has (4); 3
//!   an event is written: the list of the bytes, and that of the parts; 4 a header is read: the list of the parts, at which one
//!   byte or more is left, and that of the bytes, fewer than 44, and how many bytes the packet has behind it (8); 5 the host is
//!   asked for a connection: the header, 44 bytes: the CIDs of source and destination (8 each), their ports and the length (4
//!   each), type and operation (2 each), the flags, the room of the buffer and the count of bytes forwarded (4 each); 6 a line
//!   tells that one is accepted: its number (4), and the list of the line's bytes, at most 64; 7 a piece is sent to the host: the
//!   number (4), the list of its bytes, at most 64, and that of the parts behind them; 8 a piece is read: the number (4), and the
//!   list of the parts.
//!
//! And a balloon:
//!
//! - how many seconds there are between two chains of statistics (2); the guest time at which one was let go on last (8); what
//!   it told: of each of ten tags an option of its value (8);
//! - what it is at in a chain, a byte and what follows it: 0 nothing; 1 a list of pages is read: the guest's pages (4), and
//!   what is read; 2 a page is zeroed: the guest's pages (4), how many writes of 64 bytes are left (4), where the next one goes
//!   (8), and what is read behind them; 3 statistics are read: what they told so far, as above, and what is read. What is read:
//!   the list of the parts that are left; the list of the bytes that are held.
//!
//! And an entropy device:
//!
//! - its limits, as a block device has them;
//! - what it is at in a chain, a byte and what follows it: 0 nothing; 1 a word is asked for: with how many bytes the chain is filled,
//!   at most 4,096, the number of the word (4 each), and the list of the parts that are left; 2 it is written: the same, and the list
//!   of its bytes that are left, at most 8.
#![tactic(auto)]

mod balloon;
mod block;
mod device;
mod entropy;
mod file;
mod form;
mod law;
mod limits;
mod mark;
mod net;
mod phase;
mod place;
mod port;
mod queue;
mod rounds;
mod saved;
mod vsock;

pub use law::port_size;
pub use saved::{Saved, SavedDevice};
