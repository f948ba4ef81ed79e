// What a line of a script asks for.
use vm_types::{ActorId, ByteList, Piece, TextList};

/// What a host object is said to answer.
#[derive(Drop)]
pub enum HostReply {
    /// `ok`: it is done.
    Done,
    /// `fail`: the host object failed.
    Failed,
    /// `none`: the host object has nothing to give.
    Nothing,
    /// `now N`: a moment in nanoseconds.
    Now { nanoseconds: u64 },
    /// `part HEX`: bytes of a disk or a frame.
    Part { piece: Piece },
    /// `frame N`: the next frame's length in bytes.
    Frame { length: u32 },
    /// `new C`: a new connection of the vsock host.
    Opened { connection: u32 },
    /// `bytes C HEX`: bytes on a connection, of any number.
    Received { connection: u32, bytes: ByteList },
    /// `ended C`: a connection has ended.
    Ended { connection: u32 },
    /// `dialled C`: the connection that was dialled.
    Dialled { connection: u32 },
    /// `word W`: a word of random bits, as 16 digits.
    Word { word: u64 },
}

/// A line of a script.
#[derive(Drop)]
pub enum Item {
    /// An empty line or a comment.
    Nothing,
    /// The file of this name is made with these bytes.
    File {
        name: TextList,
        content: ByteList,
    },
    /// The lineage of the process.
    Lineage {
        lineage: u64,
    },
    /// A new connection.
    Connect,
    /// Bytes on the connection.
    Bytes {
        bytes: ByteList,
    },
    /// The bytes of a request on the connection.
    Api {
        method: ByteList,
        path: ByteList,
        body: ByteList,
    },
    /// This many events of an actor whose want is no act on a host object.
    Step {
        actor: ActorId,
        count: u64,
    },
    /// One event of an actor whose want is an act on a host object.
    Reply {
        actor: ActorId,
        reply: HostReply,
    },
    /// The console is drained.
    Console,
    /// A register of a hart: x0 to x31, and 32 for pc.
    Register {
        hart: u8,
        number: u8,
    },
    /// Bytes of memory, from a guest physical address on.
    Memory {
        address: u64,
        length: usize,
    },
}
