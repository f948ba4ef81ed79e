// What comes from the host's end.
ghost use Rattle.std.specs.Prelude.{ℕ, ◌≡◌, true, Some};
ghost use Rattle.queue_device.specs.Acting.{Works};
ghost use Rattle.queue_device.specs.Kept.{work_after};
ghost use Rattle.queue_device.specs.declared.phase.Work.TheVariants as work;
ghost use Rattle.vsock_device.specs.Connections.{connection_at};
ghost use Rattle.vsock_device.specs.Data.{with_connection};
ghost use Rattle.vsock_device.specs.Host.{asking, closing, ended, guest_asked, heard, heard_by, held_of, next_free, opened};
ghost use Rattle.vsock_device.specs.Work.{hand_of, is_work};
ghost use Rattle.vsock_device.specs.declared.kind.Stage.TheVariants as stages;

use crate::connection::{Connection, Standing};
use crate::connections::{MOST, port_after};
use crate::data::Vsock;
use crate::kind::{Stage, VsockKind};
use crate::line::{Lined, read_line};
use crate::packet::{Head, HostBytes};
use vm_types::Piece;
use vsock_packet::Operation;

// Bytes that wait for the guest, if there are some.
fn held_of(host: u32, bytes: &Piece) -> Option<HostBytes>
    ensures { result ≡ held_of host bytes.now }
{
    if bytes.is_empty() {
        None
    } else {
        Some(HostBytes {
            host,
            bytes: *bytes,
        })
    }
}

impl Vsock {
    // The guest is asked for a connection of this port of its, at the next port of the host that is free.
    fn ask_guest(&mut self, guest_port: u32, rest: &Piece, c: &Connection)
        ensures { self.new ≡ guest_asked (next_free self.old) guest_port rest.now c.now self.old }
    {
        let port = self.connections.free_port(self.next_port);
        let mut c = c.again();
        c.host_port = port;
        c.guest_port = guest_port;
        c.standing = Standing::Asked;
        self.next_port = port_after(port);
        self.update(&c);
        self.answer_with(Head::of(Operation::Request, &c));
        self.held = held_of(c.host, rest);
    }
}

impl VsockKind {
    // A connection is closed.
    fn close_at_host(&mut self, host: u32) -> Option<bool>
        ensures works { Works (closing host self.old.own)
            result self.new.own (hand_of self.new.stage).op (hand_of self.new.stage).answering }
        ensures work { (pages : ℕ) → is_work (work_after result work.Answer) pages self.new.stage ≡ true }
    {
        self.stage = Stage::Close(host);
        None
    }

    /// Somebody connected.
    pub(crate) fn opened(&mut self, host: u32) -> Option<bool>
        requires rest { self.old.stage ≡ stages.Rest }
        ensures works { Works (opened host self.old.own)
            result self.new.own (hand_of self.new.stage).op (hand_of self.new.stage).answering }
        ensures work { (pages : ℕ) → is_work (work_after result work.Answer) pages self.new.stage ≡ true }
    {
        if self.own.connections.is_live(host) {
            return Some(false);
        }
        if self.own.connections.as_slice().len() < MOST {
            self.own.connect(&Connection::new(host));
            Some(true)
        } else {
            self.close_at_host(host)
        }
    }

    // What a line came to.
    fn asked(&mut self, line: Lined, c: &Connection) -> Option<bool>
        requires rest { self.old.stage ≡ stages.Rest }
        ensures works { Works (asking line c.now self.old.own)
            result self.new.own (hand_of self.new.stage).op (hand_of self.new.stage).answering }
        ensures work { (pages : ℕ) → is_work (work_after result work.Answer) pages self.new.stage ≡ true }
    {
        match line {
            Lined::More(so_far) => {
                let mut c = c.again();
                c.standing = Standing::Line(so_far);
                self.own.update(&c);
                Some(true)
            }
            Lined::Other => {
                self.own.drop_connection(c.host);
                self.close_at_host(c.host)
            }
            Lined::Asks(port, rest) => {
                self.own.ask_guest(port, &rest, c);
                Some(true)
            }
        }
    }

    // Bytes wait for the guest.
    fn hold(&mut self, host: u32, bytes: &Piece)
        ensures own { self.new.own ≡ record self.old.own { held = Some (record { host = host; bytes = bytes.now }) } }
        ensures stage { self.new.stage ≡ self.old.stage }
    {
        self.own.held = Some(HostBytes {
            host,
            bytes: *bytes,
        });
    }

    // Bytes came on a connection.
    fn heard_by(&mut self, bytes: &Piece, c: &Connection) -> Option<bool>
        requires rest { self.old.stage ≡ stages.Rest }
        ensures works { Works (heard_by c.now.standing bytes.now c.now self.old.own)
            result self.new.own (hand_of self.new.stage).op (hand_of self.new.stage).answering }
        ensures work { (pages : ℕ) → is_work (work_after result work.Answer) pages self.new.stage ≡ true }
    {
        match &c.standing {
            Standing::Line(so_far) => self.asked(read_line(so_far, bytes), c),
            Standing::Asked => {
                self.hold(c.host, bytes);
                Some(true)
            }
            Standing::Open => {
                self.hold(c.host, bytes);
                Some(true)
            }
        }
    }

    /// Bytes came.
    pub(crate) fn heard(&mut self, host: u32, bytes: &Piece) -> Option<bool>
        requires rest { self.old.stage ≡ stages.Rest }
        ensures works { Works (heard (connection_at host self.old.own.connections) bytes.now self.old.own)
            result self.new.own (hand_of self.new.stage).op (hand_of self.new.stage).answering }
        ensures work { (pages : ℕ) → is_work (work_after result work.Answer) pages self.new.stage ≡ true }
    {
        match self.own.connections.at(host) {
            None => Some(false),
            Some(c) => self.heard_by(bytes, &c),
        }
    }

    /// A connection ended.
    pub(crate) fn ended(&mut self, host: u32) -> Option<bool>
        requires rest { self.old.stage ≡ stages.Rest }
        ensures works { Works (ended (connection_at host self.old.own.connections) self.old.own)
            result self.new.own (hand_of self.new.stage).op (hand_of self.new.stage).answering }
        ensures work { (pages : ℕ) → is_work (work_after result work.Answer) pages self.new.stage ≡ true }
    {
        match self.own.connections.at(host) {
            None => Some(false),
            Some(c) => {
                match &c.standing {
                    Standing::Line(_) => self.own.drop_connection(c.host),
                    Standing::Asked => self.own.reset_to_guest(&c),
                    Standing::Open => self.own.reset_to_guest(&c),
                }
                Some(true)
            }
        }
    }
}
