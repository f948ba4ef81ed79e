// The peer of a link, at the other end of a Unix socket.
ghost use Rattle.std.specs.Prelude.{IfOk, IfSome, length};
ghost use Rattle.link_frames.specs.Stream.{IsGiven};
ghost use Rattle.vm_host.specs.Framing.{IsFrameLength};

use crate::bell::Bell;
use crate::dialling::dial;
use crate::unsent::Unsent;
use link_frames::{Fed, FrameReader, is_frame_length};
use outside_real::tries;
use std::alloc::Global;
use std::io;
use std::io::ErrorKind;
use std::net::Net;
use std::os::unix::io::AsRawFd;
use std::os::unix::net::UnixStream;

/// No frame is longer.
pub(crate) const LONGEST: usize = 1_514;

/// One call reads so many parts of the stream at most, so that frames that are dropped hold nobody up.
const MOST_READS: u32 = 256;

/// A stream of frames both ways. No call waits.
#[derive(Drop)]
pub(crate) struct LinkPeer {
    stream: UnixStream,
    reader: FrameReader,
    /// The end of a frame of which the peer has taken the front.
    unsent: Unsent,
}

impl LinkPeer {
    /// What comes of it wakes who rests at the bell.
    pub(crate) fn dial(
        net: &impl Net,
        alloc: Global,
        bell: &Bell,
        name: &str,
    ) -> io::Result<LinkPeer> {
        let stream = dial(net, name)?;
        bell.watch(stream.as_raw_fd());
        Ok(LinkPeer {
            stream,
            reader: FrameReader::new(alloc),
            unsent: Unsent::new(alloc),
        })
    }

    /// The next frame, if it has come whole. Frames of lengths that a link doesn't have are passed over. After an `Err` the stream is of
    /// no use any more.
    pub(crate) fn next_frame(&mut self, bell: &Bell) -> io::Result<Option<Vec<u8>>>
        ensures { IfOk result (λ came. IfSome came (λ frame. IsFrameLength (length frame.items))) }
    {
        self.unsent.send(&mut self.stream)?;
        for _read in 0..MOST_READS {
            match self.read()? {
                Some(Fed::Frame(frame)) => return Ok(Some(frame)),
                Some(_) => {}
                None => return Ok(None),
            }
        }
        // (there may be more, of which nobody is told a second time)
        bell.watch_again(self.stream.as_raw_fd(), false);
        Ok(None)
    }

    // What the next bytes of the stream come to, if any have come.
    fn read(&mut self) -> io::Result<Option<Fed>>
        ensures { IfOk result (λ came. IfSome came IsGiven) }
    {
        let mut bytes = [0; LONGEST];
        let wanted = self.reader.wanted();
        let count = match tries::read_some(&mut self.stream, &mut bytes[..wanted]) {
            Ok(0) => return Err(io::Error::from(ErrorKind::UnexpectedEof)),
            Ok(count) => count,
            Err(e) if e.kind() == ErrorKind::WouldBlock => return Ok(None),
            Err(e) => return Err(e),
        };
        let fed = self.reader.feed(&bytes[..count])?;
        Ok(Some(fed))
    }

    /// Sends a frame, or nothing of it, where the peer doesn't take it at once or it is none by its length. Whether it was sent. After
    /// an `Err` the stream is of no use any more.
    pub(crate) fn send_frame(&mut self, frame: &[u8]) -> io::Result<bool> {
        self.unsent.send(&mut self.stream)?;
        if !self.unsent.is_empty() || !is_frame_length(frame.len()) {
            return Ok(false);
        }
        if self.unsent.push_frame(frame).is_err() {
            self.unsent.clear();
            return Ok(false);
        }
        let whole = self.unsent.len();
        self.unsent.send(&mut self.stream)?;
        if self.unsent.len() < whole {
            return Ok(true);
        }
        self.unsent.clear();
        Ok(false)
    }
}
