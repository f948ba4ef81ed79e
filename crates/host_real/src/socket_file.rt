// A socket that is bound to a name in the file system, which goes with it.
use crate::dialling::dial;
use crate::file_lock::take_folder;
use crate::status::done;
use outside_real::{OWNER_ALONE, folder_of};
use std::alloc::Global;
use std::fs::File;
use std::io::ErrorKind;
use std::net::Net;
use std::os::unix::fs::{FileTypeExt, MetadataExt};
use std::os::unix::io::{AsFd, AsRawFd};
use std::os::unix::net::{SocketAddr, UnixListener};
use std::path::AsPath;
use std::time::Duration;
use std::{fs, io, rt, thread};

/// The name under which a socket is made before it is put in its place, in the same folder.
const FIRST_NAME: &str = ".new";

/// So often a folder's lock is asked for where nothing else is to be done, a millisecond apart.
pub(crate) const LOCK_TRIES: u32 = 5_000;

const LOCK_PAUSE: u64 = 1;

/// As many clients may wait as the system allows.
const MOST_WAITING: i32 = -1;

/// A socket that listens without waiting. When it is let go its file is removed, unless another one has its name by then.
pub(crate) struct SocketFile<'a, R: rt::Files<File = File> + rt::Clock> {
    rt: &'a R,
    path: String,
    node: (u64, u64),
    /// So often its folder's lock is asked for.
    tries: u32,
    pub(crate) listener: UnixListener,
    /// Given up where no descriptor is left for a client, which is then turned away.
    spare: Option<UnixListener>,
}

impl<'a, R: rt::Files<File = File> + rt::Clock> Drop for SocketFile<'a, R> {
    fn drop(self) {
        let SocketFile {
            rt,
            path,
            node,
            tries,
            listener,
            spare,
        } = self;
        drop(spare);
        // Nobody is put in its place between the look and the end.
        let _lock = lock_folder(rt, path.as_str(), tries);
        // No other file has its number while it listens.
        let is_there = matches!(node_of(rt, path.as_str()), Ok(seen) if seen == node);
        drop(listener);
        if is_there {
            // One that stays is replaced by who listens there next.
            let _gone = fs::remove_file(rt, path.as_str());
        }
    }
}

impl<'a, R: rt::Files<File = File> + rt::Clock + Net + AllocGlobal> SocketFile<'a, R> {
    /// Takes the place of a socket on which nobody listens. One in use is an error, and so is any other file.
    ///
    /// The socket listens already when it comes to its place. Of two that come at once, the second one finds the first. The lock on
    /// its folder is asked for so often, a millisecond apart; nothing else is waited for.
    pub(crate) fn bind(rt: &'a R, path: &str, tries: u32) -> io::Result<SocketFile<'a, R>> {
        let kept = String::from_str(rt.alloc(), path)?;
        let _lock = lock_folder(rt, path, tries)?;
        let is_left = is_left(rt, path)?;
        let first = first_name(rt.alloc(), path)?;
        remove_left(rt, first.as_str())?;
        let listener = listen_at(rt, first.as_str())?;
        let node = node_of(rt, first.as_str())?;
        let spare = listener.try_clone().ok();
        put_in_place(rt, first.as_str(), path, is_left)?;
        Ok(SocketFile {
            rt,
            path: kept,
            node,
            tries,
            listener,
            spare,
        })
    }

    /// Has the client that comes next closed at once, where there is no descriptor left for it. It is an error where that
    /// can't be done either, and where nobody comes.
    pub(crate) fn turn_away(&mut self) -> io::Result<()> {
        self.spare = None;
        let came = self.listener.accept();
        let turned = came.map(|(stream, _)| drop(stream));
        self.spare = self.listener.try_clone().ok();
        turned
    }
}

/// Whether an accept failed since nobody comes, or who came has given up meanwhile.
pub(crate) fn is_nobody(e: &io::Error) -> bool {
    matches!(
        e.kind(),
        ErrorKind::WouldBlock | ErrorKind::ConnectionAborted
    )
}

// A folder's lock, which ends when what is answered is let go. What is no folder isn't opened, since that may wait.
fn lock_folder<R: rt::Files<File = File> + rt::Clock>(
    rt: &R,
    path: &str,
    tries: u32,
) -> io::Result<File> {
    if !fs::metadata(rt, folder_of(path))?.is_dir() {
        return Err(io::Error::from(ErrorKind::NotADirectory));
    }
    let folder = File::open(rt, folder_of(path))?;
    for _ in 0..tries {
        match take_folder(&folder) {
            Ok(()) => return Ok(folder),
            Err(e) if e.kind() == ErrorKind::WouldBlock => {}
            Err(e) => return Err(e),
        }
        thread::sleep(rt, Duration::from_millis(LOCK_PAUSE));
    }
    Err(io::Error::from(ErrorKind::WouldBlock))
}

fn first_name(alloc: Global, path: &str) -> io::Result<String> {
    let mut name = String::from_str(alloc, folder_of(path).path_text())?;
    name.push_str("/")?;
    name.push_str(FIRST_NAME)?;
    Ok(name)
}

// What a process left that came to its end too early. Any other file stays, and binding is an error then.
fn remove_left<R: rt::Files>(rt: &R, name: &str) -> io::Result<()> {
    match fs::symlink_metadata(rt, name) {
        Ok(seen) if seen.file_type().is_socket() => fs::remove_file(rt, name),
        _ => Ok(()),
    }
}

// The permissions are the socket's before it has a name.
fn listen_at<R: rt::Files + Net>(rt: &R, name: &str) -> io::Result<UnixListener> {
    let socket = rt.unix_socket()?;
    // (its owner alone may connect)
    done(libc::fchmod(socket.as_raw_fd(), OWNER_ALONE))?;
    rt.bind_unix(socket.as_fd(), &SocketAddr::from_pathname(name)?)?;
    done(libc::net::listen(socket.as_raw_fd(), MOST_WAITING))?;
    let listener = UnixListener::from(socket);
    listener.set_nonblocking(true)?;
    Ok(listener)
}

// A file that comes to the place in the meantime, without the lock, is not replaced where nothing was there.
fn put_in_place<R: rt::Files>(rt: &R, first: &str, path: &str, is_left: bool) -> io::Result<()> {
    if is_left {
        return fs::rename(rt, first, path);
    }
    let put = fs::hard_link(rt, first, path);
    fs::remove_file(rt, first)?;
    put
}

// Whether a socket stands there on which nobody listens, and not nothing. Anything else that stands there is an error.
fn is_left<R: rt::Files + Net>(rt: &R, path: &str) -> io::Result<bool> {
    match fs::symlink_metadata(rt, path) {
        // Connecting to any other file is refused in the same way. A link is none.
        Ok(seen) if seen.file_type().is_socket() => {}
        Ok(_) => return Err(io::Error::from(ErrorKind::AddrInUse)),
        Err(e) if e.kind() == ErrorKind::NotFound => return Ok(false),
        Err(e) => return Err(e),
    }
    match dial(rt, path) {
        Ok(_) => Err(io::Error::from(ErrorKind::AddrInUse)),
        Err(e) if e.kind() == ErrorKind::ConnectionRefused => Ok(true),
        Err(e) => Err(e),
    }
}

// The file that stands there, whatever its name: its device, and its number there.
fn node_of<R: rt::Files>(rt: &R, path: &str) -> io::Result<(u64, u64)> {
    let seen = fs::symlink_metadata(rt, path)?;
    Ok((seen.dev(), seen.ino()))
}
