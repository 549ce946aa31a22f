use crate::lock_file::LockFile;
use std::alloc::{AllocError, Global};
use std::fs::{File, Files, Permissions};
use std::net::Net;
use std::os::fd::{AsFd, AsRawFd};
use std::os::unix::fs::{FileTypeExt, PermissionsExt};
use std::os::unix::net::{SocketAddr, UnixListener, UnixStream};
use std::{fs, io};

// The user alone may connect.
const PRIVATE: u32 = 0o600;

// As many clients may wait as the system allows.
const MOST_WAITING: i32 = -1;

/// A socket at a path, to which only the user of this process can connect. As long as it is there,
/// a file beside it is locked, so that another process need not connect to see that somebody
/// listens.
#[derive(Drop)]
pub(crate) struct PrivateSocket {
    listener: UnixListener,
    path: String,
    lock: LockFile,
}

impl PrivateSocket {
    /// None where another process has the lock, where something stands at the path that is no
    /// socket or at which somebody listens, and where the system refuses.
    pub fn listen<R: Files<File = File> + Net>(
        rt: &R,
        alloc: Global,
        path: &str,
    ) -> Result<Option<PrivateSocket>, AllocError> {
        let lock_path = format!(in alloc; "{path}.lock")?;
        let path = String::from_str(alloc, path)?;
        let Some(lock) = LockFile::take(rt, alloc, lock_path.as_str())? else {
            return Ok(None);
        };
        match listen_at(rt, path.as_str()) {
            Some(listener) => Ok(Some(PrivateSocket {
                listener,
                path,
                lock,
            })),
            None => {
                lock.release(rt);
                Ok(None)
            }
        }
    }

    /// Waits for the next client.
    pub fn accept(&self) -> io::Result<UnixStream> {
        Ok(self.listener.accept()?.0)
    }

    /// Takes the socket away, and the lock behind it.
    pub fn close(self, rt: &impl Files) {
        let PrivateSocket {
            listener,
            path,
            lock,
        } = self;
        if is_socket(rt, path.as_str()) {
            let _ = fs::remove_file(rt, path.as_str());
        }
        drop(listener);
        lock.release(rt);
    }
}

// Listens at a path whose lock is held.
fn listen_at<R: Files + Net>(rt: &R, path: &str) -> Option<UnixListener> {
    if is_clear(rt, path) {
        bind(rt, path)
    } else {
        None
    }
}

// Makes room at the path: takes a socket away at which nobody listens. What is no socket stays. To
// look it connects, which costs no server of this kind a session, since none runs there.
fn is_clear<R: Files + Net>(rt: &R, path: &str) -> bool {
    match fs::symlink_metadata(rt, path) {
        Err(e) => e.kind() == io::ErrorKind::NotFound,
        Ok(_) => {
            is_socket(rt, path) && is_refused(rt, path) && fs::remove_file(rt, path).is_ok()
        }
    }
}

// Whether a socket stands at the path itself.
fn is_socket(rt: &impl Files, path: &str) -> bool {
    match fs::symlink_metadata(rt, path) {
        Ok(there) => there.file_type().is_socket(),
        Err(_) => false,
    }
}

// Whether nobody listens at the socket.
fn is_refused(rt: &impl Net, path: &str) -> bool {
    match UnixStream::connect(rt, path) {
        Err(e) => e.kind() == io::ErrorKind::ConnectionRefused,
        Ok(_) => false,
    }
}

// Makes the socket. Nobody can connect until it listens, and before that it is made private.
fn bind<R: Files + Net>(rt: &R, path: &str) -> Option<UnixListener> {
    let address = SocketAddr::from_pathname(path).ok()?;
    let socket = rt.unix_socket().ok()?;
    rt.bind_unix(socket.as_fd(), &address).ok()?;
    if fs::set_permissions(rt, path, Permissions::from_mode(PRIVATE)).is_err()
        || libc::net::listen(socket.as_raw_fd(), MOST_WAITING) < 0
    {
        let _ = fs::remove_file(rt, path);
        return None;
    }
    Some(UnixListener::from(socket))
}
