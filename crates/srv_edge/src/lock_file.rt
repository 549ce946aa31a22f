use std::alloc::{AllocError, Global};
use std::fs;
use std::fs::{File, Files, OpenOptions};
use std::os::unix::fs::{MetadataExt, OpenOptionsExt};

// The user alone may read and write it.
const PRIVATE: u32 = 0o600;

// How often it is tried again where another takes the file away meanwhile.
const TRIES: u32 = 16;

/// A file that one process has locked. The system gives the lock back when that process ends,
/// however it ends.
#[derive(Drop)]
pub(crate) struct LockFile {
    file: File,
    path: String,
}

impl LockFile {
    /// None where another has it, and where the system refuses.
    pub fn take<R: Files<File = File>>(
        rt: &R,
        alloc: Global,
        path: &str,
    ) -> Result<Option<LockFile>, AllocError> {
        let path = String::from_str(alloc, path)?;
        for _ in 0..TRIES {
            let Some(file) = open_locked(rt, path.as_str()) else {
                return Ok(None);
            };
            if stands_at(rt, path.as_str(), &file) {
                return Ok(Some(LockFile { file, path }));
            }
        }
        Ok(None)
    }

    /// Takes the file away, and then gives the lock back.
    pub fn release(self, rt: &impl Files) {
        let LockFile { file, path } = self;
        let _ = fs::remove_file(rt, path.as_str());
        drop(file);
    }
}

// Makes the file where it is not there, and locks it.
fn open_locked<R: Files<File = File>>(rt: &R, path: &str) -> Option<File> {
    let mut options = OpenOptions::new();
    let file = options
        .read(true)
        .write(true)
        .create(true)
        .mode(PRIVATE)
        .open(rt, path)
        .ok()?;
    file.try_lock().ok()?;
    Some(file)
}

// Whether a file that was opened at a path still stands there. One that is locked and does was not
// taken away before it was locked.
fn stands_at(rt: &impl Files, path: &str, file: &File) -> bool {
    match (file.metadata(), fs::symlink_metadata(rt, path)) {
        (Ok(held), Ok(there)) => held.ino() == there.ino() && held.dev() == there.dev(),
        _ => false,
    }
}
