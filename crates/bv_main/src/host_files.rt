//! The files of the machine.
ghost use Rattle.std.specs.Prelude.{◌≡◌, ◌<◌, ◌^◌, IfOk};

use crate::access::Access;
use crate::disk_files::DiskFiles;
use crate::file_device::{BLOCK, FileDevice};
use bv_device::Failed;
use std::fs::{self, File, TryLockError};
use std::io::{self, Error, ErrorKind, Seek, SeekFrom};
use std::os::fd::AsRawFd;
use std::os::unix::fs::FileTypeExt;

/// The last of the descriptors that standard input, output and error have.
const LAST_STREAM: i32 = 2;

/// Opens, makes and closes the machine's files, and knows nothing of what comes of it.
#[derive(Drop)]
pub struct HostFiles<'r> {
    rt: &'r HostRuntime,
    faults: u64,
    cause: Option<Error>,
}

impl<'r> HostFiles<'r> {
    pub fn new(rt: &'r HostRuntime) -> HostFiles<'r>
        ensures { result.faults ≡ 0 }
    {
        HostFiles {
            rt,
            faults: 0,
            cause: None,
        }
    }

    /// Why a file couldn't be had, or why the last call that failed on one did so.
    pub fn cause(&self) -> Option<Error> {
        self.cause
    }

    // The whole blocks of a file that is there. Its end says how long it is, also where it is a
    // block device, of which the metadata says nothing.
    fn opened(&self, access: Access, path: &str) -> io::Result<FileDevice<File>> {
        let kind = fs::metadata(self.rt, path)?.file_type();
        // A pipe could keep the opening waiting, and a folder opens for reading too.
        if !kind.is_file() && !kind.is_block_device() {
            let message = "neither a file nor a block device";
            return Err(Error::new(ErrorKind::InvalidInput, message));
        }
        let is_written = access == Access::Write;
        let mut options = File::options();
        options.read(true).write(is_written);
        let mut file = off_the_streams(options.open(self.rt, path)?)?;
        lock(&file, access)?;
        let bytes = file.seek(SeekFrom::End(0))?;
        Ok(FileDevice::new(file, bytes / BLOCK))
    }

    // A file that isn't there yet. Its blocks are zero, since nothing was written to it. Its length
    // lasts, and the folder is synced so that its name does.
    fn made(&self, blocks: u64, path: &str) -> io::Result<FileDevice<File>>
        requires { blocks < 2 ^ 51 }
        ensures { IfOk result (λ file. file.blocks ≡ blocks) }
    {
        let folder = File::open(self.rt, folder_of(path))?;
        let file = off_the_streams(File::create_new(self.rt, path)?)?;
        lock(&file, Access::Write)?;
        file.set_len(blocks * BLOCK)?;
        file.sync_all()?;
        folder.sync_all()?;
        Ok(FileDevice::new(file, blocks))
    }
}

// The folder in which the path's last name stands.
fn folder_of(path: &str) -> &str {
    match path.rsplit_once('/') {
        Some(("", _)) => "/",
        Some((folder, _)) => folder,
        None => ".",
    }
}

// Locks the file until it is closed: for one program that writes it, or for any that read it.
fn lock(file: &File, access: Access) -> io::Result<()> {
    let locked = match access {
        Access::Read => file.try_lock_shared(),
        Access::Write => file.try_lock(),
    };
    match locked {
        Ok(()) => Ok(()),
        Err(TryLockError::WouldBlock) => {
            let message = "another program has it locked";
            Err(Error::new(ErrorKind::WouldBlock, message))
        }
        Err(TryLockError::Error(error)) => Err(error),
    }
}

// The file at a descriptor that is no standard stream's. Where the program was started with one of
// these closed, the next file gets its descriptor, and what is printed would go over the volume. A
// duplicate has another, and with `file` the stream is closed again, so that using it fails.
fn off_the_streams(file: File) -> io::Result<File> {
    if file.as_raw_fd() <= LAST_STREAM {
        file.try_clone()
    } else {
        Ok(file)
    }
}

impl<'r> DiskFiles for HostFiles<'r> {
    type Disk = FileDevice<File>;

    ghost open_gives = { λ _ _ _ _ _. Unit {0} };

    ghost make_gives = { λ _ _ _ _ _. Unit {0} };

    ghost close_gives = { λ _ _ _. Unit {0} };

    ghost fault_count = { λ files. files.faults };

    fn open(&mut self, access: Access, path: &str) -> Result<FileDevice<File>, Failed> {
        match self.opened(access, path) {
            Ok(file) => Ok(file),
            Err(error) => {
                self.cause = Some(error);
                self.faults = self.faults.saturating_add(1);
                Err(Failed)
            }
        }
    }

    fn make(&mut self, blocks: u64, path: &str) -> Result<FileDevice<File>, Failed> {
        match self.made(blocks, path) {
            Ok(file) => Ok(file),
            Err(error) => {
                self.cause = Some(error);
                self.faults = self.faults.saturating_add(1);
                Err(Failed)
            }
        }
    }

    fn close(&mut self, dev: FileDevice<File>) {
        self.cause = dev.cause();
    }
}
