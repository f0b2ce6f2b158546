//! A device that is a file of the operating system.

ghost use Rattle.std.specs.Prelude.{[]};

use crate::device::{Device, DeviceError};
use crate::replacing::Replaceable;
use std::alloc::{AllocError, Global};
use std::fs::{File, OpenOptions, TryLockError};
use std::os::unix::fs::{FileExt, MetadataExt};
use std::path::PathBuf;
use std::{fs, io};
use thiserror::Error as ErrorDerive;

/// Why a file was not created or opened as a device.
#[derive(Clone, Copy, Debug, PartialEq, Eq, ErrorDerive)]
pub enum FileError {
    /// Another device has locked the file: a store has it open, in this process or in another one.
    #[error("another store has the file open")]
    Locked,

    /// An allocation failed, or the operating system reported an error.
    #[error("{0}")]
    Device(DeviceError),
}

impl From<DeviceError> for FileError {
    fn from(error: DeviceError) -> FileError {
        FileError::Device(error)
    }
}

impl From<io::Error> for FileError {
    fn from(error: io::Error) -> FileError {
        FileError::Device(DeviceError::from(error))
    }
}

impl From<TryLockError> for FileError {
    fn from(error: TryLockError) -> FileError {
        match error {
            TryLockError::WouldBlock => FileError::Locked,
            TryLockError::Error(error) => FileError::from(error),
        }
    }
}

/// A file of the operating system, which is locked while the device exists.
///
/// The second file of a replacement is beside it: its name has `.new` at the end. A crash may leave it, and the next replacement writes it anew. If
/// the path is relative, it is that of the folder in which the program runs, which must not change while the device exists.
///
/// That a file behaves as the models of [`Device`] and [`Replaceable`] is assumed, and no contract of this type says so: it depends on the operating
/// system, on the file system and on the disk. What the calls do is tested on a real file. The lock is advisory: it keeps out other devices, and not
/// other programs.
#[derive(Drop)]
pub struct FileDevice<'a> {
    rt: &'a HostRuntime,
    path: String,
    file: File,
    // The number of bytes.
    len: u64,
    // The second file, until it is given the name.
    beside: Option<File>,
}

impl From<io::Error> for DeviceError {
    fn from(error: io::Error) -> DeviceError {
        DeviceError::Failed(error.raw_os_error())
    }
}

// Syncs the folder of a file, so that its name is kept.
fn sync_folder(rt: &HostRuntime, path: &str) -> Result<(), DeviceError> {
    let mut folder = PathBuf::from_str(rt.alloc(), path)?;
    folder.pop();
    if folder.as_str().is_empty() {
        folder.push(".")?;
    }
    File::open(rt, folder.as_str())?.sync_all()?;
    Ok(())
}

// Returns the path of the second file of a replacement.
fn path_beside(rt: &HostRuntime, path: &str) -> Result<String, AllocError> {
    let mut beside = String::from_str(rt.alloc(), path)?;
    beside.push_str(".new")?;
    Ok(beside)
}

// Locks a file.
fn lock(file: &File) -> Result<(), DeviceError> {
    if let Err(error) = file.try_lock() {
        return Err(DeviceError::from(io::Error::from(error)));
    }
    Ok(())
}

// Fails unless the path leads to the file. A replacement by another device may have given the path to another file before this one was locked.
fn check_path(rt: &HostRuntime, path: &str, file: &File) -> Result<(), DeviceError> {
    let named = fs::metadata(rt, path)?;
    let locked = file.metadata()?;
    if named.dev() != locked.dev() || named.ino() != locked.ino() {
        return Err(DeviceError::Failed(None));
    }
    Ok(())
}

impl<'a> FileDevice<'a> {
    // Returns a locked file as a device, if the path leads to it.
    fn with_path(rt: &'a HostRuntime, path: &str, file: File) -> Result<Self, DeviceError> {
        check_path(rt, path, &file)?;
        let path = String::from_str(rt.alloc(), path)?;
        let len = file.metadata()?.len();
        Ok(FileDevice {
            rt,
            path,
            file,
            len,
            beside: None,
        })
    }

    // Locks the file that has the path, and returns it as a device.
    fn locked(rt: &'a HostRuntime, path: &str, file: File) -> Result<Self, FileError> {
        if let Err(error) = file.try_lock() {
            return Err(FileError::from(error));
        }
        Ok(FileDevice::with_path(rt, path, file)?)
    }

    /// Creates an empty file, and returns once its name is kept.
    ///
    /// # Errors
    /// `Locked` if another device locks the file during the call. `Device` with `Memory` if an allocation fails, and with `Failed` if there is a file
    /// of this name or if the operating system fails. A file may then be left.
    ///
    /// # Memory
    /// The path. Temporarily also the path of its folder.
    pub fn create(rt: &'a HostRuntime, path: &str) -> Result<Self, FileError> {
        let device = FileDevice::locked(rt, path, File::create_new(rt, path)?)?;
        sync_folder(rt, path)?;
        Ok(device)
    }

    /// Opens a file, and returns once its bytes are kept: then it is at rest.
    ///
    /// # Errors
    /// `Locked` if another device has locked the file. `Device` with `Memory` if an allocation fails, and with `Failed` if there is no file of this
    /// name, if another device replaced it during the call, or if the operating system fails.
    ///
    /// # Memory
    /// The path.
    pub fn open(rt: &'a HostRuntime, path: &str) -> Result<Self, FileError> {
        let file = OpenOptions::new().read(true).write(true).open(rt, path)?;
        let device = FileDevice::locked(rt, path, file)?;
        device.file.sync_all()?;
        Ok(device)
    }
}

impl<'a> Device for FileDevice<'a> {
    ghost behaves = { λ device. ⊥ };

    ghost seen = { λ device. [] };

    ghost may_leave = { λ device c. ⊥ };

    ghost moment = { λ device. 0 };

    ghost left_since = { λ device t c. ⊥ };

    ghost faults = { λ device. 0 };

    ghost counts_now = { λ device t c behaves le left. absurd behaves };

    ghost only_now = { λ device c behaves left. absurd behaves };

    fn read_all(&mut self, alloc: Global) -> Result<Vec<u8>, DeviceError> {
        let mut bytes = Vec::new(alloc);
        bytes.resize(self.len as usize, 0)?;
        self.file.read_exact_at(&mut bytes, 0)?;
        Ok(bytes)
    }

    fn append(&mut self, bytes: &[u8]) -> Result<(), DeviceError> {
        self.file.write_all_at(bytes, self.len)?;
        self.len = self.len.saturating_add(bytes.len() as u64);
        Ok(())
    }

    fn set_byte(&mut self, at: u64, byte: u8) -> Result<(), DeviceError> {
        self.file.write_all_at(&[byte], at)?;
        Ok(())
    }

    fn cut_to(&mut self, len: u64) -> Result<(), DeviceError> {
        self.file.set_len(len)?;
        self.len = len;
        Ok(())
    }

    fn sync(&mut self) -> Result<(), DeviceError> {
        self.file.sync_data()?;
        Ok(())
    }
}

impl<'a> Replaceable for FileDevice<'a> {
    ghost beside = { λ device. [] };

    ghost beside_may_leave = { λ device c. ⊥ };

    ghost named_may_leave = { λ device c. ⊥ };

    // The second file is locked before it has the name, so that no other device opens it then.
    fn write_beside(&mut self, bytes: &[u8]) -> Result<(), DeviceError> {
        let path = path_beside(self.rt, self.path.as_str())?;
        let mut options = OpenOptions::new();
        options.read(true).write(true).create(true);
        let file = options.open(self.rt, path.as_str())?;
        lock(&file)?;
        file.set_len(0)?;
        file.write_all_at(bytes, 0)?;
        self.beside = Some(file);
        Ok(())
    }

    fn sync_beside(&mut self) -> Result<(), DeviceError> {
        let Some(file) = &self.beside else {
            return Err(DeviceError::Failed(None));
        };
        file.sync_all()?;
        Ok(())
    }

    fn rename(&mut self) -> Result<(), DeviceError> {
        let Some(file) = self.beside.take() else {
            return Err(DeviceError::Failed(None));
        };
        let len = file.metadata()?.len();
        let path = path_beside(self.rt, self.path.as_str())?;
        fs::rename(self.rt, path.as_str(), self.path.as_str())?;
        self.file = file;
        self.len = len;
        Ok(())
    }

    fn sync_folder(&mut self) -> Result<(), DeviceError> {
        sync_folder(self.rt, self.path.as_str())
    }
}
