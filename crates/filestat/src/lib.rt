// What stands at a path: its kind, its rights, its owner and its group.
#![tactic(auto)]

ghost use Rattle.std.specs.Prelude.{◌≡◌, ◌≢◌, pos, length, Some, IfOk, IfErr, IsErr};
ghost use Rattle.std.specs.Fs.{metadata_mode};
ghost use Rattle.std.specs.IoError.{raw_os_error};
ghost use Rattle.std.specs.Str.{IsUtf8};
ghost use Rattle.filestat.specs.Tells.{IsPath, path_error, number_told, Tells};

use std::fs::{Metadata, symlink_metadata};
use std::io;
use std::os::unix::fs::MetadataExt;
use std::rt::Files;

// The room that the system has for a path, with a 0 at its end.
const PATH_MAX: usize = 4096;

// The system's numbers of errors that are told without asking it.
pub const EIO: i32 = 5;

pub const EINVAL: i32 = 22;

pub const ENAMETOOLONG: i32 = 36;

// What the system says of a file, as far as it is told on.
#[derive(Clone, Copy, Debug, PartialEq, Eq)]
pub struct FileStatus {
    // Its rights in the low 12 bits, and its kind above them.
    pub mode: u32,
    // The numbers of the user and of the group that own it.
    pub owner: u32,
    pub group: u32,
}

// What stands at the path. Of a link it tells of the link itself, and nothing is opened, so a pipe
// or a device is left alone. A path that is too long, that has a byte 0, or that is no text in UTF-8,
// is not found.
pub fn status(files: &impl Files, path: &[u8]) -> io::Result<FileStatus>
    ensures { (IsPath path.now → ⊥) → IsErr result }
{
    let metadata = symlink_metadata(files, path_text(path)?)?;
    Ok(status_of(&metadata))
}

// The path as the system takes it, or the error. All of it can be handed to C, with a 0 at its end.
pub fn path_text(path: &[u8]) -> io::Result<&str>
    ensures whole { IfOk result (λ text. text.now ≡ path.now) }
    ensures is_path { IfOk result (λ text. IsPath text.now) }
    ensures none_lost { IfErr result (λ error. IsPath path.now → IsUtf8 path.now → ⊥) }
    ensures number { IfErr result (λ error. raw_os_error error ≡ Some (path_error (length path.now))) }
{
    if path.len() >= PATH_MAX {
        return Err(io::Error::from_raw_os_error(ENAMETOOLONG));
    }
    if path.contains(&0) {
        return Err(io::Error::from_raw_os_error(EINVAL));
    }
    str::from_utf8(path).map_err(|_| io::Error::from_raw_os_error(EINVAL))
}

fn status_of(m: &Metadata) -> FileStatus
    ensures { result.mode ≡ metadata_mode m.now }
{
    told(m.mode(), m.uid(), m.gid())
}

// The numbers in their places: the system's contract says nothing of an owner and a group.
fn told(mode: u32, owner: u32, group: u32) -> FileStatus
    ensures { Tells mode owner group result }
{
    FileStatus { mode, owner, group }
}

// The system's number of an error. One that it gave no number counts as a failure of the disk.
pub fn error_number(e: &io::Error) -> i32
    ensures number { result ≡ number_told (raw_os_error e.now) }
    ensures some { result ≢ pos 0 }
{
    match e.raw_os_error() {
        Some(number) if number != 0 => number,
        _ => EIO,
    }
}
