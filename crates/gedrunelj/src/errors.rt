// Why the system refused a file, and why a file was not written.
use filestat::{EINVAL, EIO, ENAMETOOLONG, error_number};
use std::{fmt, io};

// An error of the system: one that the tool has words for, or its number.
#[derive(Clone, Copy)]
pub(crate) enum Cause {
    NotPermitted,
    NoFile,
    Disk,
    Denied,
    InTheWay,
    NoFolder,
    Folder,
    NoName,
    TooLarge,
    NoSpace,
    ReadOnly,
    LongName,
    Circle,
    Other(i32),
}

// By the numbers that Linux has for them. Those that `filestat` answers by itself have names there.
impl From<io::Error> for Cause {
    fn from(e: io::Error) -> Cause {
        match error_number(&e) {
            1 => Cause::NotPermitted,
            2 => Cause::NoFile,
            EIO => Cause::Disk,
            13 => Cause::Denied,
            17 => Cause::InTheWay,
            20 => Cause::NoFolder,
            21 => Cause::Folder,
            EINVAL => Cause::NoName,
            27 => Cause::TooLarge,
            28 => Cause::NoSpace,
            30 => Cause::ReadOnly,
            ENAMETOOLONG => Cause::LongName,
            40 => Cause::Circle,
            other => Cause::Other(other),
        }
    }
}

impl fmt::Display for Cause {
    fn fmt<W: fmt::Write>(&self, f: &mut fmt::Formatter<W>) -> fmt::Result {
        f.write_str(match self {
            Cause::NotPermitted => "not permitted",
            Cause::NoFile => "there is no such file or folder",
            Cause::Disk => "the disk failed",
            Cause::Denied => "permission denied",
            Cause::InTheWay => {
                "unfinished files are in the way, of the same name with .tmp0 to .tmp9"
            }
            Cause::NoFolder => "a part of the path is no folder",
            Cause::Folder => "it is a folder",
            Cause::NoName => "the name is not one of a file",
            Cause::TooLarge => "the file would be too large",
            Cause::NoSpace => "no space is left",
            Cause::ReadOnly => "nothing can be written there",
            Cause::LongName => "the name is too long",
            Cause::Circle => "links lead in a circle",
            Cause::Other(number) => {
                let number = (*number).max(0);
                return write!(f, "error {number} of the system");
            }
        })
    }
}

// Why a file was not written. But for the last, what has its name is as it was.
#[derive(Clone, Copy)]
pub(crate) enum StoreError {
    Failed(Cause),
    // the file that is there has an owner or rights that the new one cannot be given
    Rights(Cause),
    // the name is that of a link
    Link,
    // the name is that of a device, a pipe or a socket
    Irregular,
    // it is written, but its folder could not be forced to the disk
    Unforced(Cause),
}

impl From<io::Error> for StoreError {
    fn from(e: io::Error) -> StoreError {
        StoreError::Failed(Cause::from(e))
    }
}

impl StoreError {
    pub(crate) fn rights(e: io::Error) -> StoreError {
        StoreError::Rights(Cause::from(e))
    }

    pub(crate) fn unforced(e: io::Error) -> StoreError {
        StoreError::Unforced(Cause::from(e))
    }
}
