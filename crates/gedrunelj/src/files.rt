// Whole files: read to their end, and written so that a name leads to the old bytes or to the new ones
// and never to a part. What the system does cannot be said in a contract: this is proved safe and
// ending, and tested through the tool.
ghost use Rattle.std.specs.Prelude.{◌≡◌, ◌+◌, ◌≤◌, length, IfOk};

use super::errors::{Cause, StoreError};
use filestat::{FileStatus, path_text};
use std::fs::{File, Permissions};
use std::io::{ErrorKind, Write};
use std::os::unix::fs::{PermissionsExt, fchown};
use std::{fs, io};

// The kinds of files, above the rights in a file's mode.
const FOLDER: u32 = 0o04;

const REGULAR: u32 = 0o10;

const LINK: u32 = 0o12;

// ── reading ──

pub(crate) fn open(rt: HostRuntime, name: &[u8]) -> io::Result<File> {
    File::open(&rt, path_text(name)?)
}

// The file's bytes, to the start of space, and how many they are. A file that fills it may have more.
pub(crate) fn fetch(rt: HostRuntime, name: &[u8], space: &mut [u8]) -> io::Result<usize>
    ensures { IfOk result (λ n. n ≤ length space.new) }
{
    programs::read_full(&mut open(rt, name)?, space)
}

// ── writing ──

// The name of an unfinished file beside the one that is to be written.
fn unfinished<'a>(name: &[u8], digit: u8, room: &'a mut [u8]) -> &'a [u8]
    requires { length name.now + 5 ≤ length room.old }
{
    let n = name.len();
    room[..n].copy_from_slice(name);
    room[n..n + 5].copy_from_slice(&[b'.', b't', b'm', b'p', digit]);
    &room[..n + 5]
}

// Makes a file that is to be written, where none has the name.
fn create(rt: HostRuntime, name: &[u8]) -> io::Result<File> {
    File::options()
        .write(true)
        .create_new(true)
        .open(&rt, path_text(name)?)
}

// Makes an unfinished file under the first of ten names that is free.
fn begin(rt: HostRuntime, name: &[u8], room: &mut [u8]) -> io::Result<File>
    requires { length name.now + 5 ≤ length room.old }
    ensures { length room.new ≡ length room.old }
{
    for digit in b'0'..b'9' {
        match create(rt, unfinished(name, digit, room)) {
            Err(e) if e.kind() == ErrorKind::AlreadyExists => {}
            made => return made,
        }
    }
    create(rt, unfinished(name, b'9', room))
}

// Gives the new file owner and rights of the one that it replaces, before it has a byte that somebody
// else could read. The owner comes first: a change of it may take rights away.
fn same_rights(file: &File, there: FileStatus) -> io::Result<()> {
    fchown(file, Some(there.owner), Some(there.group))?;
    file.set_permissions(Permissions::from_mode(there.mode % 4096))
}

// Puts all bytes on the disk.
fn written(file: &mut File, bytes: &[u8]) -> io::Result<()> {
    file.write_all(bytes)?;
    file.sync_all()
}

// Gives the finished file its name.
fn rename(rt: HostRuntime, from: &[u8], to: &[u8]) -> io::Result<()> {
    fs::rename(&rt, path_text(from)?, path_text(to)?)
}

// The unfinished file is taken away.
fn undo(rt: HostRuntime, name: &[u8]) {
    if let Ok(path) = path_text(name) {
        let _ = fs::remove_file(&rt, path);
    }
}

fn open_folder(rt: HostRuntime, name: &[u8]) -> io::Result<File> {
    match name.iter().rposition(|b| *b == b'/') {
        Some(n) => open(rt, &name[..n + 1]),
        None => open(rt, b"."),
    }
}

// Puts the new name on the disk: without this a power cut can bring the old file back.
fn force_folder(rt: HostRuntime, name: &[u8]) -> io::Result<()> {
    open_folder(rt, name)?.sync_all()
}

// A file that is to be written, and what has its name before.
#[derive(Clone, Copy)]
struct Stored<'a> {
    rt: HostRuntime,
    name: &'a [u8],
    bytes: &'a [u8],
    there: Option<FileStatus>,
}

impl Stored<'_> {
    // The new file's rights and bytes. It is closed in the end.
    fn complete(self, mut file: File) -> Result<(), StoreError> {
        if let Some(there) = self.there {
            same_rights(&file, there).map_err(StoreError::rights)?;
        }
        written(&mut file, self.bytes)?;
        Ok(())
    }

    // Completes the unfinished file and gives it its name.
    fn finish(self, file: File, unfinished: &[u8]) -> Result<(), StoreError> {
        self.complete(file)?;
        rename(self.rt, unfinished, self.name)?;
        Ok(())
    }

    // Writes the file beside the old one, and puts it in its place.
    fn replace(self) -> Result<(), StoreError>
        requires { length self.name.now ≤ 4000 }
    {
        let mut room = [0u8; 4096];
        let file = begin(self.rt, self.name, &mut room)?;
        let unfinished = &room[..self.name.len() + 5];
        if let Err(why) = self.finish(file, unfinished) {
            undo(self.rt, unfinished);
            return Err(why);
        }
        force_folder(self.rt, self.name).map_err(StoreError::unforced)
    }
}

// Writes a file whole. A regular file is replaced and keeps its owner and rights; whatever else has
// the name stays: a link might lead anywhere, and a device is no place for a list.
pub(crate) fn store(rt: HostRuntime, name: &[u8], bytes: &[u8]) -> Result<(), StoreError> {
    if name.len() > 4000 {
        return Err(StoreError::Failed(Cause::LongName));
    }
    let there = filestat::status(&rt, name).ok();
    let file = Stored {
        rt,
        name,
        bytes,
        there,
    };
    match there.map_or(REGULAR, |there| there.mode / 4096) {
        REGULAR => file.replace(),
        FOLDER => Err(StoreError::Failed(Cause::Folder)),
        LINK => Err(StoreError::Link),
        _ => Err(StoreError::Irregular),
    }
}
