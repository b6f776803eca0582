//! A new file beside OUT, which the bytes go into first.

ghost use Rattle.std.specs.Prelude.{◌≡◌, ◌/◌, IsTrue, bit_and};
ghost use Rattle.std.specs.Fs.{file_type, metadata_mode, IsFile};

use aig_base::MemoryError;
use std::fs::{self, File, Metadata, OpenFile, Permissions};
use std::io::{self, Read, Seek, SeekFrom, Write};
use std::os::unix::fs::{MetadataExt, OpenOptionsExt, PermissionsExt};
use std::path::PathBuf;
use std::random::RandomSource;
use std::rt::Files;

/// The bits of a mode that say who may read, write and run a file.
const RIGHTS: u32 = 0o777;

/// The bits of a mode that say whose rights a program gets, and the sticky bit.
const SPECIAL: u32 = 0o7000;

/// Names for a new file, none of which another run takes.
#[derive(Drop)]
pub struct Names {
    /// OUT's name, and a random number behind it.
    long: String,
    /// The random number alone, where the first is too long.
    short: String,
}

impl Names {
    /// Names beside the file of this path, if the system gives a random number.
    pub fn beside<R: Files + RandomSource + AllocGlobal>(
        rt: &R,
        path: &str,
    ) -> Result<Option<Names>, MemoryError> {
        let mut bytes = [0; 8];
        if rt.fill_bytes(&mut bytes).is_err() {
            return Ok(None);
        }
        let n = u64::from_le_bytes(bytes);
        let long = format!(in rt.alloc(); "{path}.{n:016x}.part")?;
        let name = format!(in rt.alloc(); "{n:016x}.part")?;
        let mut short = PathBuf::from_str(rt.alloc(), path)?;
        short.set_file_name(name.as_str())?;
        Ok(Some(Names {
            long,
            short: short.into_string(),
        }))
    }

    /// Makes a new file of this mode under one of the names, open for reading and writing.
    pub fn create<R: Files>(self, rt: &R, mode: u32) -> Option<(R::File, String)> {
        let Names { long, short } = self;
        let mut options = File::options();
        options.read(true).write(true).create_new(true).mode(mode);
        if let Ok(file) = options.open(rt, long.as_str()) {
            return Some((file, long));
        }
        let file = options.open(rt, short.as_str()).ok()?;
        Some((file, short))
    }
}

/// Whether a new file may take the place of an old one, which is open and has the name `path`, unless that is a link.
pub fn is_replaceable<R: Files>(rt: &R, path: &str, old: &R::File, new: &R::File) -> bool {
    let (Ok(named), Ok(old), Ok(new)) = (
        fs::symlink_metadata(rt, path),
        old.metadata(),
        new.metadata(),
    ) else {
        return false;
    };
    named.dev() == old.dev() && named.ino() == old.ino() && may_replace(&old, &new)
}

/// Whether a new file may take an old one's place, so that nothing of the old one is lost but its bytes.
///
/// Both have one owner and one group. The old one has no other name, and no bit that a change of its bytes would take away.
/// Its group has no right that others don't have, since that right may be the mask of an access control list.
fn may_replace(old: &Metadata, new: &Metadata) -> bool
    ensures file { IsTrue result → IsFile (file_type old.now) }
    ensures plain { IsTrue result → bit_and (metadata_mode old.now) SPECIAL ≡ 0 }
    ensures group { let group = bit_and (metadata_mode old.now / 8) 7 in
        IsTrue result → bit_and group (metadata_mode old.now) ≡ group }
{
    let mode = old.mode();
    let group = (mode >> 3) & 7;
    old.is_file()
        && old.uid() == new.uid()
        && old.gid() == new.gid()
        && old.nlink() == 1
        && mode & SPECIAL == 0
        && group & mode == group
}

/// Gives a file the rights of another, and says whether it has them.
pub fn take_rights<F: OpenFile>(file: &F, other: &F) -> bool {
    match other.metadata() {
        Ok(found) => file
            .set_permissions(Permissions::from_mode(found.mode() & RIGHTS))
            .is_ok(),
        Err(_) => false,
    }
}

/// Copies what a file has from a place on to the same place of another.
fn copy_from<F: Read + Write + Seek + OpenFile>(
    part: &mut F,
    out: &mut F,
    start: u64,
) -> io::Result<()> {
    part.seek(SeekFrom::Start(start))?;
    out.seek(SeekFrom::Start(start))?;
    io::copy(part, out)?;
    out.sync_all()
}

/// Puts a file's bytes in the place of those of another.
///
/// What lies behind the old bytes is written first. So a disk that is full is noticed while the old bytes are all there, and
/// only what was added is cut off again.
pub fn overwrite<F: Read + Write + Seek + OpenFile + Drop>(
    mut part: F,
    mut out: F,
) -> io::Result<()> {
    let old = out.metadata()?.len();
    let new = part.metadata()?.len();
    if let Err(error) = copy_from(&mut part, &mut out, old) {
        let _ = out.set_len(old);
        return Err(error);
    }
    part.seek(SeekFrom::Start(0))?;
    out.seek(SeekFrom::Start(0))?;
    io::copy(&mut part.take(old), &mut out)?;
    out.set_len(new)?;
    out.sync_all()
}
