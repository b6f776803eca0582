//! What OUT names.

use crate::system::told;
use aig_base::MemoryError;
use std::fs;
use std::path::{Path, PathBuf};
use std::rt::Files;

/// How many links are followed, which is as many as the system follows.
const LINKS: usize = 40;

/// What OUT names.
#[derive(Drop)]
pub enum Place {
    /// The standard output of this process.
    StandardOutput,
    /// Another descriptor, of this process or another.
    Descriptor,
    /// A file of this name, which is no link if all links could be followed.
    File(String),
}

/// The folder that a path is in.
fn folder<'a>(path: Path<'a>) -> &'a str {
    match path.parent() {
        Some(folder) if !folder.as_str().is_empty() => folder.as_str(),
        _ => ".",
    }
}

/// The descriptor that a path names, if it does: its folder is then that of a process's descriptors.
fn descriptor<R: Files + AllocGlobal>(
    rt: &R,
    path: Path<'_>,
) -> Result<Option<Place>, MemoryError> {
    let Some(found) = told(fs::canonicalize(rt, folder(path)))? else {
        return Ok(None);
    };
    if !found.as_str().starts_with("/proc/") || !found.as_str().ends_with("/fd") {
        return Ok(None);
    }
    let Some(own) = told(fs::canonicalize(rt, "/proc/self/fd"))? else {
        return Ok(Some(Place::Descriptor));
    };
    if own.as_str() == found.as_str() && path.file_name() == Some("1") {
        return Ok(Some(Place::StandardOutput));
    }
    Ok(Some(Place::Descriptor))
}

/// What OUT names, by following its links one at a time.
///
/// A link that can't be read, since its text isn't UTF-8 or is too long, is taken for the file.
#[inline(never)]
pub fn find<R: Files + AllocGlobal>(rt: &R, out: &str) -> Result<Place, MemoryError> {
    let mut path = PathBuf::from_str(rt.alloc(), out)?;
    for _ in 0..LINKS {
        if let Some(place) = descriptor(rt, path.as_path())? {
            return Ok(place);
        }
        match told(fs::read_link(rt, path.as_path()))? {
            Some(text) => path.set_file_name(text.as_str())?,
            None => break,
        }
    }
    Ok(Place::File(path.into_string()))
}
