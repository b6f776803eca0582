//! The file that the bytes go into first, and how they get into OUT.

use crate::part::{Names, is_replaceable, overwrite, take_rights};
use aig::WriteError;
use std::fs::{self, File, OpenFile};
use std::io::ErrorKind;
use std::rt::Files;

/// The mode that a new OUT is asked for, of which the system takes away what the user's mask says.
const NEW: u32 = 0o666;

/// The mode of a file beside an old OUT: its owner alone reads and writes it.
const PRIVATE: u32 = 0o600;

/// Where OUT is.
#[derive(Drop)]
pub struct Target<'a, R> {
    /// What reaches it.
    pub rt: &'a R,
    /// The path that was given, which may lead to it by links.
    pub out: &'a str,
    /// Its own name, if that could be found, and nothing where OUT is a descriptor.
    pub path: String,
}

/// A file that takes bytes, and what is done with it at the end.
#[derive(Drop)]
pub struct Opened<F> {
    pub file: F,
    pub at_end: AtEnd<F>,
}

/// What is done with a file that was written whole.
#[derive(Drop)]
pub enum AtEnd<F> {
    /// Nothing, since it is OUT.
    Stay,
    /// It takes OUT's name, and the rights of the old OUT if there is one.
    Rename {
        /// Its name until then.
        name: String,
        /// The old OUT, open for writing.
        old: Option<F>,
    },
    /// It has no name, and is copied into the old OUT, which is open for writing.
    Copy(F),
}

/// Copies a file into OUT.
fn copy<R: Files>(file: R::File, out: R::File) -> Result<(), WriteError> {
    match overwrite(file, out) {
        Ok(()) => Ok(()),
        Err(_) => Err(WriteError::Stream),
    }
}

/// Waits until what was written to a regular file is kept.
fn keep(file: &impl OpenFile) -> Result<(), WriteError> {
    match file.metadata() {
        Ok(found) if found.is_file() && file.sync_all().is_err() => Err(WriteError::Stream),
        _ => Ok(()),
    }
}

impl<'a, R: Files> Target<'a, R> {
    /// Opens a file for OUT's bytes, if that can be done.
    pub fn open(&self, names: Option<Names>) -> Option<Opened<R::File>> {
        match fs::metadata(self.rt, self.out) {
            Ok(found) if found.is_file() => {
                let old = File::options().write(true).open(self.rt, self.out);
                self.open_over(names, old.ok()?)
            }
            Err(error) if error.kind() == ErrorKind::NotFound && self.is_free() => {
                self.open_new(names)
            }
            _ => self.open_itself(),
        }
    }

    /// Whether nothing has OUT's own name, not even a link.
    fn is_free(&self) -> bool {
        match fs::symlink_metadata(self.rt, self.path.as_str()) {
            Ok(_) => false,
            Err(error) => error.kind() == ErrorKind::NotFound,
        }
    }

    /// Opens OUT itself, empty.
    fn open_itself(&self) -> Option<Opened<R::File>> {
        Some(Opened {
            file: File::create(self.rt, self.out).ok()?,
            at_end: AtEnd::Stay,
        })
    }

    /// Makes a new file beside OUT, under one of the names.
    fn open_beside(&self, names: Option<Names>, mode: u32) -> Option<(R::File, String)> {
        names?.create(self.rt, mode)
    }

    /// Opens a file for an OUT that isn't there: a new one beside it, or else OUT itself.
    fn open_new(&self, names: Option<Names>) -> Option<Opened<R::File>> {
        match self.open_beside(names, NEW) {
            Some((file, name)) => Some(Opened {
                file,
                at_end: AtEnd::Rename { name, old: None },
            }),
            None => self.open_itself(),
        }
    }

    /// Opens a file for an OUT that is there, and open for writing: a new one beside it, or else OUT itself, empty.
    fn open_over(&self, names: Option<Names>, old: R::File) -> Option<Opened<R::File>> {
        let Some((file, name)) = self.open_beside(names, PRIVATE) else {
            old.set_len(0).ok()?;
            return Some(Opened {
                file: old,
                at_end: AtEnd::Stay,
            });
        };
        if is_replaceable(self.rt, self.path.as_str(), &old, &file) {
            let old = Some(old);
            return Some(Opened {
                file,
                at_end: AtEnd::Rename { name, old },
            });
        }
        self.remove(name.as_str());
        Some(Opened {
            file,
            at_end: AtEnd::Copy(old),
        })
    }

    /// Removes a file beside OUT.
    fn remove(&self, name: &str) {
        let _ = fs::remove_file(self.rt, name);
    }

    /// Gets the bytes of a file that was written whole into OUT.
    #[inline(never)]
    pub fn settle(self, file: R::File, at_end: AtEnd<R::File>) -> Result<(), WriteError> {
        match at_end {
            AtEnd::Stay => keep(&file),
            AtEnd::Copy(old) => copy::<R>(file, old),
            AtEnd::Rename { name, old } => self.replace(file, name.as_str(), old),
        }
    }

    /// Opens OUT itself for writing, with the bytes that it may have got by now.
    fn open_again(&self) -> Result<R::File, WriteError> {
        match File::options()
            .write(true)
            .create(true)
            .open(self.rt, self.out)
        {
            Ok(out) => Ok(out),
            Err(_) => Err(WriteError::Open),
        }
    }

    /// Gives a file OUT's name and the rights of the old OUT, or copies it into OUT where the system refuses that.
    fn replace(&self, file: R::File, name: &str, old: Option<R::File>) -> Result<(), WriteError> {
        let has_rights = match &old {
            Some(old) => take_rights(&file, old),
            None => true,
        };
        if file.sync_all().is_err() {
            self.remove(name);
            return Err(WriteError::Stream);
        }
        if has_rights && fs::rename(self.rt, name, self.path.as_str()).is_ok() {
            return Ok(());
        }
        self.remove(name);
        let out = match old {
            Some(old) => old,
            None => self.open_again()?,
        };
        copy::<R>(file, out)
    }
}
