//! The folder into which `cut` writes windows: what is there, and making it.

use crate::write_notes::cause_of;
use std::{fs, io};

/// What is at the path of the folder for the windows.
#[derive(Clone, Copy)]
pub(crate) enum Folder {
    /// A folder without files. It may have been made just now.
    Empty,
    /// A folder with files.
    Full,
    /// Something that can't be read as a folder.
    Unread,
    /// Nothing, and no folder can be made there. This is why, in words.
    Unmade(&'static [u8]),
    /// Memory ran out while looking.
    NoMemory,
}

/// What is at a path, if it could not be read because of this error. If nothing is there, makes a folder.
fn failed_at(rt: &HostRuntime, path: &str, error: io::Error) -> Folder {
    match error.kind() {
        io::ErrorKind::NotFound => made_at(rt, path),
        io::ErrorKind::OutOfMemory => Folder::NoMemory,
        _ => Folder::Unread,
    }
}

/// Makes a folder at the path.
fn made_at(rt: &HostRuntime, path: &str) -> Folder {
    match fs::create_dir(rt, path) {
        Ok(()) => Folder::Empty,
        Err(error) => {
            if error.kind() == io::ErrorKind::OutOfMemory {
                Folder::NoMemory
            } else {
                Folder::Unmade(cause_of(&error))
            }
        }
    }
}

/// What is at the path of a folder, if reading its first name failed with this error.
fn unnamed_in(error: io::Error) -> Folder {
    match error.kind() {
        // There is a file, and its name is not text.
        io::ErrorKind::InvalidFilename => Folder::Full,
        io::ErrorKind::OutOfMemory => Folder::NoMemory,
        _ => Folder::Unread,
    }
}

/// What is at the path of a folder. If nothing is there, the folder is made.
pub(crate) fn folder_at(rt: &HostRuntime, path: &str) -> Folder {
    match fs::read_dir(rt, path) {
        Ok(mut entries) => match entries.next() {
            None => Folder::Empty,
            Some(Ok(_)) => Folder::Full,
            Some(Err(error)) => unnamed_in(error),
        },
        Err(error) => failed_at(rt, path, error),
    }
}
