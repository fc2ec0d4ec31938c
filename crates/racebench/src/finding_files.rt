//! Finds the files that locations name, in the folder that `--source` names.

use crate::code_names::MAX_FILES;
use crate::coding::UNREAD;
use calls::triage::Folder;
use client_scripts::ReplayFault;
use explain_report::places::cut_at_last;
use rapid_text::OutOfMemory;
use std::alloc::Global;
use std::collections::BTreeMap;
use std::fs::{DirEntry, ReadDir, canonicalize, metadata, read_dir};
use std::io;

/// The most folders that are searched.
const MAX_FOLDERS: usize = 4_096;

/// The most names of files and folders that are read.
const MAX_NAMES: usize = 262_144;

/// The most files that are kept because a location has the last part of their paths.
const MAX_PATHS: usize = 16_384;

/// The most parts of two paths that are compared.
const MAX_PARTS: usize = 256;

/// The most names in `unsure`.
const MAX_UNSURE: usize = 8;

/// For each name of a file, the paths from the folder of the code that fit it best.
type Files = BTreeMap<Vec<u8>, Vec<Vec<u8>>>;

/// What was found in the folder of the code.
#[derive(Drop)]
pub(crate) struct Found<'a> {
    pub(crate) folder: Folder,
    /// The first names that several files fit equally well, 8 at most.
    pub(crate) unsure: Vec<&'a [u8]>,
    /// Whether the folder or the locations have more than is looked at.
    pub(crate) is_cut: bool,
}

/// A search of the folders in the folder of the code.
#[derive(Drop)]
struct Search {
    // the path of the folder of the code, with a slash at its end
    root: Vec<u8>,
    // the last parts of the names that are looked for, rising
    wanted: Vec<Vec<u8>>,
    // the folders, as paths from the root with a slash at the end
    folders: Vec<Vec<u8>>,
    // the files with a wanted last part, as paths from the root
    paths: Vec<Vec<u8>>,
    // how many names were read
    names: usize,
    is_cut: bool,
}

/// What was found for a name: the index of the path that fits best, that of another one that fits as well, and how many
/// parts of the paths are equal.
#[derive(Clone, Copy)]
struct Best {
    first: usize,
    second: Option<usize>,
    parts: usize,
}

/// The fault for an error of the system, if memory ran out. Other errors count as nothing found.
fn memory_fault(error: &io::Error) -> Result<(), ReplayFault> {
    match error.kind() {
        io::ErrorKind::OutOfMemory => Err(ReplayFault::OutOfMemory),
        _ => Ok(()),
    }
}

/// The fault for an error at a folder. A folder that is gone or that may not be read counts as empty.
fn folder_fault(error: &io::Error) -> Result<(), ReplayFault> {
    match error.kind() {
        io::ErrorKind::NotFound => Ok(()),
        io::ErrorKind::NotADirectory => Ok(()),
        io::ErrorKind::PermissionDenied => Ok(()),
        io::ErrorKind::OutOfMemory => Err(ReplayFault::OutOfMemory),
        _ => Err(UNREAD),
    }
}

/// The path with a slash at its end.
fn with_slash(alloc: Global, path: &[u8]) -> Result<Vec<u8>, OutOfMemory> {
    let mut whole = Vec::from_slice(alloc, path)?;
    if !path.ends_with(b"/") {
        whole.push(b'/')?;
    }
    Ok(whole)
}

/// The absolute path of a folder without links in it, with a slash at its end. If the system has none that is text, the
/// path as it was given.
fn root_at(rt: &HostRuntime, folder: &str) -> Result<Vec<u8>, ReplayFault> {
    match canonicalize(rt, folder) {
        Ok(path) => {
            let text = path.into_string();
            Ok(with_slash(rt.alloc(), text.as_bytes())?)
        }
        Err(error) => {
            memory_fault(&error)?;
            Ok(with_slash(rt.alloc(), folder.as_bytes())?)
        }
    }
}

/// A path from the root, after the root.
fn joined(alloc: Global, root: &[u8], path: &[u8]) -> Result<Vec<u8>, OutOfMemory> {
    let mut whole = Vec::from_slice(alloc, root)?;
    whole.extend_from_slice(path)?;
    Ok(whole)
}

/// Whether there is a plain file at this path.
fn is_file(rt: &HostRuntime, path: &str) -> Result<bool, ReplayFault> {
    match metadata(rt, path) {
        Ok(found) => Ok(found.is_file()),
        Err(error) => {
            memory_fault(&error)?;
            Ok(false)
        }
    }
}

/// Whether the path is in the folder `root`, once links are followed.
fn is_within(rt: &HostRuntime, root: &[u8], path: &str) -> Result<bool, ReplayFault> {
    match canonicalize(rt, path) {
        Ok(real) => {
            let text = real.into_string();
            Ok(text.as_bytes().starts_with(root))
        }
        Err(error) => {
            memory_fault(&error)?;
            Ok(false)
        }
    }
}

/// Whether there is a plain file at this path from the root, and no link leads out of the root.
fn is_file_in(rt: &HostRuntime, root: &[u8], path: &[u8]) -> Result<bool, ReplayFault> {
    let whole = joined(rt.alloc(), root, path)?;
    match std::str::from_utf8(whole.as_slice()) {
        Ok(text) => Ok(is_file(rt, text)? && is_within(rt, root, text)?),
        Err(_) => Ok(false),
    }
}

/// The text after this beginning; all of it if it has another beginning.
fn behind<'a>(start: &[u8], text: &'a [u8]) -> &'a [u8] {
    if !text.starts_with(start) {
        return text;
    }
    &text[start.len()..]
}

/// The path from the root that the name itself says: without the root, or without `./`.
fn own_path<'a>(root: &[u8], name: &'a [u8]) -> &'a [u8] {
    behind(b"./", behind(root, name))
}

/// Whether the name is an absolute path to a plain file on this machine.
fn is_elsewhere(rt: &HostRuntime, name: &[u8]) -> Result<bool, ReplayFault> {
    match std::str::from_utf8(name) {
        Ok(path) => Ok(path.starts_with('/') && is_file(rt, path)?),
        Err(_) => Ok(false),
    }
}

/// Adds the paths that fit a name.
fn add_paths(
    alloc: Global,
    files: &mut Files,
    name: &[u8],
    paths: Vec<Vec<u8>>,
) -> Result<(), OutOfMemory> {
    let name = Vec::from_slice(alloc, name)?;
    match files.insert(name, paths) {
        Ok(_) => Ok(()),
        Err(_) => Err(OutOfMemory),
    }
}

/// Adds the only path that fits a name.
fn add_path(alloc: Global, files: &mut Files, name: &[u8], path: &[u8]) -> Result<(), OutOfMemory> {
    let mut paths = Vec::new(alloc);
    let path = Vec::from_slice(alloc, path)?;
    paths.push(path)?;
    add_paths(alloc, files, name, paths)
}

/// Adds a name.
fn add_name<'a>(names: &mut Vec<&'a [u8]>, name: &'a [u8]) -> Result<(), OutOfMemory> {
    Ok(names.push(name)?)
}

/// Adds the files at the paths that names say themselves. Returns the names that must be looked for: those without such
/// a file, unless they begin with the root or are paths to files elsewhere.
fn add_own<'a>(
    rt: &HostRuntime,
    root: &[u8],
    names: &[&'a [u8]],
    files: &mut Files,
) -> Result<Vec<&'a [u8]>, ReplayFault> {
    let mut left = Vec::new(rt.alloc());
    for name in names {
        let path = own_path(root, *name);
        if is_plain(path) && is_file_in(rt, root, path)? {
            add_path(rt.alloc(), files, *name, path)?;
        } else if !name.starts_with(root) && !is_elsewhere(rt, *name)? {
            add_name(&mut left, *name)?;
        }
    }
    Ok(left)
}

/// The last part of a path: what comes after its last slash.
fn last_part(path: &[u8]) -> &[u8] {
    let (_, last) = cut_at_last(b'/', path);
    last
}

/// The last parts of the names, rising, each once.
fn last_parts(alloc: Global, names: &[&[u8]]) -> Result<Vec<Vec<u8>>, OutOfMemory> {
    let mut parts = Vec::new(alloc);
    for name in names {
        let part = Vec::from_slice(alloc, last_part(*name))?;
        parts.push(part)?;
    }
    parts.sort_unstable();
    parts.dedup();
    Ok(parts)
}

/// How many parts of two paths are equal, counted from their ends, 256 at most.
fn equal_parts(path: &[u8], name: &[u8]) -> usize {
    let mut path = path;
    let mut name = name;
    for count in 0..MAX_PARTS {
        let (above, last) = cut_at_last(b'/', path);
        let (over, part) = cut_at_last(b'/', name);
        if last.is_empty() || last != part {
            return count;
        }
        if above.is_empty() || over.is_empty() {
            return count + 1;
        }
        path = above;
        name = over;
    }
    MAX_PARTS
}

/// How many parts a path has, counted from its end up to `.`, `..` or a slash at its beginning, 256 at most.
fn part_count(path: &[u8]) -> usize {
    let mut path = path;
    for count in 0..MAX_PARTS {
        let (above, last) = cut_at_last(b'/', path);
        if last.is_empty() || last == b".".as_slice() || last == b"..".as_slice() {
            return count;
        }
        if above.is_empty() {
            return count + 1;
        }
        path = above;
    }
    MAX_PARTS
}

/// Whether a path is relative and has no parts `.` or `..` and no empty ones.
fn is_plain(path: &[u8]) -> bool {
    let slashes = path.iter().filter(|byte| **byte == b'/').count();
    part_count(path) == slashes.saturating_add(1)
}

/// How many parts must be equal if a path from the root is to fit the name: all of the name. If the name is absolute,
/// all of the path, and two at least, because the code may have been in another folder.
fn least_parts(path: &[u8], name: &[u8]) -> usize {
    if name.starts_with(b"/") {
        part_count(path).max(2)
    } else {
        part_count(name)
    }
}

impl Search {
    /// A search for these last parts that has not begun.
    fn new(alloc: Global, root: &[u8], wanted: Vec<Vec<u8>>) -> Result<Search, OutOfMemory> {
        let mut folders = Vec::new(alloc);
        folders.push(Vec::new(alloc))?;
        Ok(Search {
            root: Vec::from_slice(alloc, root)?,
            wanted,
            folders,
            paths: Vec::new(alloc),
            names: 0,
            is_cut: false,
        })
    }

    /// Searches the folders, those nearest to the root first.
    fn run(&mut self, rt: &HostRuntime) -> Result<(), ReplayFault> {
        for at in 0..MAX_FOLDERS {
            if self.is_cut || at >= self.folders.len() {
                return Ok(());
            }
            let folder = Vec::from_slice(rt.alloc(), self.folders[at].as_slice())?;
            self.search(rt, folder.as_slice())?;
        }
        self.is_cut = self.is_cut || self.folders.len() > MAX_FOLDERS;
        Ok(())
    }

    /// Searches a folder, if it can be read.
    fn search(&mut self, rt: &HostRuntime, folder: &[u8]) -> Result<(), ReplayFault> {
        let whole = joined(rt.alloc(), self.root.as_slice(), folder)?;
        let Ok(path) = std::str::from_utf8(whole.as_slice()) else {
            return Ok(());
        };
        match read_dir(rt, path) {
            Ok(entries) => self.read(rt, folder, entries),
            Err(error) => folder_fault(&error),
        }
    }

    /// Reads the names in a folder. Names that are no text are skipped.
    fn read(
        &mut self,
        rt: &HostRuntime,
        folder: &[u8],
        mut entries: ReadDir,
    ) -> Result<(), ReplayFault> {
        for _ in 0..MAX_NAMES {
            match entries.next() {
                None => return Ok(()),
                Some(Ok(entry)) => self.add(rt, folder, &entry)?,
                Some(Err(error)) => memory_fault(&error)?,
            }
            self.names = self.names.saturating_add(1);
            if self.names >= MAX_NAMES {
                self.is_cut = true;
                return Ok(());
            }
        }
        Ok(())
    }

    /// Adds a folder or a file. Names that begin with a dot are skipped, and so are links to folders.
    fn add(
        &mut self,
        rt: &HostRuntime,
        folder: &[u8],
        entry: &DirEntry,
    ) -> Result<(), ReplayFault> {
        let name = entry.file_name();
        if name.starts_with('.') {
            return Ok(());
        }
        match entry.file_type() {
            Ok(kind) if kind.is_dir() => Ok(self.add_folder(rt.alloc(), folder, name)?),
            Ok(kind) if kind.is_file() => Ok(self.add_path(rt.alloc(), folder, name)?),
            Ok(kind) if kind.is_symlink() => self.add_link(rt, folder, name),
            Ok(_) => Ok(()),
            Err(error) => memory_fault(&error),
        }
    }

    /// Adds a folder that is to be searched.
    fn add_folder(&mut self, alloc: Global, folder: &[u8], name: &str) -> Result<(), OutOfMemory> {
        if self.folders.len() > MAX_FOLDERS {
            return Ok(());
        }
        let mut path = joined(alloc, folder, name.as_bytes())?;
        path.push(b'/')?;
        self.folders.push(path)?;
        Ok(())
    }

    /// Whether a name ends in this last part.
    fn is_wanted(&self, name: &[u8]) -> bool {
        self.wanted
            .as_slice()
            .binary_search_by(|part| part.as_slice().cmp(name))
            .is_ok()
    }

    /// Adds a file, if a name ends in its last part.
    fn add_path(&mut self, alloc: Global, folder: &[u8], name: &str) -> Result<(), OutOfMemory> {
        if !self.is_wanted(name.as_bytes()) {
            return Ok(());
        }
        if self.paths.len() >= MAX_PATHS {
            self.is_cut = true;
            return Ok(());
        }
        let path = joined(alloc, folder, name.as_bytes())?;
        self.paths.push(path)?;
        Ok(())
    }

    /// Adds a link, if it leads to a plain file in the root and a name ends in its last part.
    fn add_link(&mut self, rt: &HostRuntime, folder: &[u8], name: &str) -> Result<(), ReplayFault> {
        if !self.is_wanted(name.as_bytes()) {
            return Ok(());
        }
        let path = joined(rt.alloc(), folder, name.as_bytes())?;
        if is_file_in(rt, self.root.as_slice(), path.as_slice())? {
            self.add_path(rt.alloc(), folder, name)?;
        }
        Ok(())
    }

    /// The path that fits the name best, if one fits. A path fits better if more of its last parts are those of the
    /// name; the parts of the root count as well.
    fn best_of(&self, alloc: Global, name: &[u8]) -> Result<Option<Best>, OutOfMemory> {
        let mut best: Option<Best> = None;
        for at in 0..self.paths.len() {
            let path = self.paths[at].as_slice();
            if last_part(path) == last_part(name) {
                let whole = joined(alloc, self.root.as_slice(), path)?;
                let parts = equal_parts(whole.as_slice(), name);
                if parts >= least_parts(path, name) {
                    best = better_of(best, at, parts);
                }
            }
        }
        Ok(best)
    }

    /// Adds the path that fits the name best. If another fits as well, adds that one too.
    fn add_best<'a>(
        &self,
        alloc: Global,
        name: &'a [u8],
        files: &mut Files,
        unsure: &mut Vec<&'a [u8]>,
    ) -> Result<(), OutOfMemory> {
        let Some(best) = self.best_of(alloc, name)? else {
            return Ok(());
        };
        let mut paths = Vec::new(alloc);
        self.add_at(alloc, &mut paths, best.first)?;
        if let Some(second) = best.second {
            self.add_at(alloc, &mut paths, second)?;
            if unsure.len() < MAX_UNSURE {
                unsure.push(name)?;
            }
        }
        add_paths(alloc, files, name, paths)
    }

    /// Adds the path with this index.
    fn add_at(
        &self,
        alloc: Global,
        paths: &mut Vec<Vec<u8>>,
        at: usize,
    ) -> Result<(), OutOfMemory> {
        let Some(path) = self.paths.get(at) else {
            return Ok(());
        };
        let path = Vec::from_slice(alloc, path.as_slice())?;
        paths.push(path)?;
        Ok(())
    }
}

/// The best fit, once the path with this index is known to have `parts` equal parts.
fn better_of(best: Option<Best>, at: usize, parts: usize) -> Option<Best> {
    match best {
        Some(best) if best.parts > parts => Some(best),
        Some(best) if best.parts == parts => Some(Best {
            first: best.first,
            second: Some(at),
            parts,
        }),
        _ => Some(Best {
            first: at,
            second: None,
            parts,
        }),
    }
}

/// The files that these names mean, in the folder at this path. The names are rising.
pub(crate) fn find_files<'a>(
    rt: &HostRuntime,
    folder: &str,
    names: &[&'a [u8]],
) -> Result<Found<'a>, ReplayFault> {
    let root = root_at(rt, folder)?;
    let mut files = BTreeMap::new(rt.alloc());
    let mut unsure = Vec::new(rt.alloc());
    let left = add_own(rt, root.as_slice(), names, &mut files)?;
    let is_cut = add_left(
        rt,
        root.as_slice(),
        left.as_slice(),
        &mut files,
        &mut unsure,
    )?;
    Ok(Found {
        folder: Folder { path: root, files },
        unsure,
        is_cut: is_cut || names.len() >= MAX_FILES,
    })
}

/// Searches the root for the names that are left, and adds the files. Returns whether the root has more than is
/// searched.
fn add_left<'a>(
    rt: &HostRuntime,
    root: &[u8],
    left: &[&'a [u8]],
    files: &mut Files,
    unsure: &mut Vec<&'a [u8]>,
) -> Result<bool, ReplayFault> {
    if left.is_empty() {
        return Ok(false);
    }
    let wanted = last_parts(rt.alloc(), left)?;
    let mut search = Search::new(rt.alloc(), root, wanted)?;
    search.run(rt)?;
    search.paths.sort_unstable();
    for name in left {
        search.add_best(rt.alloc(), *name, files, unsure)?;
    }
    Ok(search.is_cut)
}
