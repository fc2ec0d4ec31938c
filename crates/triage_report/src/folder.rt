//! The folder of the code, and the paths of files in it.
ghost use Rattle.std.specs.Prelude.{◌≡◌, IfOk};
ghost use Rattle.rapid_text.specs.Appended.{Appended};
ghost use Rattle.triage_report.specs.Folder.{file_place, first_path, only_path, path_in, place_in};

use explain_report::places::{cut_at_last, is_line};
use rapid_text::OutOfMemory;
use report::{Piece, append_pieces};
use std::alloc::Global;
use std::collections::BTreeMap;

/// The folder of the code.
#[derive(Drop)]
pub struct Folder {
    /// The path of the folder with a slash at the end; empty if no folder is named.
    pub path: Vec<u8>,
    /// For each name of a file in a location, the paths from the folder of the files in it that fit the name.
    pub files: BTreeMap<Vec<u8>, Vec<Vec<u8>>>,
}

/// The path that is written for the file of a location.
#[tactic(auto, unfolding(crate::specs::Folder::path_in))]
pub fn path_in<'a>(folder: &'a Folder, name: &'a [u8]) -> &'a [u8]
    // It is the path from the folder if exactly one file in it fits the name, else the name.
    ensures path { result.now ≡ path_in folder.now name.now }
{
    match folder.files.get(name) {
        Some(paths) => only_path(paths.as_slice(), name),
        None => name,
    }
}

/// The path, if there is exactly one; else the name.
fn only_path<'a>(paths: &'a [Vec<u8>], name: &'a [u8]) -> &'a [u8]
    ensures { result.now ≡ only_path paths.now name.now }
{
    if paths.len() == 1 {
        first_path(paths, name)
    } else {
        name
    }
}

/// The first path, or the name if there are no paths.
fn first_path<'a>(paths: &'a [Vec<u8>], name: &'a [u8]) -> &'a [u8]
    ensures { result.now ≡ first_path paths.now name.now }
{
    match paths.get(0) {
        Some(path) => path.as_slice(),
        None => name,
    }
}

/// The place with the path of its file from the folder, if it is `FILE:LINE`; any other place unchanged.
pub(crate) fn place_in(alloc: Global, folder: &Folder, place: &[u8]) -> Result<Vec<u8>, OutOfMemory>
    ensures { IfOk result (λ made. made.items ≡ place_in folder.now place.now) }
{
    let mut made = Vec::new(alloc);
    append_place(&mut made, folder, place)?;
    Ok(made)
}

/// Appends this place.
fn append_place(out: &mut Vec<u8>, folder: &Folder, place: &[u8]) -> Result<(), OutOfMemory>
    ensures { Appended result out.old out.new (place_in folder.now place.now) }
{
    if !is_line(place) {
        return append_pieces(out, &[Piece::Words(place)]);
    }
    append_file(out, folder, place)
}

/// Appends this place, which is `FILE:LINE`.
fn append_file(out: &mut Vec<u8>, folder: &Folder, place: &[u8]) -> Result<(), OutOfMemory>
    ensures { Appended result out.old out.new (file_place folder.now place.now) }
{
    let (file, line) = cut_at_last(b':', place);
    append_pieces(
        out,
        &[
            Piece::Words(path_in(folder, file)),
            Piece::Words(b":"),
            Piece::Words(line),
        ],
    )
}
