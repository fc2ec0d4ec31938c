//! The inputs of the program. They are files that the arguments name, which may not be open, and standard input, whose
//! bytes are watched.
ghost use Rattle.std.specs.Prelude.{◌≡◌, All, IfOk, false, length, vec_len};

use crate::marked::{Head, after};
use client_scripts::{Failed, FromRead, Source};
use std::alloc::{AllocError, Global};
use std::fs::File;
use std::io;
use std::io::StdinLock;

/// The path that means standard input.
const STANDARD: &str = "-";

/// Where the bytes of an input come from.
#[derive(Drop)]
enum Stream {
    File(FromRead<File>),
    Standard(FromRead<StdinLock<'static>>),
    /// The file could not be opened.
    Missing,
}

/// A file, or standard input. If a file could not be opened, each read fails.
#[derive(Drop)]
pub(crate) struct Input {
    stream: Stream,
    failed: bool,
    head: Head,
}

impl Input {
    /// Whether the bytes that were read begin with a UTF-8 byte order mark.
    pub(crate) fn has_mark(&self) -> bool {
        self.head == Head::Mark
    }
}

impl Source for Input {
    ghost use Rattle.std.specs.Prelude.{None};

    ghost rest = { λ s. None };

    ghost has_failed = { λ s. s.failed };

    fn read(&mut self, buf: &mut [u8]) -> Result<usize, Failed> {
        let read = match &mut self.stream {
            Stream::File(file) => file.read(buf),
            Stream::Standard(input) => input.read(buf),
            Stream::Missing => Err(Failed),
        };
        self.failed = self.failed || read.is_err();
        if let Ok(count) = read {
            self.head = after(self.head, buf, count);
        }
        read
    }
}

/// Whether the path means standard input.
pub(crate) fn is_standard(path: &str) -> bool {
    path == STANDARD
}

/// The stream that the path names: a file, or standard input.
fn stream_at(rt: &HostRuntime, path: &str) -> Stream {
    if is_standard(path) {
        return Stream::Standard(FromRead::new(rt.reader()));
    }
    match File::open(rt, path) {
        Ok(file) => Stream::File(FromRead::new(file)),
        Err(_) => Stream::Missing,
    }
}

/// The file at a path, or standard input if the path is `-`.
pub(crate) fn input_at(rt: &HostRuntime, path: &str) -> Input
    ensures { result.failed ≡ false }
{
    Input {
        stream: stream_at(rt, path),
        failed: false,
        head: Head::Empty,
    }
}

/// The files at these paths.
pub(crate) fn inputs_at(rt: &HostRuntime, paths: &[&str]) -> Result<Vec<Input>, AllocError>
    ensures count { IfOk result (λ inputs. vec_len inputs ≡ length paths.now) }
    ensures fresh { IfOk result (λ inputs. All (λ input. input.failed ≡ false) inputs.items) }
{
    let mut inputs = Vec::new(rt.alloc());
    for path in paths {
        inputs.push(input_at(rt, path))?;
    }
    Ok(inputs)
}

/// How many of the first bytes of standard input are kept, so that a note can show a line.
const MAX_KEPT: usize = 1_048_576;

/// The room that is reserved first, so that a short input never needs more.
const FIRST_ROOM: usize = 65_536;

/// What a line holds so far.
#[derive(Clone, Copy, PartialEq, Eq)]
enum Line {
    /// Only blanks.
    Blank,
    /// One hyphen.
    One,
    /// Two hyphens next to each other.
    Two,
    /// Three hyphens next to each other, and blanks. It is a divider, if the line ends so.
    Divider,
    /// Anything else.
    Other,
}

/// What the line holds after one more byte.
fn with_byte(line: Line, byte: u8) -> Line {
    match byte {
        b'\n' => Line::Blank,
        b' ' | b'\t' | b'\r' => match line {
            Line::Blank => Line::Blank,
            Line::Divider => Line::Divider,
            _ => Line::Other,
        },
        b'-' => match line {
            Line::Blank => Line::One,
            Line::One => Line::Two,
            Line::Two => Line::Divider,
            _ => Line::Other,
        },
        _ => Line::Other,
    }
}

/// Standard input, and what was seen of it.
#[derive(Drop)]
pub(crate) struct Watched<R: io::Read> {
    reader: FromRead<R>,
    /// The first bytes that came.
    pub(crate) kept: Vec<u8>,
    /// Whether `kept` has all bytes that came.
    pub(crate) is_whole: bool,
    // Whether a line `---` has ended, and what the last line holds.
    is_divided: bool,
    line: Line,
}

impl<R: io::Read + Drop> Watched<R> {
    /// A reader of which nothing was seen yet.
    pub(crate) fn new(alloc: Global, reader: R) -> Result<Watched<R>, AllocError>
        ensures { IfOk result (λ watched. watched.reader.1 ≡ false) }
    {
        let kept = Vec::with_capacity(alloc, FIRST_ROOM)?;
        Ok(Watched {
            reader: FromRead::new(reader),
            kept,
            is_whole: true,
            is_divided: false,
            line: Line::Blank,
        })
    }

    /// Whether the bytes begin with a UTF-8 byte order mark.
    pub(crate) fn has_mark(&self) -> bool {
        after(Head::Empty, self.kept.as_slice(), self.kept.len()) == Head::Mark
    }

    /// Whether there was a line `---`.
    pub(crate) fn has_divider(&self) -> bool {
        self.is_divided || self.line == Line::Divider
    }

    // Looks at the bytes that came.
    fn note(&mut self, bytes: &[u8])
        ensures { self.new.reader ≡ self.old.reader }
    {
        self.keep(bytes);
        // After a divider, lines do not matter.
        if self.is_divided {
            return;
        }
        for byte in bytes {
            if *byte == b'\n' && self.line == Line::Divider {
                self.is_divided = true;
                return;
            }
            self.line = with_byte(self.line, *byte);
        }
    }

    // Keeps the bytes, if they are among the first. If memory runs out, no more bytes are kept.
    fn keep(&mut self, bytes: &[u8])
        ensures { self.new.reader ≡ self.old.reader }
    {
        if !self.is_whole {
            return;
        }
        let room = MAX_KEPT.saturating_sub(self.kept.len());
        let count = bytes.len().min(room);
        let is_kept = self.kept.extend_from_slice(&bytes[..count]).is_ok();
        self.is_whole = is_kept && count == bytes.len();
    }
}

impl<R: io::Read + Drop> Source for Watched<R> {
    ghost use Rattle.std.specs.Prelude.{None};

    ghost rest = { λ s. None };

    ghost has_failed = { λ s. s.reader.1 };

    fn read(&mut self, buf: &mut [u8]) -> Result<usize, Failed> {
        match self.reader.read(buf) {
            Ok(count) => {
                self.note(&buf[..count]);
                Ok(count)
            }
            Err(failed) => Err(failed),
        }
    }
}
