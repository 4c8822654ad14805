//! A runtime for tests: words and three files of the test's own, and what was printed.

ghost use Rattle.std.specs.Prelude.{IsErr};

use std::alloc::{Allocator, Global};
use std::cell::RefCell;
use std::env::FillError;
use std::fmt::{Display, Write as _};
use std::fs::{Metadata, OpenFile, OpenOptions};
use std::io;
use std::io::{ErrorKind, Read, Seek, SeekFrom, Write};
use std::rt::{Env, Files};

/// The most bytes of a text that are read at once.
const MOST_PIECE: usize = 4096;

/// A file that gives a few bytes a read, and fails in this way once it was read so often, or where more than a piece is asked for.
#[derive(Clone, Copy)]
pub struct TestFile {
    pub bytes: &'static [u8],
    pub reads: usize,
    pub failure: ErrorKind,
}

impl Read for TestFile {
    fn read(&mut self, buf: &mut [u8]) -> io::Result<usize> {
        if self.reads == 0 || buf.len() > MOST_PIECE {
            return Err(io::Error::from(self.failure));
        }
        self.reads -= 1;
        let count = self.bytes.len().min(buf.len()).min(7);
        buf[..count].copy_from_slice(&self.bytes[..count]);
        self.bytes = &self.bytes[count..];
        Ok(count)
    }
}

fn unsupported<T>() -> io::Result<T>
    ensures { IsErr result }
{
    Err(io::Error::from(ErrorKind::Unsupported))
}

impl Write for TestFile {
    fn write(&mut self, _buf: &[u8]) -> io::Result<usize> {
        unsupported()
    }

    fn flush(&mut self) -> io::Result<()> {
        unsupported()
    }
}

impl Seek for TestFile {
    fn seek(&mut self, _to: SeekFrom) -> io::Result<u64> {
        unsupported()
    }
}

impl OpenFile for TestFile {
    fn metadata(&self) -> io::Result<Metadata> {
        unsupported()
    }

    fn set_len(&self, _size: u64) -> io::Result<()> {
        unsupported()
    }

    fn sync_all(&self) -> io::Result<()> {
        unsupported()
    }

    fn sync_data(&self) -> io::Result<()> {
        unsupported()
    }
}

/// The runtime. The paths `h`, `c` and `s` lead to its files, where they are there, and no other path leads anywhere.
#[derive(Drop)]
pub struct TestRuntime {
    pub alloc: Global,
    /// The program's name and its words, with a space between each two. Where this is empty there isn't even a name.
    pub words: &'static str,
    pub history: Option<TestFile>,
    pub certificate: Option<TestFile>,
    pub scenario: Option<TestFile>,
    /// Standard output takes no byte.
    pub is_full: bool,
    pub printed: RefCell<String>,
    pub told: RefCell<String>,
}

fn add<D: Display + Drop>(text: &RefCell<String>, value: D) -> io::Result<()> {
    match text.try_borrow_mut() {
        Ok(mut text) => {
            write!(text, "{value}")?;
            Ok(())
        }
        Err(_) => Err(io::Error::from(ErrorKind::ResourceBusy)),
    }
}

impl Alloc for TestRuntime {
    type A = Global;

    fn alloc(&self) -> Global {
        self.alloc
    }
}

impl Print for TestRuntime {
    fn print<D: Display + Drop>(&self, value: D) -> io::Result<()> {
        if self.is_full {
            return Err(io::Error::from(ErrorKind::StorageFull));
        }
        add(&self.printed, value)
    }

    fn println<D: Display + Drop>(&self, value: D) -> io::Result<()> {
        self.print(value)?;
        self.print("\n")
    }

    fn write_all(&self, bytes: &[u8]) -> io::Result<()> {
        match str::from_utf8(bytes) {
            Ok(text) => self.print(text),
            Err(_) => Err(io::Error::from(ErrorKind::InvalidData)),
        }
    }
}

impl Eprint for TestRuntime {
    fn eprint<D: Display + Drop>(&self, value: D) -> io::Result<()> {
        add(&self.told, value)
    }

    fn eprintln<D: Display + Drop>(&self, value: D) -> io::Result<()> {
        self.eprint(value)?;
        self.eprint("\n")
    }
}

impl Env for TestRuntime {
    fn arg(&self, i: usize, buf: &mut [u8]) -> Result<usize, FillError> {
        if self.words.is_empty() {
            return Err(FillError::NotPresent);
        }
        let word = self
            .words
            .split(' ')
            .nth(i)
            .ok_or(FillError::NotPresent)?
            .as_bytes();
        if buf.len() < word.len() {
            return Err(FillError::TooLong);
        }
        buf[..word.len()].copy_from_slice(word);
        Ok(word.len())
    }

    fn var(&self, _name: &str, _buf: &mut [u8]) -> Result<usize, FillError> {
        Err(FillError::NotPresent)
    }

    fn var_at(&self, _i: usize, _buf: &mut [u8]) -> Result<usize, FillError> {
        Err(FillError::NotPresent)
    }
}

impl Files for TestRuntime {
    type File = TestFile;

    type Dir = TestFile;

    fn open_file(&self, _how: &OpenOptions, path: &str) -> io::Result<TestFile> {
        let file = match path {
            "h" => self.history,
            "c" => self.certificate,
            "s" => self.scenario,
            _ => None,
        };
        file.ok_or(io::Error::from(ErrorKind::NotFound))
    }

    fn open_dir(&self, _path: &str) -> io::Result<TestFile> {
        unsupported()
    }

    fn metadata(&self, _path: &str) -> io::Result<Metadata> {
        unsupported()
    }

    fn symlink_metadata(&self, _path: &str) -> io::Result<Metadata> {
        unsupported()
    }

    fn copy(&self, _from: &str, _to: &str) -> io::Result<u64> {
        unsupported()
    }

    fn rename(&self, _from: &str, _to: &str) -> io::Result<()> {
        unsupported()
    }

    fn remove_file(&self, _path: &str) -> io::Result<()> {
        unsupported()
    }

    fn create_dir(&self, _path: &str) -> io::Result<()> {
        unsupported()
    }

    fn remove_dir(&self, _path: &str) -> io::Result<()> {
        unsupported()
    }

    fn remove_dir_all<B: Allocator>(&self, _alloc: B, _path: &str) -> io::Result<()> {
        unsupported()
    }
}
