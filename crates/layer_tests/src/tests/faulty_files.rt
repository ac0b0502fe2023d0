// Files that can be opened and read, and each of which is interrupted and fails. Nothing else can be done with them.
use std::alloc::Allocator;
use std::fs::{Files, Metadata, OpenFile, OpenOptions};
use std::io::{self, ErrorKind, Read, Seek, SeekFrom, Write};

/// A file that is interrupted, gives two bytes, is interrupted again, gives two more, and then fails.
#[derive(Drop)]
pub(crate) struct Faulty {
    reads: u8,
}

/// The files.
#[derive(Drop)]
pub(crate) struct FaultyFiles;

/// What is not asked for.
pub(crate) fn unasked<T>() -> io::Result<T> {
    Err(io::Error::from(ErrorKind::Unsupported))
}

impl Read for Faulty {
    fn read(&mut self, buf: &mut [u8]) -> io::Result<usize> {
        self.reads = self.reads.saturating_add(1);
        if self.reads > 4 || buf.len() < 2 {
            return Err(io::Error::from(ErrorKind::Other));
        }
        if self.reads % 2 == 1 {
            return Err(io::Error::from(ErrorKind::Interrupted));
        }
        buf[0] = b'a';
        buf[1] = b'b';
        Ok(2)
    }

    fn read_exact(&mut self, _buf: &mut [u8]) -> io::Result<()> {
        unasked()
    }
}

impl Write for Faulty {
    fn write(&mut self, _buf: &[u8]) -> io::Result<usize> {
        Ok(0)
    }

    fn flush(&mut self) -> io::Result<()> {
        unasked()
    }

    fn write_all(&mut self, _buf: &[u8]) -> io::Result<()> {
        unasked()
    }
}

impl Seek for Faulty {
    fn seek(&mut self, _to: SeekFrom) -> io::Result<u64> {
        unasked()
    }
}

impl OpenFile for Faulty {
    fn metadata(&self) -> io::Result<Metadata> {
        unasked()
    }

    fn set_len(&self, _size: u64) -> io::Result<()> {
        unasked()
    }

    fn sync_all(&self) -> io::Result<()> {
        unasked()
    }

    fn sync_data(&self) -> io::Result<()> {
        unasked()
    }
}

impl Files for FaultyFiles {
    type File = Faulty;

    type Dir = Faulty;

    fn open_file(&self, _how: &OpenOptions, _path: &str) -> io::Result<Faulty> {
        Ok(Faulty { reads: 0 })
    }

    fn open_dir(&self, _path: &str) -> io::Result<Faulty> {
        unasked()
    }

    fn metadata(&self, _path: &str) -> io::Result<Metadata> {
        unasked()
    }

    fn symlink_metadata(&self, _path: &str) -> io::Result<Metadata> {
        unasked()
    }

    fn copy(&self, _from: &str, _to: &str) -> io::Result<u64> {
        unasked()
    }

    fn rename(&self, _from: &str, _to: &str) -> io::Result<()> {
        unasked()
    }

    fn remove_file(&self, _path: &str) -> io::Result<()> {
        unasked()
    }

    fn create_dir(&self, _path: &str) -> io::Result<()> {
        unasked()
    }

    fn remove_dir(&self, _path: &str) -> io::Result<()> {
        unasked()
    }

    fn remove_dir_all<B: Allocator>(&self, _alloc: B, _path: &str) -> io::Result<()> {
        unasked()
    }
}
