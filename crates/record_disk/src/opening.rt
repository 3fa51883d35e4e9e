// A file of the system that holds a disk: opened at the first call, and made where it is missing.
use crate::sizes::DISK_BYTES;
use std::fs::{File, OpenFile, OpenOptions};
use std::io;
use std::io::{ErrorKind, Read, Seek, SeekFrom, Write};
use std::path::Path;
use std::rt::Files;

// How many zeros one write puts into a new file.
const CHUNK: u32 = 1_000;

/// A file of 160,000 bytes. A file of another length is refused.
#[derive(Drop)]
pub(crate) struct DiskFile<R: Files + Drop> {
    rt: R,
    path: String,
    file: Option<R::File>,
}

impl<R: Files + Drop> DiskFile<R> {
    /// The file of this name. It makes no call.
    pub(crate) fn of(rt: R, path: String) -> DiskFile<R> {
        DiskFile {
            rt,
            path,
            file: None,
        }
    }

    /// Fills `buf` with the bytes from this place on.
    pub(crate) fn read(&mut self, at: u32, buf: &mut [u8]) -> io::Result<()> {
        let file = self.opened()?;
        file.seek(SeekFrom::Start(u64::from(at)))?;
        file.read_exact(buf)
    }

    /// Puts the bytes from this place on.
    pub(crate) fn write(&mut self, at: u32, bytes: &[u8]) -> io::Result<()> {
        let file = self.opened()?;
        file.seek(SeekFrom::Start(u64::from(at)))?;
        file.write_all(bytes)
    }

    /// Has the system put all that was written on the disk.
    pub(crate) fn sync(&mut self) -> io::Result<()> {
        self.opened()?.sync_all()
    }

    fn opened(&mut self) -> io::Result<&mut R::File> {
        if self.file.is_none() {
            self.file = Some(open_or_make(&self.rt, &self.path)?);
        }
        match &mut self.file {
            Some(file) => Ok(file),
            None => Err(io::Error::from(ErrorKind::NotFound)),
        }
    }
}

// The folder is synced each time: an earlier run may have ended after it gave the file its name, and before that name was on the disk.
fn open_or_make<R: Files>(rt: &R, path: &String) -> io::Result<R::File> {
    let file = match open(rt, path) {
        Err(error) if error.kind() == ErrorKind::NotFound => {
            make(rt, path)?;
            open(rt, path)?
        }
        opened => opened?,
    };
    sync_folder(rt, path)?;
    if file.metadata()?.len() != u64::from(DISK_BYTES) {
        return Err(io::Error::from(ErrorKind::InvalidData));
    }
    Ok(file)
}

fn open<R: Files>(rt: &R, path: &str) -> io::Result<R::File> {
    OpenOptions::new().read(true).write(true).open(rt, path)
}

// The name of a file is on the disk once its folder is.
fn sync_folder<R: Files>(rt: &R, path: &str) -> io::Result<()> {
    let folder = match Path::new(path).parent() {
        Some(parent) if parent.as_str() != "" => parent.as_str(),
        _ => ".",
    };
    File::open(rt, folder)?.sync_all()
}

// Makes the file under another name, so that the name `path` never stands for half a file. What an earlier run left under that other
// name is removed first, and nothing is left under it where the making fails.
fn make<R: Files>(rt: &R, path: &String) -> io::Result<()> {
    let mut unfinished = path.clone()?;
    unfinished.push_str(".new")?;
    let _ = rt.remove_file(&unfinished);
    let made = fill_with_zeros(rt, &unfinished).and_then(|()| rt.rename(&unfinished, path));
    if made.is_err() {
        let _ = rt.remove_file(&unfinished);
    }
    made
}

fn fill_with_zeros<R: Files>(rt: &R, path: &str) -> io::Result<()> {
    let mut file = File::create_new(rt, path)?;
    for _ in 0..DISK_BYTES / CHUNK {
        file.write_all(&[0; CHUNK as usize])?;
    }
    file.sync_all()
}
