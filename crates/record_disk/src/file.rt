// A disk in a file of the system. What the file keeps is the system's word, and no clause says it: this disk tells no content.
ghost use Rattle.std.specs.Prelude.{◌≡◌, Some};
ghost use Rattle.lift_io.specs.Causes.{HasCause};
ghost use Rattle.record_disk.specs.Disk.{Silent};

use crate::Disk;
use crate::opening::DiskFile;
use lift_io::Failed;
use std::io;
use std::rt::Files;

/// A disk in a file, which is made at the first call where it is missing. An `Err` of the system is counted; at its last value the count
/// stays. It counts writes and syncs too.
#[derive(Drop)]
pub struct FileDisk<R: Files + Drop> {
    file: DiskFile<R>,
    calls: u64,
    faults: u64,
}

impl<R: Files + Drop> FileDisk<R> {
    /// A disk in the file of this name. It makes no call.
    pub fn of(rt: R, path: String) -> FileDisk<R>
        ensures calls { result.calls ≡ 0 }
        ensures faults { result.faults ≡ 0 }
    {
        FileDisk {
            file: DiskFile::of(rt, path),
            calls: 0,
            faults: 0,
        }
    }
}

impl<R: Files + Drop> Disk for FileDisk<R> {
    ghost told = { λ _. Silent };

    ghost calls = { λ d. Some d.calls };

    ghost faults = { λ d. d.faults };

    ghost present = { λ _. tt };

    fn read(&mut self, at: u32, buf: &mut [u8]) -> Result<(), Failed> {
        let done = self.file.read(at, buf);
        counted(&mut self.faults, done)
    }

    fn write_at(&mut self, at: u32, bytes: &[u8]) -> Result<(), Failed> {
        self.calls = self.calls.saturating_add(1);
        let done = self.file.write(at, bytes);
        counted(&mut self.faults, done)
    }

    fn sync(&mut self) -> Result<(), Failed> {
        self.calls = self.calls.saturating_add(1);
        let done = self.file.sync();
        counted(&mut self.faults, done)
    }
}

// Counts the call where it failed.
fn counted(faults: &mut u64, done: io::Result<()>) -> Result<(), Failed>
    ensures { HasCause faults.old faults.new result }
{
    match done {
        Ok(()) => Ok(()),
        Err(_) => {
            *faults = faults.saturating_add(1);
            Err(Failed)
        }
    }
}
