// Real files.
ghost use Rattle.std.specs.Prelude.{◌≡◌, ◌≤◌, None, IfOk, length};

use crate::failed::Failed;
use crate::library::Library;
use arrayvec::ArrayString;
use std::io::{Read, Seek, SeekFrom};
use std::marker::Model;
use std::rt::Files;
use std::{fs, io};

/// The longest name, in bytes, that is remembered. The system opens none that is longer.
const NAME_ROOM: usize = 4096;

/// The files of the system. In `main(rt: HostRuntime)`:
///
/// ```text
/// let mut lib = FileLibrary::new(rt);
/// ```
///
/// It keeps one count of faults for all names, and doesn't tell what a file holds. The last file
/// stays open, so that fetches that follow one another go on reading.
#[derive(Drop)]
pub struct FileLibrary<R: Files> {
    files: R,
    open: Option<R::File>,
    name: ArrayString<NAME_ROOM>,
    at: u64,
    faults: u64,
}

// It is seen as its count of faults.
impl<R: Files> Model for FileLibrary<R> {
    ghost use Rattle.std.specs.Prelude.{ℕ};

    ghost Value = { ℕ };

    ghost view = { λ s. s.faults };
}

impl<R: Files> FileLibrary<R> {
    /// A library that has met no fault. It opens nothing yet.
    pub fn new(files: R) -> FileLibrary<R>
        ensures { result ≡ 0 }
    {
        FileLibrary {
            files,
            open: None,
            name: ArrayString::new(),
            at: 0,
            faults: 0,
        }
    }

    /// How many fetches have failed, at all names together.
    pub fn faults_seen(&self) -> u64
        ensures { result ≡ self.now }
    {
        self.faults
    }
}

impl<R: Files> Library for FileLibrary<R> {
    ghost held = { λ _ _. None };

    ghost faults = { λ faults _. faults };

    fn fetch(&mut self, name: &str, at: u64, into: &mut [u8]) -> Result<usize, Failed> {
        match self.read_at(name, at, into) {
            Ok(count) => Ok(count),
            Err(_) => {
                self.faults = self.faults.saturating_add(1);
                Err(Failed)
            }
        }
    }
}

impl<R: Files> FileLibrary<R> {
    // Opens the file again where the name or the place isn't the one at which it stands. After an
    // error nothing stays open.
    fn read_at(&mut self, name: &str, at: u64, into: &mut [u8]) -> io::Result<usize>
        ensures bound { IfOk result (λ k. k ≤ length into.new) }
        ensures faults { self.new ≡ self.old }
    {
        let mut file = match self.open.take() {
            Some(file) if self.at == at && self.name.as_str() == name => file,
            _ => open_at(&self.files, name, at)?,
        };
        let count = file.read(into)?;
        self.name.clear();
        let _ = self.name.try_push_str(name);
        self.at = at.saturating_add(count as u64);
        self.open = Some(file);
        Ok(count)
    }
}

fn open_at<R: Files>(files: &R, name: &str, at: u64) -> io::Result<R::File> {
    let mut file = fs::open(files, name)?;
    if at > 0 {
        file.seek(SeekFrom::Start(at))?;
    }
    Ok(file)
}
