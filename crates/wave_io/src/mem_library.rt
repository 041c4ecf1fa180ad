// A library in memory, which fails at the calls that it was given.
ghost use Rattle.std.specs.Prelude.{◌≡◌, ◌-◌, ◌≤◌, ◌↔◌, ℕ, List, [], length, min, IsErr, IsSome, IfOk, IfSome, OnOk, OnErr, map};
ghost use Rattle.std.specs.Option.{option_copied};
ghost use Rattle.wave_io.specs.Files.{StandsAt};
ghost use Rattle.wave_io.specs.Shelf.{named, bytes_of, faults_at, Misses, after_fetch, after_miss};

use crate::failed::Failed;
use crate::library::Library;
use std::marker::Model;

/// Files in memory, by name.
#[derive(Drop)]
pub struct MemLibrary {
    files: Vec<(String, Vec<u8>)>,
    fail: Vec<u64>,
    calls: u64,
    faults: u64,
    other_faults: u64,
}

impl Model for MemLibrary {
    ghost use Rattle.std.specs.Prelude.{map};
    ghost use Rattle.wave_io.specs.Shelf.{Shelf as Seen, named as by_name};

    ghost Value = { Seen };

    ghost view = { λ s. record {
      files = map by_name s.files.items;
      fail = s.fail.items;
      calls = s.calls;
      faults = s.faults;
      other_faults = s.other_faults;
    } };
}

impl MemLibrary {
    /// A library of these files. Where a name stands twice, the first file counts. The calls of
    /// `fetch` are counted from 1, and those whose numbers stand in `fail` are to fail.
    pub fn new(files: Vec<(String, Vec<u8>)>, fail: Vec<u64>) -> MemLibrary
        ensures { result ≡ record {
          files = map named files.items;
          fail = fail.items;
          calls = 0;
          faults = 0;
          other_faults = 0;
        } }
    {
        MemLibrary {
            files,
            fail,
            calls: 0,
            faults: 0,
            other_faults: 0,
        }
    }

    /// How many calls have failed at names that it has.
    pub fn faults(&self) -> u64
        ensures { result ≡ self.now.faults }
    {
        self.faults
    }

    /// How many calls have failed at names that it doesn't have.
    pub fn other_faults(&self) -> u64
        ensures { result ≡ self.now.other_faults }
    {
        self.other_faults
    }
}

impl Library for MemLibrary {
    ghost held = { λ s name. bytes_of s.files name };

    ghost faults = { faults_at };

    fn fetch(&mut self, name: &str, at: u64, into: &mut [u8]) -> Result<usize, Failed>
        ensures fails { IsErr result ↔ Misses self.old name.now }
        ensures count { IfOk result (λ k. IfSome (bytes_of self.old.files name.now)
            (λ all. k ≡ min (length into.old) (length all - at))) }
        ensures bytes { IfOk result (λ k. IfSome (bytes_of self.old.files name.now)
            (λ all. StandsAt all at into.new k)) }
        ensures ok { OnOk result (self.new ≡ after_fetch self.old) }
        ensures err { OnErr result (self.new ≡ after_miss self.old name.now) }
        ensures never_fall { (other : List ℕ) → faults_at self.old other ≤ faults_at self.new other }
        ensures honest { (other : List ℕ) → self.old.fail ≡ [] → IsSome (bytes_of self.old.files other) →
            faults_at self.new other ≡ faults_at self.old other }
    {
        self.calls = self.calls.saturating_add(1);
        match find(&self.files, name) {
            None => {
                self.other_faults = self.other_faults.saturating_add(1);
                Err(Failed)
            }
            Some(_) if self.fail.contains(&self.calls) => {
                self.faults = self.faults.saturating_add(1);
                Err(Failed)
            }
            Some(all) => Ok(copy_from(all, at, into)),
        }
    }
}

// The bytes of the first file of that name.
fn find<'a>(files: &'a [(String, Vec<u8>)], name: &str) -> Option<&'a [u8]>
    ensures { option_copied result ≡ bytes_of (map named files.now) name.now }
{
    for file in files {
        if file.0.as_str() == name {
            return Some(file.1.as_slice());
        }
    }
    None
}

// Copies the bytes from a place on, as many as there are and fit.
fn copy_from(all: &[u8], at: u64, into: &mut [u8]) -> usize
    ensures count { result ≡ min (length into.old) (length all.now - at) }
    ensures bytes { StandsAt all.now at into.new result }
{
    let start = usize::try_from(at).unwrap_or(all.len()).min(all.len());
    let count = into.len().min(all.len() - start);
    into[..count].copy_from_slice(&all[start..start + count]);
    count
}
