//! A copy of a file, as SQLite reads it.

ghost use Rattle.std.specs.Prelude.{◌≡◌, false, length, is_ok, OnOk};
ghost use Rattle.sqlite_disk.specs.Disk.{CountsFault, Cut, Holds, Torn};
ghost use Rattle.sqlite_disk.specs.Refusal.{finds_no_room};

use sqlite_disk::{Disk, Tally, digest_of};
use std::alloc::AllocError;
use std::io::{self, ErrorKind};

/// A copy in memory of a file. What is written to it stands in the copy alone, and is gone with it: it keeps nothing
/// for a time after a crash, so that a sync has nothing to do and the file is in memory once.
#[derive(Drop)]
pub struct Copied {
    bytes: Vec<u8>,
    faults: u64,
    caught: u64,
}

impl Copied {
    /// The copy that these bytes are.
    pub fn of(bytes: Vec<u8>) -> Copied {
        Copied {
            bytes,
            faults: 0,
            caught: 0,
        }
    }
}

impl Disk for Copied {
    ghost use Rattle.std.specs.Prelude.{◌≡◌, true, refl};

    ghost seen = { λ copy. copy.bytes.items };

    ghost may_leave = { λ copy left. left ≡ copy.bytes.items };

    ghost is_usable = { λ _. true };

    ghost faults = { λ copy. copy.faults };

    ghost is_clean = { λ _. true };

    ghost tally_of = { λ copy. record { caught = copy.caught; refused = 0 } };

    ghost key_of = { λ _. 0 };

    ghost is_fair = { λ _ _. true };

    ghost fair_if_clean = { λ _ _ _. refl };

    ghost seen_may_stay = { λ _. refl };

    fn mixes(&self) -> bool {
        false
    }

    fn key(&self) -> u64 {
        0
    }

    fn tally(&self) -> Tally {
        Tally {
            caught: self.caught,
            refused: 0,
        }
    }

    fn may_be_used(&self) -> bool {
        true
    }

    fn len(&mut self) -> io::Result<usize> {
        Ok(self.bytes.len())
    }

    fn read_at(&mut self, at: usize, buf: &mut [u8]) -> io::Result<()> {
        if at > self.bytes.len() || buf.len() > self.bytes.len() - at {
            return Err(ErrorKind::UnexpectedEof.into());
        }
        buf.copy_from_slice(&self.bytes[at..at + buf.len()]);
        Ok(())
    }

    fn read_checked(&mut self, key: u64, want: u64, at: usize, buf: &mut [u8]) -> io::Result<()> {
        self.read_at(at, buf)?;
        if digest_of(key, buf) != want {
            self.faults = self.faults.saturating_add(1);
            self.caught = self.caught.saturating_add(1);
            return Err(ErrorKind::InvalidData.into());
        }
        Ok(())
    }

    fn write_at(&mut self, at: usize, bytes: &[u8]) -> io::Result<()> {
        let outcome = overwrite(&mut self.bytes, at, bytes);
        count(outcome, &mut self.faults)
    }

    fn set_len(&mut self, len: usize) -> io::Result<()> {
        let outcome = resize(&mut self.bytes, len);
        count(outcome, &mut self.faults)
    }

    fn sync(&mut self) -> io::Result<()> {
        Ok(())
    }
}

/// The answer to a change; counts it where memory ran out.
fn count(outcome: Result<(), AllocError>, faults: &mut u64) -> io::Result<()>
    ensures variant { is_ok result ≡ is_ok outcome }
    ensures kind { finds_no_room result ≡ false }
    ensures faults { CountsFault result faults.old faults.new }
{
    if outcome.is_err() {
        *faults = faults.saturating_add(1);
        return Err(io::Error::from(ErrorKind::OutOfMemory));
    }
    Ok(())
}

/// Changes the length; what is new is zero.
fn resize(file: &mut Vec<u8>, len: usize) -> Result<(), AllocError>
    ensures len { OnOk result (length file.new.items ≡ len) }
    ensures others { Cut len file.old.items file.new.items }
{
    file.resize(len, 0)
}

/// Puts the bytes in the place of those that are there.
fn overwrite(file: &mut Vec<u8>, at: usize, bytes: &[u8]) -> Result<(), AllocError>
    ensures written { OnOk result (Holds file.new.items at bytes.now) }
    ensures others { Torn at (length bytes.now) file.old.items file.new.items }
{
    let end = at.checked_add(bytes.len()).ok_or(AllocError)?;
    if end > file.len() {
        resize(file, end)?;
    }
    file[at..end].copy_from_slice(bytes);
    Ok(())
}
