//! A file of a store: one that is held, or a copy of one.

use crate::copied::Copied;
use sqlite::{File, Start, Unknown};
use sqlite_disk::{Disk, Tally};
use std::io;

/// A file of a store: one that is held, or a copy of one. Both are of one type, so that SQLite is compiled once, and
/// has its proofs to tie at one type.
#[derive(Drop)]
pub enum StoreFile {
    Held(File),
    Copy(Copied),
}

impl Disk for StoreFile {
    ghost use Rattle.std.specs.Prelude.{refl};
    ghost use Rattle.std.proofs.Common.{inl};
    ghost use Rattle.sqlite_disk.specs.Fair.{fair_if_honest};
    ghost use Rattle.sqlite_disk.specs.Modelled.{start_of};
    ghost use Rattle.file_keeper.specs.declared.store_file.StoreFile.TheVariants.{Copy, Held};

    ghost seen = { elim [ Held file ↦ ⟦<File as Disk>⟧.seen file | Copy copy ↦ ⟦<Copied as Disk>⟧.seen copy ] };

    ghost may_leave = { elim [
      | Held file ↦ ⟦<File as Disk>⟧.may_leave file
      | Copy copy ↦ ⟦<Copied as Disk>⟧.may_leave copy
    ] };

    ghost is_usable = { elim [
      | Held file ↦ ⟦<File as Disk>⟧.is_usable file
      | Copy copy ↦ ⟦<Copied as Disk>⟧.is_usable copy
    ] };

    ghost faults = { elim [ Held file ↦ ⟦<File as Disk>⟧.faults file | Copy copy ↦ ⟦<Copied as Disk>⟧.faults copy ] };

    ghost tally_of = { elim [
      | Held file ↦ ⟦<File as Disk>⟧.tally_of file
      | Copy copy ↦ ⟦<Copied as Disk>⟧.tally_of copy
    ] };

    ghost is_clean = { elim [
      | Held file ↦ ⟦<File as Disk>⟧.is_clean file
      | Copy copy ↦ ⟦<Copied as Disk>⟧.is_clean copy
    ] };

    ghost key_of = { elim [ Held file ↦ ⟦<File as Disk>⟧.key_of file | Copy copy ↦ ⟦<Copied as Disk>⟧.key_of copy ] };

    ghost is_fair = { elim [
      | Held file ↦ ⟦<File as Disk>⟧.is_fair file
      | Copy copy ↦ ⟦<Copied as Disk>⟧.is_fair copy
    ] };

    ghost is_mixing = { elim [
      | Held file ↦ ⟦<File as Disk>⟧.is_mixing file
      | Copy copy ↦ ⟦<Copied as Disk>⟧.is_mixing copy
    ] };

    // Of a file these are the laws that `Modelled` gives: no name reaches the laws of an `impl` at a type.
    ghost fair_if_clean = { elim [
      | Held file ↦ fair_if_honest (start_of ⟦<Unknown as Start>⟧ file) file.calls.log.events
      | Copy copy ↦ λ _ _. refl
    ] };

    ghost seen_may_stay = { elim [ Held file ↦ inl refl | Copy copy ↦ refl ] };

    fn mixes(&self) -> bool {
        match self {
            StoreFile::Held(file) => file.mixes(),
            StoreFile::Copy(copy) => copy.mixes(),
        }
    }

    fn key(&self) -> u64 {
        match self {
            StoreFile::Held(file) => file.key(),
            StoreFile::Copy(copy) => copy.key(),
        }
    }

    fn tally(&self) -> Tally {
        match self {
            StoreFile::Held(file) => file.tally(),
            StoreFile::Copy(copy) => copy.tally(),
        }
    }

    fn may_be_used(&self) -> bool {
        match self {
            StoreFile::Held(file) => file.may_be_used(),
            StoreFile::Copy(copy) => copy.may_be_used(),
        }
    }

    fn len(&mut self) -> io::Result<usize> {
        match self {
            StoreFile::Held(file) => file.len(),
            StoreFile::Copy(copy) => copy.len(),
        }
    }

    fn read_at(&mut self, at: usize, buf: &mut [u8]) -> io::Result<()> {
        match self {
            StoreFile::Held(file) => file.read_at(at, buf),
            StoreFile::Copy(copy) => copy.read_at(at, buf),
        }
    }

    fn read_checked(&mut self, key: u64, want: u64, at: usize, buf: &mut [u8]) -> io::Result<()> {
        match self {
            StoreFile::Held(file) => file.read_checked(key, want, at, buf),
            StoreFile::Copy(copy) => copy.read_checked(key, want, at, buf),
        }
    }

    fn write_at(&mut self, at: usize, bytes: &[u8]) -> io::Result<()> {
        match self {
            StoreFile::Held(file) => file.write_at(at, bytes),
            StoreFile::Copy(copy) => copy.write_at(at, bytes),
        }
    }

    fn set_len(&mut self, len: usize) -> io::Result<()> {
        match self {
            StoreFile::Held(file) => file.set_len(len),
            StoreFile::Copy(copy) => copy.set_len(len),
        }
    }

    fn sync(&mut self) -> io::Result<()> {
        match self {
            StoreFile::Held(file) => file.sync(),
            StoreFile::Copy(copy) => copy.sync(),
        }
    }
}
