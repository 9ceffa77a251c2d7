//! The current folder of the process as a tree.

ghost use Rattle.std.specs.Prelude.{◌≡◌, ◌≤◌, ◌+◌, IfOk, length, option_to_list, vec_len};
ghost use Rattle.std.specs.FinMap as finite;
ghost use Rattle.stan_outside.specs.Outside.{Rose};
ghost use Rattle.stan_outside.specs.FolderTree.{folder_faults, folder_listings, folder_reads};
ghost use Rattle.stan_outside.specs.declared.fail.Fail.TheVariants as fails;
ghost use Rattle.stan_outside.specs.declared.folder_tree.TheConstants.{MOST_NAMES};

use crate::{Fail, Failed, Tree};
use std::alloc::{AllocError, Global};
use std::fs::{DirEntry, File};
use std::io::{ErrorKind, Read};
use std::rt::Files;
use std::{fs, io};

// The most names in the folder and its folders.
const MOST_NAMES: usize = 400_000;

// How often a read that is interrupted is tried.
const MOST_TRIES: usize = 1_000;

// How many bytes a read asks for.
const PIECE: usize = 16_384;

/// It tells nothing of what the folder holds. Each error of the system is a fault, and so are more
/// than 400,000 names in all and a name that is not UTF-8.
#[derive(Drop)]
pub struct FolderTree<'a, R: Files + AllocGlobal + Clone + Drop> {
    rt: &'a R,
    faults: u64,
    listings: u64,
    reads: u64,
}

impl<'a, R: Files + AllocGlobal + Clone + Drop> FolderTree<'a, R> {
    /// The current folder of the process.
    pub fn new(rt: &'a R) -> Self
        ensures faults { folder_faults result ≡ 0 }
        ensures listings { folder_listings result ≡ 0 }
        ensures reads { folder_reads result ≡ 0 }
    {
        FolderTree {
            rt,
            faults: 0,
            listings: 0,
            reads: 0,
        }
    }
}

impl<'a, R: Files + AllocGlobal + Clone + Drop> Tree for FolderTree<'a, R> {
    ghost tells = { λ _. ⊥ };

    ghost contents = { λ _. finite.empty };

    ghost faults = { folder_faults };

    ghost listings = { folder_listings };

    ghost reads = { folder_reads };

    ghost never_fails = { λ _. ⊥ };

    ghost proper = { λ _ told. absurd told };

    fn list(&mut self, alloc: Global) -> Result<Vec<String>, Fail> {
        self.listings = self.listings.saturating_add(1);
        match list_files(self.rt, alloc) {
            Ok(paths) => Ok(paths),
            Err(error) => Err(fail_of(&error, &mut self.faults)),
        }
    }

    fn read(&mut self, alloc: Global, path: &str, most: u32) -> Result<Vec<u8>, Fail> {
        self.reads = self.reads.saturating_add(1);
        match read_front(self.rt, alloc, path, most as usize) {
            Ok(bytes) => Ok(bytes),
            Err(error) => Err(fail_of(&error, &mut self.faults)),
        }
    }
}

// Every error but want of memory is a fault.
fn fail_of(error: &io::Error, faults: &mut u64) -> Fail
    ensures faults { faults.old ≤ faults.new }
    ensures failed { result ≡ fails.Failed → Rose faults.old faults.new }
    ensures memory { result ≡ fails.OutOfMemory → faults.new ≡ faults.old }
{
    if error.kind() == ErrorKind::OutOfMemory {
        return Fail::OutOfMemory;
    }
    Failed::counted(faults).into()
}

// The walk through a folder: the folders that are still to be read, the files that were found, and
// how many names were seen.
#[derive(Drop)]
struct Walk {
    folders: Vec<String>,
    files: Vec<String>,
    names: usize,
    ghost bounded: { names ≤ MOST_NAMES },
}

fn list_files<R: Files + AllocGlobal + Clone + Drop>(
    rt: &R,
    alloc: Global,
) -> io::Result<Vec<String>> {
    let mut walk = Walk {
        folders: vec![in alloc; String::new(alloc)]?,
        files: Vec::new(alloc),
        names: 0,
    };
    while let Some(folder) = walk.next_folder() {
        walk.read_folder(rt, alloc, &folder)?;
    }
    Ok(walk.into_files())
}

impl Walk {
    ghost use Rattle.stan_outside.specs.Walk.{GoesOn};

    fn next_folder(&mut self) -> Option<String>
        ensures folders { vec_len self.new.folders + length (option_to_list result) ≡ vec_len self.old.folders }
        ensures names { self.new.names ≡ self.old.names }
    {
        self.folders.pop()
    }

    fn into_files(self) -> Vec<String> {
        self.files
    }

    // The empty path is that of the whole folder.
    fn read_folder<R: Files + AllocGlobal + Clone + Drop>(
        &mut self,
        rt: &R,
        alloc: Global,
        folder: &str,
    ) -> io::Result<()>
        ensures { GoesOn self.old self.new }
    {
        let place = if folder.is_empty() { "." } else { folder };
        for entry in fs::read_dir(rt, place)? {
            self.add(alloc, folder, &entry?)?;
        }
        Ok(())
    }

    // Neither a folder nor a file is a link, which is left out.
    fn add<R: Files>(&mut self, alloc: Global, folder: &str, entry: &DirEntry<R>) -> io::Result<()>
        ensures { GoesOn self.old self.new }
    {
        if self.names == MOST_NAMES {
            return Err(io::Error::from(ErrorKind::Other));
        }
        self.names += 1;
        let kind = entry.file_type()?;
        let path = path_in(alloc, folder, entry.file_name())?;
        if kind.is_dir() {
            self.folders.push(path)?;
        } else if kind.is_file() {
            self.files.push(path)?;
        }
        Ok(())
    }
}

fn path_in(alloc: Global, folder: &str, name: &str) -> Result<String, AllocError> {
    if folder.is_empty() {
        String::from_str(alloc, name)
    } else {
        format!(in alloc; "{folder}/{name}")
    }
}

// The first bytes of a file.
fn read_front<R: Files>(rt: &R, alloc: Global, path: &str, most: usize) -> io::Result<Vec<u8>>
    ensures { IfOk result (λ bytes. vec_len bytes ≤ most) }
{
    let mut file = File::open(rt, path)?;
    let mut bytes = Vec::new(alloc);
    let mut piece = [0; PIECE];
    while bytes.len() < most {
        let wanted = PIECE.min(most - bytes.len());
        let taken = read_some(&mut file, &mut piece[..wanted])?;
        if taken == 0 {
            break;
        }
        bytes.extend_from_slice(&piece[..taken])?;
    }
    Ok(bytes)
}

// One read. It is tried again where it is interrupted.
fn read_some<F: Read>(file: &mut F, piece: &mut [u8]) -> io::Result<usize>
    ensures { IfOk result (λ n. n ≤ length piece.old) }
{
    for _ in 0..MOST_TRIES {
        match file.read(piece) {
            Err(error) if error.kind() == ErrorKind::Interrupted => {}
            outcome => return outcome,
        }
    }
    Err(io::Error::from(ErrorKind::Interrupted))
}
