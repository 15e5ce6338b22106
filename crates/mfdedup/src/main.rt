//! A store of versions on a disk, from the words of a command line: the path of the store, and then what is asked.
#![tactic(auto)]

mod command;
mod once;
mod progress;
mod report;
mod run;
mod script;
mod status;
mod telling;

use bd_disk::{Disk, FileDisk, MemDisk};
use bd_files::{FileIdentity, RealFiles, StdSink};
use run::run;
use std::env::{Env, FillError};
use std::fs::{File, Files as Folder, TryLockError};
use std::io::{ErrorKind, Seek, SeekFrom};
use std::process::ExitCode;
use std::{env, io, str};

// The most bytes that the system hands over as one word.
const LONGEST_WORD: usize = 131_072;

fn main(rt: HostRuntime) -> ExitCode {
    let Ok(mut word) = vec![in rt.alloc(); 0u8; LONGEST_WORD] else {
        return out_of_memory(rt);
    };
    match rt.arg(1, &mut word) {
        Err(FillError::NotPresent) => on_no_store(rt),
        Err(FillError::TooLong) => bad_words(rt),
        Ok(length) => match str::from_utf8(&word[..length]) {
            Ok("-") => on_no_store(rt),
            Ok(path) => on_store(rt, path),
            Err(_) => bad_words(rt),
        },
    }
}

// A disk over the store's file, and which file or device that is.
#[derive(Drop)]
struct OpenStore {
    disk: FileDisk,
    file: FileIdentity,
}

// The whole of a file, or of a block device, as a disk, locked until the program ends. Of a device only its end tells the
// size.
fn open<R: Folder<File = File>>(rt: &R, path: &str) -> io::Result<OpenStore> {
    let mut opened = File::options().read(true).write(true).open(rt, path)?;
    lock(&opened)?;
    let file = FileIdentity::of(&opened.metadata()?);
    let size = opened.seek(SeekFrom::End(0))?;
    Ok(OpenStore {
        disk: FileDisk::new(opened, size),
        file,
    })
}

// Fails where another program has locked the file. A file system without locks is no reason to stop.
fn lock(store: &File) -> io::Result<()> {
    match store.try_lock() {
        Err(TryLockError::WouldBlock) => Err(io::Error::from(ErrorKind::WouldBlock)),
        Ok(()) | Err(TryLockError::Error(_)) => Ok(()),
    }
}

// The path is looked at before the words behind it.
fn on_store(rt: HostRuntime, path: &str) -> ExitCode {
    match open(&rt, path) {
        Ok(mut store) => on_disk(rt, &mut store.disk, Some(store.file)),
        Err(_) => {
            let _ = eprintln!(rt; "cannot open store");
            ExitCode::from(3)
        }
    }
}

fn on_no_store(rt: HostRuntime) -> ExitCode {
    match MemDisk::blank(rt.alloc(), 0) {
        Ok(mut disk) => on_disk(rt, &mut disk, None),
        Err(_) => out_of_memory(rt),
    }
}

// Does what the words behind the path ask. The file that the store is in is no target of its own.
fn on_disk<D: Disk>(rt: HostRuntime, disk: &mut D, store: Option<FileIdentity>) -> ExitCode {
    let words: io::Result<Vec<String>> = words_of(&rt);
    match words {
        Ok(words) => {
            let mut files = RealFiles::new(rt);
            if let Some(file) = store {
                files.spare(file);
            }
            let mut out = StdSink::new(rt.stdout());
            let asked = words.get(2..).unwrap_or(&[]);
            ExitCode::from(run(rt.alloc(), asked, disk, &mut files, &mut out).status)
        }
        Err(fault) if fault.kind() == ErrorKind::OutOfMemory => out_of_memory(rt),
        Err(_) => bad_words(rt),
    }
}

// The program's name and the words behind it.
fn words_of<R: Env + AllocGlobal>(rt: &R) -> io::Result<Vec<String>> {
    let words = env::args(rt)?;
    Ok(words.collect(rt.alloc())?)
}

fn bad_words(rt: HostRuntime) -> ExitCode {
    let _ = println!(rt; "bad words");
    ExitCode::from(2)
}

fn out_of_memory(rt: HostRuntime) -> ExitCode {
    let _ = eprintln!(rt; "out of memory");
    ExitCode::from(5)
}
