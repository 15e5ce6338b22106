//! Files of the folder.
use bd_disk::{Failed, MemDisk};
use bd_files::{Files, MemFiles, MemSink, RealFiles, Sink};
use bd_model::Name;
use std::io::{PipeReader, Write};
use std::os::fd::AsRawFd;
use std::os::unix::fs::symlink;
use std::test::Fail;
use std::{fs, io};

// Makes a file of four bytes under the name, and fetches from it.
fn round_trip<F: Files>(files: &mut F, name: &Name, into: &mut [u8]) -> Result<usize, Failed> {
    files.begin(name, 4)?;
    files.put(name, 1, &[7, 8])?;
    files.finish(name)?;
    files.fetch(name, 0, into)
}

#[test]
fn a_file_in_memory_is_filled(rt: HostRuntime) -> Result<(), Fail> {
    let name = Name::new(rt.alloc(), "it")?;
    let mut into = [9u8; 6];
    let given = round_trip(&mut MemFiles::new(rt.alloc()), &name, &mut into);
    assert_eq!(rt; given, Ok(4));
    assert_eq!(rt; into, [0, 7, 8, 0, 9, 9]);
    Ok(())
}

#[test]
fn a_text_in_memory_is_kept(rt: HostRuntime) -> Result<(), Fail> {
    let disk = MemDisk::blank(rt.alloc(), 0)?;
    let mut sink = MemSink::new(rt.alloc());
    sink.put(&disk, b"abc")?;
    assert_eq!(rt; sink.written(), b"abc".as_slice());
    Ok(())
}

#[test]
fn a_file_of_the_folder_is_filled(rt: HostRuntime) -> Result<(), Fail> {
    let name = Name::new(rt.alloc(), "bd_session.filled")?;
    let mut into = [9u8; 6];
    let given = round_trip(&mut RealFiles::new(rt), &name, &mut into);
    fs::remove_file(&rt, "bd_session.filled")?;
    assert_eq!(rt; given, Ok(4));
    assert_eq!(rt; into, [0, 7, 8, 0, 9, 9]);
    Ok(())
}

// Puts bytes that follow one another, and then others before and behind them.
fn put_about(files: &mut RealFiles<HostRuntime>, name: &Name) -> Result<(), Failed> {
    files.begin(name, 200_000)?;
    files.put(name, 1, b"bc")?;
    files.put(name, 3, b"d")?;
    files.put(name, 0, b"a")?;
    files.put(name, 5, &[7; 140_000])
}

#[test]
fn bytes_stand_where_they_were_put(rt: HostRuntime) -> Result<(), Fail> {
    let name = Name::new(rt.alloc(), "bd_session.about")?;
    let mut files = RealFiles::new(rt);
    put_about(&mut files, &name)?;
    files.finish(&name)?;
    let bytes = fs::read(&rt, "bd_session.about")?;
    fs::remove_file(&rt, "bd_session.about")?;
    assert_eq!(rt; bytes.len(), 200_000);
    assert_eq!(rt; bytes.get(..6), Some(b"abcd\0\x07".as_slice()));
    Ok(())
}

#[test]
fn a_file_that_is_being_filled_is_read(rt: HostRuntime) -> Result<(), Fail> {
    let name = Name::new(rt.alloc(), "bd_session.read")?;
    let mut files = RealFiles::new(rt);
    let mut into = [9u8; 2];
    files.begin(&name, 2)?;
    files.put(&name, 1, &[7])?;
    files.fetch(&name, 0, &mut into)?;
    fs::remove_file(&rt, "bd_session.read")?;
    assert_eq!(rt; into, [0, 7]);
    Ok(())
}

#[test]
fn a_file_is_written_before_another_begins(rt: HostRuntime) -> Result<(), Fail> {
    let first = Name::new(rt.alloc(), "bd_session.first")?;
    let second = Name::new(rt.alloc(), "bd_session.second")?;
    let mut files = RealFiles::new(rt);
    files.begin(&first, 2)?;
    files.put(&first, 1, &[7])?;
    files.begin(&second, 0)?;
    let bytes = fs::read(&rt, "bd_session.first")?;
    fs::remove_file(&rt, "bd_session.first")?;
    fs::remove_file(&rt, "bd_session.second")?;
    assert_eq!(rt; bytes.as_slice(), [0, 7].as_slice());
    Ok(())
}

#[test]
fn a_write_that_fails_is_told_by_finish(rt: HostRuntime) -> Result<(), Fail> {
    let name = Name::new(rt.alloc(), "bd_session.full")?;
    symlink(&rt, "/dev/full", "bd_session.full")?;
    let mut files = RealFiles::new(rt);
    files.put(&name, 0, &[7])?;
    let finished = files.finish(&name);
    fs::remove_file(&rt, "bd_session.full")?;
    assert_eq!(rt; finished, Err(Failed));
    Ok(())
}

// The file name of a pipe's end that is read.
fn name_of(rt: HostRuntime, end: &PipeReader) -> Result<Name, Fail> {
    let text = format!(in rt.alloc(); "/dev/fd/{}", end.as_raw_fd())?;
    Ok(Name::new(rt.alloc(), &text)?)
}

#[test]
fn a_pipe_is_read_forward(rt: HostRuntime) -> Result<(), Fail> {
    let (end, mut other) = io::pipe(&rt)?;
    let name = name_of(rt, &end)?;
    let mut files = RealFiles::new(rt);
    let mut into = [9u8; 4];
    other.write_all(b"abcdef")?;
    drop(other);
    assert_eq!(rt; files.fetch(&name, 0, &mut into), Ok(4));
    assert_eq!(rt; into, *b"abcd");
    assert_eq!(rt; files.fetch(&name, 3, &mut into), Err(Failed));
    assert_eq!(rt; files.fetch(&name, 4, &mut into), Ok(2));
    assert_eq!(rt; into, *b"efcd");
    assert_eq!(rt; files.fetch(&name, 6, &mut into), Ok(0));
    Ok(())
}

#[test]
fn an_empty_pipe_is_read_once(rt: HostRuntime) -> Result<(), Fail> {
    let (end, other) = io::pipe(&rt)?;
    let name = name_of(rt, &end)?;
    let mut files = RealFiles::new(rt);
    let mut into = [9u8; 4];
    drop(other);
    assert_eq!(rt; files.fetch(&name, 0, &mut into), Ok(0));
    assert_eq!(rt; files.fetch(&name, 0, &mut into), Err(Failed));
    Ok(())
}

#[test]
fn a_pipe_is_no_target(rt: HostRuntime) -> Result<(), Fail> {
    let (end, _other) = io::pipe(&rt)?;
    let name = name_of(rt, &end)?;
    assert_eq!(rt; RealFiles::new(rt).begin(&name, 4), Err(Failed));
    Ok(())
}
