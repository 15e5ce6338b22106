//! The disk in memory, and one over a real file.
use bd_disk::{Disk, Failed, FileDisk, MemDisk, crash_image};
use std::fs;
use std::fs::OpenOptions;
use std::test::Fail;

const PATH: &str = "bd_session.disk";

#[test]
fn a_disk_in_memory_takes_calls(rt: HostRuntime) -> Result<(), Fail> {
    let alloc = rt.alloc();
    let mut disk = MemDisk::from_bytes(alloc, &[1, 2, 3, 4])?;
    let mut into = [0u8; 2];
    if disk.size() == 4 {
        disk.write(1, &[9, 8])?;
        disk.read(2, &mut into)?;
    }
    assert_eq!(rt; into, [8, 4]);
    disk.sync()?;
    let image = crash_image(alloc, &disk, 7)?;
    assert_eq!(rt; image.as_slice(), [1, 9, 8, 4].as_slice());
    Ok(())
}

#[test]
fn a_file_gives_back_what_was_written(rt: HostRuntime) -> Result<(), Fail> {
    fs::write(&rt, PATH, b"abcdef".as_slice())?;
    let file = OpenOptions::new().read(true).write(true).open(&rt, PATH)?;
    let mut disk = FileDisk::new(file, 6);
    let mut into = [0u8; 4];
    disk.write(2, b"XY".as_slice())?;
    disk.sync()?;
    disk.read(1, &mut into)?;
    assert_eq!(rt; into, *b"bXYe");
    assert_eq!(rt; fs::read(&rt, PATH)?.as_slice(), b"abXYef".as_slice());
    assert_eq!(rt; (disk.size(), disk.clock(), disk.faults()), (6, 3, 0));
    fs::write(&rt, PATH, b"abc".as_slice())?;
    assert_eq!(rt; disk.read(1, &mut into), Err(Failed));
    disk.read(0, &mut into[..3])?;
    assert_eq!(rt; &into[..3], b"abc".as_slice());
    assert_eq!(rt; (disk.clock(), disk.faults()), (5, 1));
    fs::remove_file(&rt, PATH)?;
    Ok(())
}
