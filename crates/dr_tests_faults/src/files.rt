//! A file that a disk is.
use dr_disk::Disk;
use dr_yard::FileDisk;
use std::fs;
use std::fs::OpenOptions;
use std::path::Path;
use std::test::Fail;

/// A file that has become shorter under its disk is not written behind a hole: the call fails, and is counted.
#[test]
fn nothing_is_written_past_the_end_of_a_file(rt: HostRuntime) -> Result<(), Fail> {
    let name = "past_the_end_of_a_file";
    let file = OpenOptions::new()
        .read(true)
        .write(true)
        .create(true)
        .open(&rt, Path::new(name))?;
    let mut disk = FileDisk::new(file, 0);
    assert!(rt; disk.write_at(1, b"x").is_err());
    assert!(rt; disk.faults() == 1 && matches!(disk.len(), Ok(0)));
    fs::remove_file(&rt, name)?;
    Ok(())
}

/// A file is cut to a length, also to nothing, and one that isn't longer stays as it is.
#[test]
fn a_file_is_cut(rt: HostRuntime) -> Result<(), Fail> {
    let name = "a_file_that_is_cut";
    let file = OpenOptions::new()
        .read(true)
        .write(true)
        .create(true)
        .open(&rt, Path::new(name))?;
    let mut disk = FileDisk::new(file, 0);
    assert!(rt; disk.write_at(0, b"abcdefghijkl").is_ok());
    for (to, len) in [(13, 12), (12, 12), (10, 10), (8, 8), (1, 1), (0, 0)] {
        assert!(rt; disk.cut(to).is_ok() && matches!(disk.len(), Ok(left) if left == len));
    }
    fs::remove_file(&rt, name)?;
    Ok(())
}
