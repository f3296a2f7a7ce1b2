//! A disk over files of the host.
use crate::file_disk::FileDisk;
use crate::file_fault::{FileFault, RootState};
use ax_disk::{Disk, Extent};
use std::process::Abort;
use std::test::Fail;
use std::{env, fs, process};

/// The name of a store in the folder of temporary files, of which no file is there.
fn fresh_name(rt: &HostRuntime) -> Result<String, Fail> {
    let folder = env::temp_dir(rt)?;
    let folder = folder.as_str();
    let number = process::id(rt.process());
    let name = format!(in rt.alloc(); "{folder}/ax_files-{number}")?;
    remove_files(rt, name.as_str())?;
    Ok(name)
}

fn remove_files(rt: &HostRuntime, name: &str) -> Result<(), Fail> {
    for ending in ["root", "a", "b"] {
        let path = format!(in rt.alloc(); "{name}.{ending}")?;
        let _ = fs::remove_file(rt, path.as_str());
    }
    Ok(())
}

/// What a file of the store holds, by its own path.
fn held(rt: &HostRuntime, name: &str, ending: &str) -> Result<Vec<u8>, Fail> {
    let path = format!(in rt.alloc(); "{name}.{ending}")?;
    Ok(fs::read(rt, path.as_str())?)
}

/// Sees what the files of a store hold, each by its own path.
fn check_held(
    rt: &impl Abort,
    host: &HostRuntime,
    name: &str,
    files: [(&str, &str); 3],
) -> Result<(), Fail> {
    for (ending, expected) in files {
        let found = held(host, name, ending)?;
        assert_eq!(rt; found.as_slice(), expected.as_bytes(), "{ending}");
    }
    Ok(())
}

fn check_changes(
    rt: &impl Abort,
    host: &HostRuntime,
    disk: &mut FileDisk,
    name: &str,
) -> Result<(), Fail> {
    assert!(rt; disk.attach(name).is_ok());
    assert!(rt; matches!(disk.len(Extent::Root), Ok(0)));
    assert!(rt; disk.write_at(Extent::A, 0, b"area a").is_ok());
    assert!(rt; disk.write_at(Extent::B, 0, b"b").is_ok());
    assert!(rt; disk.write_at(Extent::A, 5, b"xyz").is_ok());
    assert!(rt; disk.cut(Extent::A, 7).is_ok() && disk.cut(Extent::B, 9).is_ok());
    assert!(rt; disk.sync().is_ok());
    check_held(rt, host, name, [("root", ""), ("a", "area xy"), ("b", "b")])?;
    assert!(rt; matches!(disk.len(Extent::A), Ok(7)));
    let mut buf = [1; 4];
    assert!(rt; disk.read(Extent::A, 5, &mut buf).is_ok());
    assert_eq!(rt; &buf, b"xy\0\0");
    Ok(())
}

// Another disk finds the files locked, and leaves them as they are.
fn check_locked(rt: &impl Abort, host: &HostRuntime, name: &str) {
    let mut other = FileDisk::new(*host);
    assert!(rt; other.attach(name).is_err());
    assert!(rt;
        matches!(
            other.first_fault(),
            Some(FileFault::Locked {
                extent: Extent::Root
            })
        )
    );
}

// The root stands for a fresh store, which the area does not.
fn check_refused(
    rt: &impl Abort,
    host: &HostRuntime,
    disk: &mut FileDisk,
    name: &str,
) -> Result<(), Fail> {
    assert!(rt; disk.attach(name).is_err());
    assert!(rt;
        matches!(
            disk.first_fault(),
            Some(FileFault::Rootless {
                root: RootState::Short,
                area: Extent::A
            })
        )
    );
    check_held(rt, host, name, [("root", ""), ("a", "area xy"), ("b", "b")])
}

fn check_disk(
    rt: &impl Abort,
    host: &HostRuntime,
    disk: &mut FileDisk,
    name: &str,
) -> Result<(), Fail> {
    check_changes(rt, host, disk, name)?;
    check_locked(rt, host, name);
    check_refused(rt, host, disk, name)
}

#[test]
fn a_disk_over_files_does_what_it_is_asked(rt: HostRuntime) -> Result<(), Fail> {
    let name = fresh_name(&rt)?;
    let mut disk = FileDisk::new(rt);
    let checked = check_disk(&rt, &rt, &mut disk, name.as_str());
    drop(disk);
    checked?;
    remove_files(&rt, name.as_str())
}
