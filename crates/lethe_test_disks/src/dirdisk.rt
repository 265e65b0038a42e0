//! A folder as a disk: its calls on a real folder, and the names of its files.

use crate::common::{fails, gives};
use lethe_base::{Kind, Name};
use lethe_dirdisk::{
    DirDisk, DirPage, DirRefused, OpenStep, one_file_name, read_file_name, spell_file_name,
};
use lethe_disk::Disk;
use std::alloc::Global;
use std::os::unix::fs::symlink;
use std::process::Abort;
use std::{fs, io};

fn name(kind: Kind, no: u64) -> Name {
    Name { kind, no }
}

// A folder of that path that isn't there.
fn clear(rt: &HostRuntime, path: &str) {
    let _ = fs::remove_dir_all(rt, path);
}

// The disk of a folder that is made anew.
fn opened(host: &HostRuntime, rt: &impl Abort, path: &str) -> DirDisk {
    clear(host, path);
    DirDisk::open(host, host.alloc(), path).expect(rt, "a folder")
}

// Whether the system did what it was asked.
fn is_done(answer: io::Result<()>) -> bool {
    answer.is_ok()
}

// Whether a file has these bytes.
fn has_bytes(rt: &HostRuntime, path: &str, bytes: &[u8]) -> bool {
    matches!(fs::read(rt, path), Ok(read) if read.as_slice() == bytes)
}

const SEGMENT: Name = Name {
    kind: Kind::Segment,
    no: 2,
};

const PAGE: Name = Name {
    kind: Kind::Page,
    no: 12,
};

const GATE: Name = Name {
    kind: Kind::Gate,
    no: 7,
};

fn make_objects(disk: &mut DirDisk) -> bool {
    disk.create(PAGE, b"a page").is_ok()
        && disk.create(SEGMENT, b"abc").is_ok()
        && disk.create(GATE, b"").is_ok()
        && disk.write_at(SEGMENT, 2, b"XYZ").is_ok()
        && disk.write_at(SEGMENT, 0, b"A").is_ok()
        && disk.sync().is_ok()
}

// Whether a disk has these names.
fn has_names(alloc: Global, disk: &mut DirDisk, names: &[Name]) -> bool {
    matches!(disk.names(alloc), Ok(listed) if listed.as_slice() == names)
}

// Whether the segment is as it was written, and the gate may be removed.
fn has_objects(alloc: Global, disk: &mut DirDisk) -> bool {
    gives(disk.read(alloc, SEGMENT), b"AbXYZ")
        && disk.remove(GATE).is_ok()
        && disk.sync().is_ok()
        && has_names(alloc, disk, &[SEGMENT, PAGE])
}

// Whether the page is fetched, and there are no faults.
fn fetches_page(alloc: Global, rt: &impl Abort, disk: &mut DirDisk) -> bool {
    let page = disk.open_page(alloc, PAGE).expect(rt, "a page");
    let mut port = disk.port(alloc).expect(rt, "a port");
    gives(DirDisk::fetch(alloc, &mut port, &page), b"a page")
        && DirDisk::port_faults(&port) == 0
        && disk.faults() == 0
}

// Whether the folder, opened again, has the page.
fn keeps_page(rt: &HostRuntime, folder: &str) -> bool {
    match DirDisk::open(rt, rt.alloc(), folder) {
        Ok(mut disk) => gives(disk.read(rt.alloc(), PAGE), b"a page") && disk.sync().is_ok(),
        Err(_) => false,
    }
}

fn check_calls(host: &HostRuntime, rt: &impl Abort, folder: &str) {
    let alloc = host.alloc();
    let mut disk = opened(host, rt, folder);
    assert!(rt; make_objects(&mut disk) && has_objects(alloc, &mut disk));
    assert!(rt; fetches_page(alloc, rt, &mut disk));
}

#[test]
fn each_call_does_what_it_is_asked(rt: HostRuntime) {
    const FOLDER: &str = "lethe_dirdisk_calls";
    check_calls(&rt, &rt, FOLDER);
    assert!(rt; has_bytes(&rt, "lethe_dirdisk_calls/s-00000000000000000002", b"AbXYZ"));
    assert!(rt; keeps_page(&rt, "lethe_dirdisk_calls/"));
    clear(&rt, FOLDER);
}

/// A page that isn't there.
const ABSENT: Name = Name {
    kind: Kind::Page,
    no: 2,
};

// Whether five calls fail.
fn each_fails(alloc: Global, disk: &mut DirDisk) -> bool {
    fails(disk.create(PAGE, b"new"))
        && fails(disk.write_at(ABSENT, 0, b"x"))
        && fails(disk.remove(ABSENT))
        && fails(disk.read(alloc, ABSENT))
        && fails(disk.open_page(alloc, ABSENT))
}

// Whether a link isn't followed by what makes a new file, and there is no file behind the link then.
fn stops_at_link(rt: &HostRuntime, disk: &mut DirDisk) -> bool {
    is_done(symlink(
        rt,
        "elsewhere",
        "lethe_dirdisk_errors/p-00000000000000000002",
    )) && fails(disk.create(ABSENT, b"new"))
        && matches!(fs::exists(rt, "lethe_dirdisk_errors/elsewhere"), Ok(false))
}

// Whether the page isn't fetched once it is removed.
fn forgets_page(alloc: Global, rt: &impl Abort, disk: &mut DirDisk, page: &DirPage) -> bool {
    disk.remove(PAGE).expect(rt, "a removal");
    let mut port = disk.port(alloc).expect(rt, "a port");
    fails(DirDisk::fetch(alloc, &mut port, page)) && DirDisk::port_faults(&port) == 1
}

// Whether six calls fail and are counted, and a fetch fails behind them.
fn counts_errors(host: &HostRuntime, rt: &impl Abort, disk: &mut DirDisk) -> bool {
    let alloc = host.alloc();
    disk.create(PAGE, b"abc").expect(rt, "a page");
    let page = disk.open_page(alloc, PAGE).expect(rt, "a page");
    each_fails(alloc, disk)
        && stops_at_link(host, disk)
        && disk.faults() == 6
        && forgets_page(alloc, rt, disk, &page)
}

fn check_errors(host: &HostRuntime, rt: &impl Abort, folder: &str) {
    let mut disk = opened(host, rt, folder);
    assert!(rt; counts_errors(host, rt, &mut disk));
    clear(host, folder);
    assert!(rt; fails(disk.names(host.alloc())) && disk.faults() == 7);
}

#[test]
fn each_error_is_counted(rt: HostRuntime) {
    check_errors(&rt, &rt, "lethe_dirdisk_errors");
}

// Whether two syncs fail once the file of an object that was made before is gone.
fn fails_for_ever(rt: &HostRuntime, disk: &mut DirDisk) -> bool {
    disk.create(name(Kind::Page, 1), b"abc").is_ok()
        && disk.create(name(Kind::Page, 2), b"").is_ok()
        && is_done(fs::remove_file(rt, "lethe_dirdisk_torn/p-00000000000000000001"))
        && fails(disk.sync())
        && fails(disk.sync())
        && disk.faults() == 2
}

fn check_torn(host: &HostRuntime, rt: &impl Abort, folder: &str) {
    let mut disk = opened(host, rt, folder);
    assert!(rt; fails_for_ever(host, &mut disk));
    clear(host, folder);
}

#[test]
fn what_a_sync_cannot_reach_fails_for_ever(rt: HostRuntime) {
    check_torn(&rt, &rt, "lethe_dirdisk_torn");
}

/// Paths of files that are no objects.
const FOREIGN: [&str; 6] = [
    "lethe_dirdisk_foreign/note",
    "lethe_dirdisk_foreign/.p-00000000000000000001",
    "lethe_dirdisk_foreign/p-1",
    "lethe_dirdisk_foreign/p-000000000000000000001",
    "lethe_dirdisk_foreign/q-00000000000000000001",
    "lethe_dirdisk_foreign/p-18446744073709551616",
];

// Why a folder isn't opened.
fn refused(rt: &HostRuntime, path: &str) -> Option<DirRefused> {
    DirDisk::open(rt, rt.alloc(), path).err()
}

// A foreign name is told, which is the end of this path.
fn is_foreign(why: Option<DirRefused>, path: &str) -> bool {
    match why {
        Some(DirRefused::Foreign { name: Some(name) }) => path.as_bytes().ends_with(&name),
        _ => false,
    }
}

// Whether a folder is refused for a file that keeps its bytes, and no more once that is gone.
fn refuses_foreign(rt: &HostRuntime, folder: &str, foreign: &str) -> bool {
    is_done(fs::write(rt, foreign, b"kept".as_slice()))
        && is_foreign(refused(rt, folder), foreign)
        && has_bytes(rt, foreign, b"kept")
        && is_done(fs::remove_file(rt, foreign))
        && refused(rt, folder).is_none()
}

// Makes a folder with one object, and answers whether it is opened.
fn opens_made(rt: &HostRuntime, folder: &str, object: &str) -> bool {
    clear(rt, folder);
    is_done(fs::create_dir(rt, folder))
        && is_done(fs::write(rt, object, b"".as_slice()))
        && refused(rt, folder).is_none()
}

#[test]
fn a_foreign_name_is_refused(rt: HostRuntime) {
    const FOLDER: &str = "lethe_dirdisk_foreign";
    const OBJECT: &str = "lethe_dirdisk_foreign/p-18446744073709551615";
    for foreign in FOREIGN {
        assert!(rt; opens_made(&rt, FOLDER, OBJECT));
        assert!(rt; refuses_foreign(&rt, FOLDER, foreign), "{foreign}");
    }
    clear(&rt, FOLDER);
}

// Whether a second opening is refused while the first stands.
fn is_held(rt: &HostRuntime, folder: &str) -> bool {
    match DirDisk::open(rt, rt.alloc(), folder) {
        Ok(mut disk) => {
            disk.create(name(Kind::Page, 1), b"abc").is_ok()
                && matches!(
                    refused(rt, folder),
                    Some(DirRefused::Folder {
                        step: OpenStep::Lock,
                        ..
                    })
                )
        }
        Err(_) => false,
    }
}

/// Paths of which no folder can be made.
const NO_FOLDERS: [&str; 3] = [
    "",
    "lethe_dirdisk_held/a/b",
    "lethe_dirdisk_held/p-00000000000000000001",
];

#[test]
fn a_folder_is_held_by_one(rt: HostRuntime) {
    const FOLDER: &str = "lethe_dirdisk_held";
    clear(&rt, FOLDER);
    assert!(rt; is_held(&rt, FOLDER) && refused(&rt, FOLDER).is_none());
    for path in NO_FOLDERS {
        assert!(rt;
            matches!(refused(&rt, path), Some(DirRefused::Folder { .. })),
            "{path}"
        );
    }
    clear(&rt, FOLDER);
}

/// Names, and what they are spelled as.
const SPELLED: [(Name, &[u8; 22]); 5] = [
    (
        Name {
            kind: Kind::Gate,
            no: 0,
        },
        b"g-00000000000000000000",
    ),
    (
        Name {
            kind: Kind::Manifest,
            no: 907,
        },
        b"m-00000000000000000907",
    ),
    (
        Name {
            kind: Kind::Segment,
            no: 10,
        },
        b"s-00000000000000000010",
    ),
    (
        Name {
            kind: Kind::File,
            no: u64::MAX,
        },
        b"f-18446744073709551615",
    ),
    (
        Name {
            kind: Kind::Page,
            no: 12,
        },
        b"p-00000000000000000012",
    ),
];

/// What is no name.
const UNREADABLE: [&[u8]; 9] = [
    b"",
    b"p",
    b"P-00000000000000000012",
    b"p_00000000000000000012",
    b"p-0000000000000000012",
    b"p-000000000000000000012",
    b"p-0000000000000000001x",
    b"p-18446744073709551616",
    b"p-99999999999999999999",
];

#[test]
fn names_are_spelled(rt: HostRuntime) {
    for (name, text) in SPELLED {
        assert!(rt; spell_file_name(name) == *text);
        assert!(rt; read_file_name(text) == Some(name));
    }
    for text in UNREADABLE {
        assert!(rt; read_file_name(text).is_none());
    }
    one_file_name();
}
