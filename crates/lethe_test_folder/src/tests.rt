use lethe_base::{Kind, Name};
use lethe_dirdisk::{DirDisk, DirPage, DirPort, DirRefused, OpenStep, spell_file_name};
use lethe_disk::{Disk, DiskRefused};
use std::alloc::Global;
use std::fs::{self, File, Permissions};
use std::io;
use std::os::unix::fs::{MetadataExt, PermissionsExt, symlink};
use std::test::Fail;

fn page(no: u64) -> Name {
    Name {
        kind: Kind::Page,
        no,
    }
}

// A folder of that path that isn't there.
fn clear(rt: &HostRuntime, path: &str) {
    let _ = fs::remove_dir_all(rt, path);
}

// Whether a call of a disk or a port failed.
fn fails<T: Drop>(answer: Result<T, DiskRefused>) -> bool {
    matches!(answer, Err(DiskRefused::Failed))
}

// Whether a read or a fetch gave these bytes.
fn gives(answer: Result<Vec<u8>, DiskRefused>, bytes: &[u8]) -> bool {
    matches!(answer, Ok(read) if read.as_slice() == bytes)
}

// Whether a disk has these names.
fn has_names(alloc: Global, disk: &mut DirDisk, names: &[Name]) -> bool {
    matches!(disk.names(alloc), Ok(listed) if listed.as_slice() == names)
}

// Whether the system did what it was asked.
fn is_done(answer: io::Result<()>) -> bool {
    answer.is_ok()
}

// Whether a file has these bytes.
fn has_bytes(rt: &HostRuntime, path: &str, bytes: &[u8]) -> bool {
    matches!(fs::read(rt, path), Ok(read) if read.as_slice() == bytes)
}

// Why a folder isn't opened.
fn refused(rt: &HostRuntime, path: &str) -> Option<DirRefused> {
    DirDisk::open(rt, rt.alloc(), path).err()
}

// What stands under an object's name is no file, and this is the object.
fn is_no_file(why: Option<DirRefused>, object: &str) -> bool {
    match why {
        Some(DirRefused::NoFile { name }) => object.as_bytes().ends_with(&spell_file_name(name)),
        _ => false,
    }
}

// A foreign name is told, which is the end of this path.
fn is_foreign(why: Option<DirRefused>, path: &str) -> bool {
    match why {
        Some(DirRefused::Foreign { name: Some(name) }) => path.as_bytes().ends_with(&name),
        _ => false,
    }
}

// Makes the pages 1 and 2, and answers whether that was done.
fn make_pages(disk: &mut DirDisk) -> bool {
    disk.create(page(1), b"abc").is_ok() && disk.create(page(2), b"abc").is_ok()
}

// What fetches the page 1.
#[derive(Drop)]
struct Reader {
    page: DirPage,
    port: DirPort,
}

impl Reader {
    fn of(alloc: Global, disk: &mut DirDisk) -> Result<Reader, Fail> {
        let page = disk.open_page(alloc, page(1))?;
        let port = disk.port(alloc)?;
        Ok(Reader { page, port })
    }

    fn fetch(&mut self, alloc: Global) -> Result<Vec<u8>, DiskRefused> {
        DirDisk::fetch(alloc, &mut self.port, &self.page)
    }

    fn faults(&self) -> u64 {
        DirDisk::port_faults(&self.port)
    }
}

// Whether a folder is made, with the page 1.
fn is_made(rt: &HostRuntime, folder: &str) -> bool {
    match DirDisk::open(rt, rt.alloc(), folder) {
        Ok(mut disk) => disk.create(page(1), b"abc").is_ok(),
        Err(_) => false,
    }
}

// Whether that is who may do what with a file or a folder.
fn has_mode(rt: &HostRuntime, path: &str, mode: u32) -> bool {
    matches!(fs::metadata(rt, path), Ok(seen) if seen.mode() & 0o777 == mode)
}

#[test]
fn what_is_made_is_its_owners_alone(rt: HostRuntime) {
    const FOLDER: &str = "lethe_folder_modes";
    clear(&rt, FOLDER);
    assert!(rt; is_made(&rt, FOLDER));
    assert!(rt; has_mode(&rt, FOLDER, 0o700));
    assert!(rt; has_mode(&rt, "lethe_folder_modes/p-00000000000000000001", 0o600));
    // What is there already stays as it is.
    let open_to_all = Permissions::from_mode(0o755);
    assert!(rt; is_done(fs::set_permissions(&rt, FOLDER, open_to_all)));
    assert!(rt; refused(&rt, FOLDER).is_none());
    assert!(rt; has_mode(&rt, FOLDER, 0o755));
    clear(&rt, FOLDER);
}

fn is_link(rt: &HostRuntime, path: &str) -> bool {
    matches!(fs::symlink_metadata(rt, path), Ok(seen) if seen.is_symlink())
}

fn is_folder(rt: &HostRuntime, path: &str) -> bool {
    matches!(fs::metadata(rt, path), Ok(seen) if seen.is_dir())
}

// Whether a folder is refused where a link stands for an object, and the link stays.
fn link_is_refused(rt: &HostRuntime, folder: &str, object: &str, target: &str) -> bool {
    is_done(symlink(rt, target, object))
        && is_no_file(refused(rt, folder), object)
        && is_link(rt, object)
        && is_done(fs::remove_file(rt, object))
}

// Whether a folder is refused where a folder stands for an object, and that one stays.
fn folder_is_refused(rt: &HostRuntime, folder: &str, object: &str) -> bool {
    is_done(fs::create_dir(rt, object))
        && is_foreign(refused(rt, folder), object)
        && is_folder(rt, object)
}

/// A file outside, the link itself, and nothing.
const TARGETS: [&str; 3] = [
    "../lethe_folder_refused_outside",
    "p-00000000000000000001",
    "nothing",
];

#[test]
fn what_is_no_file_is_refused(rt: HostRuntime) {
    const FOLDER: &str = "lethe_folder_refused";
    const OUTSIDE: &str = "lethe_folder_refused_outside";
    const OBJECT: &str = "lethe_folder_refused/p-00000000000000000001";
    clear(&rt, FOLDER);
    assert!(rt; is_done(fs::write(&rt, OUTSIDE, b"kept".as_slice())));
    assert!(rt; is_done(fs::create_dir(&rt, FOLDER)));
    for target in TARGETS {
        assert!(rt; link_is_refused(&rt, FOLDER, OBJECT, target), "{target}");
    }
    assert!(rt; folder_is_refused(&rt, FOLDER, OBJECT));
    assert!(rt; has_bytes(&rt, OUTSIDE, b"kept"));
    assert!(rt; is_done(fs::remove_file(&rt, OUTSIDE)));
    clear(&rt, FOLDER);
}

// Whether each call of the disk that would follow the link of the page 1 fails.
fn no_call_follows(alloc: Global, disk: &mut DirDisk) -> bool {
    fails(disk.read(alloc, page(1)))
        && fails(disk.open_page(alloc, page(1)))
        && fails(disk.write_at(page(1), 0, b"new"))
        && fails(disk.create(page(1), b"new"))
        && fails(disk.sync())
        && disk.faults() == 5
}

// Whether a fetch fails where a link has come in place of the page 1.
fn no_fetch_follows(
    rt: &HostRuntime,
    disk: &mut DirDisk,
    target: &str,
    object: &str,
) -> Result<bool, Fail> {
    let mut reader = Reader::of(rt.alloc(), disk)?;
    Ok(
        is_done(fs::remove_file(rt, object))
            && is_done(symlink(rt, target, object))
            && fails(reader.fetch(rt.alloc()))
            && reader.faults() == 1,
    )
}

#[test]
fn a_link_that_comes_later_is_not_followed(rt: HostRuntime) -> Result<(), Fail> {
    const FOLDER: &str = "lethe_folder_link";
    const OUTSIDE: &str = "lethe_folder_link_outside";
    const TARGET: &str = "../lethe_folder_link_outside";
    const OBJECT: &str = "lethe_folder_link/p-00000000000000000001";
    clear(&rt, FOLDER);
    assert!(rt; is_done(fs::write(&rt, OUTSIDE, b"kept".as_slice())));
    let mut disk = DirDisk::open(&rt, rt.alloc(), FOLDER)?;
    assert!(rt; make_pages(&mut disk));
    assert!(rt; no_fetch_follows(&rt, &mut disk, TARGET, OBJECT)?);
    assert!(rt; no_call_follows(rt.alloc(), &mut disk));
    // The link itself may be removed.
    assert!(rt; disk.remove(page(1)).is_ok());
    assert!(rt; has_bytes(&rt, OUTSIDE, b"kept"));
    assert!(rt; is_done(fs::remove_file(&rt, OUTSIDE)));
    clear(&rt, FOLDER);
    Ok(())
}

// Makes the disk of a folder with other files, and answers whether that was done.
fn make_other(rt: &HostRuntime, folder: &str) -> bool {
    match DirDisk::open(rt, rt.alloc(), folder) {
        Ok(mut other) => {
            other.create(page(1), b"other").is_ok() && other.create(page(9), b"other").is_ok()
        }
        Err(_) => false,
    }
}

// Whether the disk of a folder that was moved takes changes, and tells them of itself.
fn changes(alloc: Global, disk: &mut DirDisk) -> bool {
    disk.create(page(4), b"four").is_ok()
        && disk.write_at(page(2), 1, b"new").is_ok()
        && disk.remove(page(3)).is_ok()
        && disk.sync().is_ok()
        && has_names(alloc, disk, &[page(1), page(2), page(4)])
        && gives(disk.read(alloc, page(1)), b"abc")
}

// Whether a new port has no faults.
fn has_new_port(alloc: Global, disk: &mut DirDisk) -> bool {
    matches!(disk.port(alloc), Ok(port) if DirDisk::port_faults(&port) == 0)
}

// Whether both folders can be opened beside a reader of the one that was moved.
fn are_free_beside(rt: &HostRuntime, reader: &mut Reader, folder: &str, moved: &str) -> bool {
    match DirDisk::open(rt, rt.alloc(), folder) {
        Ok(mut other) => {
            has_names(rt.alloc(), &mut other, &[page(1), page(9)])
                && refused(rt, moved).is_none()
                && gives(reader.fetch(rt.alloc()), b"abc")
        }
        Err(_) => false,
    }
}

#[test]
fn a_folder_is_the_same_behind_a_rename(rt: HostRuntime) -> Result<(), Fail> {
    const FOLDER: &str = "lethe_folder_renamed";
    const MOVED: &str = "lethe_folder_moved";
    let alloc = rt.alloc();
    clear(&rt, FOLDER);
    clear(&rt, MOVED);
    let mut disk = DirDisk::open(&rt, alloc, FOLDER)?;
    assert!(rt; make_pages(&mut disk) && disk.create(page(3), b"").is_ok());
    let mut reader = Reader::of(alloc, &mut disk)?;
    // Another folder takes the name, with other files.
    assert!(rt; is_done(fs::rename(&rt, FOLDER, MOVED)) && make_other(&rt, FOLDER));
    assert!(rt;
        matches!(
            refused(&rt, MOVED),
            Some(DirRefused::Folder {
                step: OpenStep::Lock,
                ..
            })
        )
    );
    assert!(rt; changes(alloc, &mut disk) && has_new_port(alloc, &mut disk));
    assert!(rt; gives(reader.fetch(alloc), b"abc"));
    drop(disk);
    assert!(rt; has_bytes(&rt, "lethe_folder_moved/p-00000000000000000004", b"four"));
    assert!(rt; has_bytes(&rt, "lethe_folder_moved/p-00000000000000000002", b"anew"));
    // A port has the folder open and doesn't hold it.
    assert!(rt; are_free_beside(&rt, &mut reader, FOLDER, MOVED));
    clear(&rt, FOLDER);
    clear(&rt, MOVED);
    Ok(())
}

// Whether there is nothing of that path.
fn is_absent(rt: &HostRuntime, path: &str) -> bool {
    matches!(fs::exists(rt, path), Ok(false))
}

#[test]
fn a_removed_folder_is_a_fault(rt: HostRuntime) -> Result<(), Fail> {
    const FOLDER: &str = "lethe_folder_removed";
    clear(&rt, FOLDER);
    let mut disk = DirDisk::open(&rt, rt.alloc(), FOLDER)?;
    clear(&rt, FOLDER);
    assert!(rt; fails(disk.create(page(1), b"abc")) && fails(disk.names(rt.alloc())));
    assert!(rt; disk.faults() == 2);
    assert!(rt; is_absent(&rt, FOLDER));
    Ok(())
}

/// The most bytes that a page is read of, and written.
const MOST: u64 = 1 << 25;

// Whether as many bytes were read or fetched as there may be.
fn gives_most(answer: Result<Vec<u8>, DiskRefused>) -> bool {
    matches!(answer, Ok(read) if read.len() == MOST as usize)
}

// Whether a disk and its reader give of the page 1 no more than that.
fn is_read_up_to_most(alloc: Global, disk: &mut DirDisk) -> Result<bool, Fail> {
    let mut reader = Reader::of(alloc, disk)?;
    Ok(gives_most(disk.read(alloc, page(1))) && gives_most(reader.fetch(alloc)))
}

// Whether what couldn't be read again isn't written.
fn is_written_up_to_most(disk: &mut DirDisk) -> bool {
    let gate = Name {
        kind: Kind::Gate,
        no: 1,
    };
    disk.create(page(2), b"abc").is_ok()
        && disk.write_at(page(2), MOST - 3, b"end").is_ok()
        && fails(disk.write_at(page(2), MOST - 2, b"end"))
        && fails(disk.write_at(page(2), u64::MAX, b"end"))
        && fails(disk.create(gate, b"x"))
        && disk.faults() == 3
}

// Makes a file of that length with no bytes written, and answers whether that was done.
fn make_sparse(rt: &HostRuntime, path: &str, len: u64) -> bool {
    match File::create(rt, path) {
        Ok(file) => is_done(file.set_len(len)),
        Err(_) => false,
    }
}

fn has_len(rt: &HostRuntime, path: &str, len: u64) -> bool {
    matches!(fs::metadata(rt, path), Ok(seen) if seen.len() == len)
}

#[test]
fn a_sparse_object_is_read_up_to_its_bound(rt: HostRuntime) -> Result<(), Fail> {
    const FOLDER: &str = "lethe_folder_sparse";
    clear(&rt, FOLDER);
    let mut disk = DirDisk::open(&rt, rt.alloc(), FOLDER)?;
    assert!(rt; make_sparse(&rt, "lethe_folder_sparse/p-00000000000000000001", 1 << 36));
    assert!(rt; is_read_up_to_most(rt.alloc(), &mut disk)?);
    assert!(rt; is_written_up_to_most(&mut disk));
    assert!(rt; has_len(&rt, "lethe_folder_sparse/p-00000000000000000002", MOST));
    assert!(rt; is_absent(&rt, "lethe_folder_sparse/g-00000000000000000001"));
    clear(&rt, FOLDER);
    Ok(())
}
