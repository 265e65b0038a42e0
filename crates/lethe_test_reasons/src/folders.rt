//! Folders that are refused, and what is said of them.

use crate::shown::reads;
use lethe_base::{Kind, Name};
use lethe_dirdisk::{DirRefused, OpenStep};
use lethe_reasons::{folder_refused, gate_missing};
use std::alloc::Global;
use std::io::{Error, ErrorKind};

const PAGE: Name = Name {
    kind: Kind::Page,
    no: 7,
};

/// A path, the step that the system refused, its number, and the reason.
const STEPS: [(&str, OpenStep, i32, &[u8]); 8] = [
    (
        "a/b/c",
        OpenStep::Make,
        2,
        b"the folder a/b/c couldn't be made, since a/b isn't there: No such file or directory (os error 2)",
    ),
    (
        "/x/",
        OpenStep::Make,
        13,
        b"the folder /x/ couldn't be made: Permission denied (os error 13)",
    ),
    ("", OpenStep::Make, 2, b"the folder's name is empty"),
    (
        "notes.txt",
        OpenStep::Open,
        20,
        b"the folder notes.txt couldn't be opened: Not a directory (os error 20)",
    ),
    (
        "data",
        OpenStep::Lock,
        11,
        b"another process holds the folder data: wait until it ends",
    ),
    (
        "line\nbreak",
        OpenStep::List,
        13,
        b"the folder line?break couldn't be listed: Permission denied (os error 13)",
    ),
    (
        "data",
        OpenStep::Look { name: PAGE },
        13,
        b"the file p-00000000000000000007 of the folder data couldn't be looked at: Permission denied (os error 13)",
    ),
    (
        "data",
        OpenStep::SyncParent,
        13,
        b"the folder that data lies in couldn't be opened and synced: Permission denied (os error 13)",
    ),
];

fn step_is_told(alloc: Global, dir: &str, step: OpenStep, code: i32, reason: &[u8]) -> bool {
    let error = Error::from_raw_os_error(code);
    reads(
        folder_refused(alloc, dir, &DirRefused::Folder { step, error }),
        reason,
    )
}

#[test]
fn a_step_that_the_system_refused_has_its_reason(rt: HostRuntime) {
    for (dir, step, code, reason) in STEPS {
        assert!(rt;
            step_is_told(rt.alloc(), dir, step, code, reason),
            "{dir} {code}"
        );
    }
}

fn foreign_is_told(alloc: Global, name: Option<Vec<u8>>, reason: &[u8]) -> bool {
    reads(
        folder_refused(alloc, "data", &DirRefused::Foreign { name }),
        reason,
    )
}

fn of_bytes(alloc: Global, name: &[u8]) -> Option<Vec<u8>> {
    Vec::from_slice(alloc, name).ok()
}

#[test]
fn what_is_foreign_is_named(rt: HostRuntime) {
    let alloc = rt.alloc();
    assert!(rt;
        foreign_is_told(
            alloc,
            of_bytes(alloc, b"notes.txt"),
            b"the folder data holds notes.txt, which is no file of a store: move it away",
        )
    );
    assert!(rt;
        foreign_is_told(
            alloc,
            None,
            b"the folder data holds something that is no file of a store: move it away",
        )
    );
    assert!(rt;
        reads(
            folder_refused(alloc, "data", &DirRefused::NoFile { name: PAGE }),
            b"the folder data holds p-00000000000000000007, which is a link, a pipe or a device and no plain file: move it away",
        )
    );
    assert!(rt;
        reads(
            gate_missing(alloc, "data", PAGE),
            b"the folder data holds p-00000000000000000007 and no gate, the empty file g-..: it was tidied away, or a copy left it out; restore the folder from a backup (docs/GUIDE.md, When something goes wrong)",
        )
    );
    assert!(rt;
        reads(
            folder_refused(alloc, "data", &DirRefused::NoMemory),
            b"there was no memory: what was printed was carried out, and perhaps more",
        )
    );
}
