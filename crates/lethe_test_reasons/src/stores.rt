//! Stores that aren't opened, runs that end, and what is said of them.

use crate::shown::reads;
use lethe_base::{Fields, Kind, Name, NoMemory, Pick};
use lethe_reasons::{
    Message, damaged, no_memory, open_exhausted, open_fault, other_config, refused_answer,
    refused_call, sink_failed, source_failed,
};
use std::alloc::Global;

fn config_is_told(alloc: Global, kept: Fields, reason: &[u8]) -> bool {
    reads(other_config(alloc, &kept, &Fields::default()), reason)
}

#[test]
fn options_that_differ_are_told(rt: HostRuntime) {
    let default = Fields::default();
    assert!(rt;
        config_is_told(
            rt.alloc(),
            Fields {
                threshold: 30,
                ..default
            },
            b"the store was made with other options: run with --threshold 30 in place of --threshold 1000",
        )
    );
    assert!(rt;
        config_is_told(
            rt.alloc(),
            Fields {
                ratio: 2,
                buffer: 4,
                pick: Pick::Sd,
                ..default
            },
            b"the store was made with other options: run with --ratio 2 --buffer 4 --pick sd in place of --ratio 4 --buffer 512 --pick so",
        )
    );
}

#[test]
fn a_damaged_object_is_named(rt: HostRuntime) {
    let page = Name {
        kind: Kind::Page,
        no: 55,
    };
    assert!(rt;
        reads(
            damaged(rt.alloc(), page),
            b"page 55, the file p-00000000000000000055, is missing, cut or changed: there is no repair, so restore the folder from a backup (docs/GUIDE.md, When something goes wrong)",
        )
    );
}

#[test]
fn an_end_has_its_reason(rt: HostRuntime) {
    let alloc = rt.alloc();
    assert!(rt;
        reads(
            open_fault(alloc),
            b"the store couldn't be opened, since the file system refused a call: look for a full disk, for rights and for errors of the device (docs/GUIDE.md, When something goes wrong)"
        )
    );
    assert!(rt;
        reads(
            open_exhausted(alloc, 9),
            b"the store has no number left up to 9: make a new one of what a scan prints (docs/GUIDE.md, When something goes wrong)"
        )
    );
    assert!(rt;
        reads(
            source_failed(alloc),
            b"standard input couldn't be read, so nothing was carried out"
        )
    );
    assert!(rt;
        reads(
            sink_failed(alloc),
            b"standard output couldn't be written: what was printed was carried out, and perhaps more"
        )
    );
    assert!(rt;
        reads(
            no_memory(alloc),
            b"there was no memory: what was printed was carried out, and perhaps more"
        )
    );
    assert!(rt;
        reads(
            refused_answer(alloc, 3),
            b"line 3 of the output is the first that tells of a change that failed or wasn't made, or of a read that wasn't answered: fault, stopped, exhausted, readfault or damaged (docs/GUIDE.md, When something goes wrong)"
        )
    );
    assert!(rt;
        reads(
            refused_call(alloc),
            b"a change failed or wasn't made, or a read wasn't answered (docs/GUIDE.md, When something goes wrong)"
        )
    );
}

fn prints(alloc: Global, message: Result<Message, NoMemory>, line: &[u8]) -> bool {
    match message.and_then(|message| message.printed(alloc, 4)) {
        Ok(printed) => printed.as_slice() == line,
        Err(NoMemory) => false,
    }
}

#[test]
fn a_line_tells_the_status(rt: HostRuntime) {
    assert!(rt;
        prints(
            rt.alloc(),
            source_failed(rt.alloc()),
            b"lethe: standard input couldn't be read, so nothing was carried out (status 4: ./lethe --help)\n",
        )
    );
}
