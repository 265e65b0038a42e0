//! What a buffer becomes: files, their objects, and the erases that are pending.
ghost use Rattle.std.specs.Prelude.{◌≤◌, length, All, IfOk};
ghost use Rattle.lethe_base.specs.Spelling.{HasSpelling};

use crate::common::config_of;
use lethe_base::{Kind, List, Pending, Range};
use lethe_build::Draft;
use lethe_commit::Object;
use lethe_flush::{MadeFiles, flush_drafts, flush_files, is_clear, newest_of, pending_of};
use lethe_header::read_header;
use lethe_manifest::Cited;
use lethe_mem::VecBuffer;
use lethe_memdisk::MemDisk;
use lethe_segment::{Record, replay};
use lethe_test_values::SMALL;
use lethe_version::Version;
use std::alloc::Global;
use std::process::Abort;
use std::test::Fail;

/// Segment 1 with the puts of `a`, `b`, `c` and `d` at the places 1 to 4, with the delete keys 11, 15, 12 and 30.
const PUTS: [u8; 108] =
    *b"LS\x01\0\0\0\0\0\0\0\x01\x01\x01\0\0\0\0\0\0\0\x01\0\x01a\0\0\0\0\0\0\0\x0b\0\x01x\x01\x01\0\0\0\0\0\0\0\x02\0\x01b\0\0\0\0\0\0\0\x0f\0\x01x\x01\x01\0\0\0\0\0\0\0\x03\0\x01c\0\0\0\0\0\0\0\x0c\0\x01x\x01\x01\0\0\0\0\0\0\0\x04\0\x01d\0\0\0\0\0\0\0\x1e\0\x01x\0";

/// Segment 1 with the tombstone of `a` at place 2, of time 0.
const TOMB: [u8; 33] =
    *b"LS\x01\0\0\0\0\0\0\0\x01\x01\x02\0\0\0\0\0\0\0\x02\x01\0\0\0\0\0\0\0\0\x01a\0";

/// The puts of `a` and of `c`.
const PAGE_AC: [u8; 54] =
    *b"LP\x01\x01\0\0\0\x02\x01\0\0\0\0\0\0\0\x01\0\x01a\0\0\0\0\0\0\0\x0b\0\x01x\x01\0\0\0\0\0\0\0\x03\0\x01c\0\0\0\0\0\0\0\x0c\0\x01x";

/// The puts of `b` and of `d`.
const PAGE_BD: [u8; 54] =
    *b"LP\x01\x01\0\0\0\x02\x01\0\0\0\0\0\0\0\x02\0\x01b\0\0\0\0\0\0\0\x0f\0\x01x\x01\0\0\0\0\0\0\0\x04\0\x01d\0\0\0\0\0\0\0\x1e\0\x01x";

/// File 3, whose tile has these as its pages 1 and 2.
const FILE: [u8; 182] =
    *b"LF\x01\0\0\0\0\0\0\0\x03\0\x01\x01a\x01d\x02\0\0\0\0\0\0\0\x01\x01\0\0\0\x02\0\0\0\0\0\0\0\x03\0\0\0\0\0\0\0\0\x0b\0\0\0\0\0\0\0\x0c\0\0\0\x01\x80\x0c\0@\x02\00\x01\xdc\x88\xef\x05\xe6\xb4-\x95N\x1e<\xce\xe8]\x12E\xb2h\x93<\xf1gAO\x99\x0e|V\x92]\x9cl\0\0\0\0\0\0\0\x02\x01\0\0\0\x02\0\0\0\0\0\0\0\x04\0\0\0\0\0\0\0\0\x0f\0\0\0\0\0\0\0\x1e\0\0\0\x01\x80\x1c\0\xe0\x06\00\x01[S\x8f(\xcd\xd3H\x17W\xba\x95\x98\xd2\xc1\xf9\xd4\xdf\x81\xa1\xdb\x7f\xe6\x1fQW\xb3\xc7r\x8b\xf6\xdb\xd4";

const DIGEST: [u8; 32] =
    *b"\x05u`\xed\x9d\x14\x80{\xc1\xd1a$\x80\xd7\xd2\x83v\x1d\x7f=\xca\xdb\x80%\xd8\xd5\x93\xc9\xd8\xa9\xc0\x06";

/// The newest entries of the records of a segment.
fn buffer_of(alloc: Global, segment: &[u8]) -> Result<VecBuffer, Fail>
    ensures spelled { IfOk result (λ buffer. All HasSpelling buffer.entries) }
    ensures few { IfOk result (λ buffer. length buffer.entries ≤ 10) }
{
    let records = replay(alloc, segment).map_err(|_| "no records")?;
    if records.len() > 10 {
        return Err(Fail::new("too many records"));
    }
    Ok(newest_of(alloc, List::of(records))?)
}

/// What is made of the records of a segment where one erase of a range of delete keys is pending, at place 9 and time 40.
fn flush_row(alloc: Global, segment: &[u8], erased: Range, alone: bool) -> Result<MadeFiles, Fail> {
    let buffer = buffer_of(alloc, segment)?;
    let erases = [Pending {
        seq: 9,
        time: 40,
        range: erased,
    }];
    let drafts = flush_drafts(alloc, &buffer, &erases, alone, &config_of(SMALL)?)?;
    Ok(flush_files(alloc, drafts, 9, 1)?)
}

fn range_of(lo: u64, hi: u64) -> Result<Range, Fail> {
    Ok(Range::new(lo, hi).ok_or("no range")?)
}

fn check_cited(rt: &impl Abort, cited: &[Cited]) -> Result<(), Fail> {
    let [file] = cited else {
        return Err(Fail::new("one file"));
    };
    assert!(rt; (file.level, file.no, file.swept) == (0, 3, 9));
    assert!(rt; file.digest == DIGEST);
    Ok(())
}

// The object's kind and number, where it has these bytes.
fn holding(object: &Object, bytes: &[u8]) -> Option<(Kind, u64)> {
    if object.bytes.items() == bytes {
        Some((object.name.kind, object.name.no))
    } else {
        None
    }
}

fn check_objects(rt: &impl Abort, objects: &[Object]) -> Result<(), Fail> {
    let [header, first, second] = objects else {
        return Err(Fail::new("three objects"));
    };
    assert!(rt; holding(header, &FILE) == Some((Kind::File, 3)));
    assert!(rt; holding(first, &PAGE_AC) == Some((Kind::Page, 1)));
    assert!(rt; holding(second, &PAGE_BD) == Some((Kind::Page, 2)));
    Ok(())
}

#[test]
fn four_puts_are_one_file_with_two_pages(rt: HostRuntime) -> Result<(), Fail> {
    let flushed = flush_row(rt.alloc(), &PUTS, range_of(100, 200)?, false)?;
    assert!(rt; (flushed.headers.len(), flushed.next) == (1, 4));
    check_cited(&rt, &flushed.cited)?;
    check_objects(&rt, &flushed.objects)
}

/// Segment 1 with no record.
const NONE: [u8; 12] = *b"LS\x01\0\0\0\0\0\0\0\x01\0";

/// A segment, the range that is erased, whether the buffer is alone, and how many objects there are.
const LEFTOVERS: [(&[u8], (u64, u64), bool, usize); 6] = [
    (&TOMB, (0, 1), false, 2),
    (&TOMB, (0, 1), true, 0),
    (&PUTS, (0, 100), false, 2),
    (&PUTS, (0, 100), true, 0),
    (&PUTS, (0, 16), true, 2),
    (&NONE, (0, 1), false, 0),
];

// How many objects there are, whether none is cited, and the next number.
fn left_of(
    alloc: Global,
    segment: &[u8],
    erased: Range,
    alone: bool,
) -> Result<(usize, bool, u64), Fail> {
    let flushed = flush_row(alloc, segment, erased, alone)?;
    Ok((
        flushed.objects.len(),
        flushed.cited.is_empty(),
        flushed.next,
    ))
}

#[test]
fn what_nothing_is_left_of_makes_no_file(rt: HostRuntime) -> Result<(), Fail> {
    for (segment, (lo, hi), alone, objects) in LEFTOVERS {
        let left = left_of(rt.alloc(), segment, range_of(lo, hi)?, alone)?;
        assert!(rt;
            left == (objects, objects == 0, objects as u64 + 1),
            "{lo} {hi} {alone}"
        );
    }
    Ok(())
}

// What is pending of a manifest with the erases at 3 and 5 and of records with those at 5 and 8.
fn pending(alloc: Global) -> Result<Vec<Pending>, Fail> {
    let range = range_of(0, 1)?;
    let erase_of = |seq, time| Pending { seq, time, range };
    let erases = [erase_of(3, 1), erase_of(5, 2)];
    let records = vec![in alloc;
        Record::Erase(erase_of(5, 7)),
        Record::Blind { seq: 6 },
        Record::Erase(erase_of(8, 9)),
    ]?;
    Ok(pending_of(alloc, &erases, &records)?)
}

#[test]
fn erases_are_pending_by_place_and_the_manifests_first(rt: HostRuntime) -> Result<(), Fail> {
    let pending = pending(rt.alloc())?;
    assert!(rt; pending.len() == 3);
    for (erase, (seq, time)) in pending.iter().zip([(3, 1), (5, 2), (8, 9)]) {
        assert!(rt; (erase.seq, erase.time) == (seq, time), "{seq}");
    }
    Ok(())
}

// The draft of the file, without its pages.
fn draft(alloc: Global) -> Result<Draft, Fail> {
    let header = read_header(alloc, &FILE).map_err(|_| "no header")?;
    Ok(Draft {
        tiles: header.tiles,
        pages: List::of(Vec::new(alloc)),
    })
}

// Whether no file has a key of the buffer's range, where there is nothing but these drafts.
fn is_clear_of(alloc: Global, buffer: &VecBuffer, drafts: &[Draft]) -> Result<bool, Fail> {
    let version: Version<MemDisk> = Version::of(alloc, Vec::new(alloc))?;
    Ok(is_clear(buffer, &version, drafts))
}

fn is_tombstone_clear_of(alloc: Global, drafts: &[Draft]) -> Result<bool, Fail> {
    let buffer = buffer_of(alloc, &TOMB)?;
    is_clear_of(alloc, &buffer, drafts)
}

#[test]
fn a_buffer_is_clear_of_files_beside_its_keys(rt: HostRuntime) -> Result<(), Fail> {
    let alloc = rt.alloc();
    assert!(rt; is_tombstone_clear_of(alloc, &[])?);
    assert!(rt; !is_tombstone_clear_of(alloc, &[draft(alloc)?])?);
    assert!(rt; !is_clear_of(alloc, &VecBuffer::new(alloc), &[])?);
    Ok(())
}
