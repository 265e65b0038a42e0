//! Tests of the segments of the journal.
ghost use Rattle.lethe_base.specs.Erases.{IsErase};
ghost use Rattle.lethe_segment.specs.Records.{RecordHasSpelling};

use crate::common::{changed, check_bytes, cut};
use lethe_base::{Body, Entry, Pending, Range, Value};
use lethe_segment::{
    Record, SegmentRefused, ascending_places, new_segment, one_record, one_segment, replay,
    segment_number, spelling_holds, write_record, write_segment,
};
use lethe_test_values::key_of;
use std::alloc::Global;
use std::process::Abort;

/// Segment 3 with the put of key `a`, delete key 5, value `x` at place 1.
const SEGMENT: &[u8] =
    b"LS\x01\0\0\0\0\0\0\0\x03\x01\x01\0\0\0\0\0\0\0\x01\0\x01a\0\0\0\0\0\0\0\x05\0\x01x\0";

fn written(alloc: Global, rt: &impl Abort, record: &Record) -> Vec<u8>
    requires { RecordHasSpelling record.now }
{
    write_record(alloc, record).expect(rt, "a spelling")
}

/// The spelling of the put that `SEGMENT` has.
fn put(alloc: Global, rt: &impl Abort) -> Vec<u8> {
    let bytes = b"x".to_vec(alloc).expect(rt, "memory");
    let value = Value::new(bytes).expect(rt, "a value");
    let key = key_of(alloc, "a").expect(rt, "a key");
    let record = Record::Entry(Entry {
        seq: 1,
        key,
        body: Body::Put { dkey: 5, value },
        since: None,
    });
    written(alloc, rt, &record)
}

/// The spelling of the tombstone of key `a` at place 2 with time 0.
fn tomb(alloc: Global, rt: &impl Abort) -> Vec<u8> {
    let record = Record::Entry(Entry {
        seq: 2,
        key: key_of(alloc, "a").expect(rt, "a key"),
        body: Body::Tomb,
        since: Some(0),
    });
    written(alloc, rt, &record)
}

/// The spelling of the blind delete of place 7.
fn blind(alloc: Global, rt: &impl Abort) -> Vec<u8> {
    written(alloc, rt, &Record::Blind { seq: 7 })
}

#[test]
fn records_are_spelled_as_the_format_says(rt: HostRuntime) {
    check_bytes(&rt, &put(rt.alloc(), &rt), &SEGMENT[12..35]);
    let spelling = b"\x02\0\0\0\0\0\0\0\x02\x01\0\0\0\0\0\0\0\0\x01a";
    check_bytes(&rt, &tomb(rt.alloc(), &rt), spelling);
    let spelling = b"\x03\0\0\0\0\0\0\0\x07";
    check_bytes(&rt, &blind(rt.alloc(), &rt), spelling);
    check_bytes(&rt, &new_segment(3), b"LS\x01\0\0\0\0\0\0\0\x03\0");
    assert!(rt; segment_number(SEGMENT) == Some(3));
    assert!(rt; segment_number(&SEGMENT[..10]).is_none());
}

/// Segment 3 with the blind deletes of places 2 and 9.
const BLIND: &[u8] =
    b"LS\x01\0\0\0\0\0\0\0\x03\x01\x03\0\0\0\0\0\0\0\x02\x01\x03\0\0\0\0\0\0\0\x09\0";

/// The same with a closed gate before the second record.
const CLOSED: &[u8] =
    b"LS\x01\0\0\0\0\0\0\0\x03\x01\x03\0\0\0\0\0\0\0\x02\0\x03\0\0\0\0\0\0\0\x09\0";

/// The same with another byte in place of the first gate's.
const OTHER: &[u8] = b"LS\x01\0\0\0\0\0\0\0\x03\x02\x03\0\0\0\0\0\0\0\x02\0";

/// The places of the records that are replayed.
fn places(alloc: Global, bytes: &[u8]) -> Result<Vec<u64>, SegmentRefused> {
    let mut places = Vec::new(alloc);
    for record in &replay(alloc, bytes)? {
        places.push(record.seq())?;
    }
    Ok(places)
}

/// A segment, how much of it is there, and the places of the records that are replayed.
const REPLAYED: &[(&[u8], usize, &[u64])] = &[
    (SEGMENT, 36, &[1]),
    (SEGMENT, 35, &[1]),
    (SEGMENT, 11, &[]),
    (BLIND, 32, &[2, 9]),
    (CLOSED, 32, &[2]),
    (OTHER, 22, &[]),
];

/// Records of these places have to be replayed.
fn check_places(alloc: Global, rt: &impl Abort, bytes: &[u8], wanted: &[u64]) {
    let found = places(alloc, bytes).expect(rt, "records");
    assert!(rt; found.as_slice() == wanted, "{found:?}");
}

#[test]
fn records_are_replayed_up_to_a_gate_that_is_not_open(rt: HostRuntime) {
    for (bytes, len, wanted) in REPLAYED {
        check_places(rt.alloc(), &rt, cut(&rt, bytes, *len), wanted);
    }
    check_places(rt.alloc(), &rt, &new_segment(8), &[]);
}

/// Bytes that are no segment, and why.
const REFUSED: &[(&[u8], SegmentRefused)] = &[
    (b"", SegmentRefused::Header { at: 0 }),
    (b"M", SegmentRefused::Header { at: 0 }),
    (b"L", SegmentRefused::Header { at: 1 }),
    (
        b"LX\x01\0\0\0\0\0\0\0\x03\0",
        SegmentRefused::Header { at: 1 },
    ),
    (b"LS", SegmentRefused::Header { at: 2 }),
    (
        b"LS\x02\0\0\0\0\0\0\0\x03\0",
        SegmentRefused::Header { at: 2 },
    ),
    (b"LS\x01", SegmentRefused::Header { at: 3 }),
    (b"LS\x01\0\0\0\0\0\0\0", SegmentRefused::Header { at: 10 }),
    (
        b"LS\x01\0\0\0\0\0\0\0\x03\x01",
        SegmentRefused::Record { at: 12 },
    ),
    (
        b"LS\x01\0\0\0\0\0\0\0\x03\x01\0",
        SegmentRefused::Record { at: 12 },
    ),
    (
        b"LS\x01\0\0\0\0\0\0\0\x03\x01\x03\0\0\0\0\0\0\0",
        SegmentRefused::Record { at: 12 },
    ),
    (
        b"LS\x01\0\0\0\0\0\0\0\x03\x01\x03\0\0\0\0\0\0\0\0\0",
        SegmentRefused::Record { at: 12 },
    ),
    (
        b"LS\x01\0\0\0\0\0\0\0\x03\x01\x03\x40\0\0\0\0\0\0\0\0",
        SegmentRefused::Record { at: 12 },
    ),
    (
        b"LS\x01\0\0\0\0\0\0\0\x03\x01\x05\0\0\0\0\0\0\0\x01\0",
        SegmentRefused::Record { at: 12 },
    ),
    (
        b"LS\x01\0\0\0\0\0\0\0\x03\x01\x03\0\0\0\0\0\0\0\x02\x01\x03\0\0\0\0\0\0\0\x02\0",
        SegmentRefused::Order { at: 22 },
    ),
    (
        b"LS\x01\0\0\0\0\0\0\0\x03\x01\x03\0\0\0\0\0\0\0\x02\x01\x03\0\0\0\0\0\0\0\x01\0",
        SegmentRefused::Order { at: 22 },
    ),
];

/// The bytes have to be refused so.
fn check_refused(alloc: Global, rt: &impl Abort, bytes: &[u8], why: SegmentRefused) {
    let found = places(alloc, bytes).err();
    assert!(rt; found == Some(why), "{found:?}");
}

#[test]
fn other_bytes_are_refused_at_their_place(rt: HostRuntime) {
    for (bytes, why) in REFUSED {
        check_refused(rt.alloc(), &rt, bytes, *why);
    }
    let why = SegmentRefused::Record { at: 12 };
    check_refused(rt.alloc(), &rt, &SEGMENT[..34], why);
}

/// Segment 3 with the put of `SEGMENT`, the erase of place 4 at time 10 of the delete keys 5 up to 9, and the blind
/// delete of place 7. Its records begin at 12, 36 and 70.
const MIXED: &[u8] =
    b"LS\x01\0\0\0\0\0\0\0\x03\x01\x01\0\0\0\0\0\0\0\x01\0\x01a\0\0\0\0\0\0\0\x05\0\x01x\x01\x04\0\0\0\0\0\0\0\x04\0\0\0\0\0\0\0\x0a\0\0\0\0\0\0\0\x05\0\0\0\0\0\0\0\x09\x01\x03\0\0\0\0\0\0\0\x07\0";

/// The erase that `MIXED` has.
fn erase(rt: &impl Abort) -> Pending
    ensures { IsErase result }
{
    Pending {
        seq: 4,
        time: 10,
        range: Range::new(5, 9).expect(rt, "a range"),
    }
}

/// The segment that the bytes begin with, written again as it was read.
fn rewritten(alloc: Global, rt: &impl Abort, bytes: &[u8]) -> Vec<u8> {
    let number = segment_number(bytes).expect(rt, "a number");
    let records = replay(alloc, bytes).expect(rt, "records");
    write_segment(alloc, number, &records).expect(rt, "a spelling")
}

fn check_rewritten(alloc: Global, rt: &impl Abort, bytes: &[u8]) {
    check_bytes(rt, &rewritten(alloc, rt, bytes), bytes);
}

/// The second record has to be this erase.
fn check_second(rt: &impl Abort, records: &[Record], erase: &Pending) {
    let is_second = match records {
        [_, Record::Erase(found), ..] => *found == *erase,
        _ => false,
    };
    assert!(rt; is_second);
}

fn check_erase(alloc: Global, rt: &impl Abort, erase: Pending)
    requires { IsErase erase }
{
    let spelling = written(alloc, rt, &Record::Erase(erase));
    check_bytes(rt, &spelling, &MIXED[36..69]);
}

#[test]
fn an_erase_is_written_and_replayed_between_others(rt: HostRuntime) {
    check_bytes(&rt, &put(rt.alloc(), &rt), &MIXED[12..35]);
    check_erase(rt.alloc(), &rt, erase(&rt));
    check_bytes(&rt, &blind(rt.alloc(), &rt), &MIXED[70..79]);
    check_rewritten(rt.alloc(), &rt, MIXED);
    let records = replay(rt.alloc(), MIXED).expect(&rt, "records");
    check_second(&rt, &records, &erase(&rt));
}

/// The places of the records that are replayed, or why none are.
type Replayed = Result<&'static [u64], SegmentRefused>;

/// Whether the bytes are replayed so.
fn is_replayed(alloc: Global, bytes: &[u8], wanted: Replayed) -> bool {
    match (places(alloc, bytes), wanted) {
        (Ok(found), Ok(wanted)) => found.as_slice() == wanted,
        (Err(why), Err(wanted)) => why == wanted,
        _ => false,
    }
}

/// How so many of the first bytes of `MIXED` are replayed.
fn of_cut(len: usize) -> Replayed {
    match len {
        0..=10 => Err(SegmentRefused::Header { at: len as u64 }),
        11 => Ok(&[]),
        12..=34 => Err(SegmentRefused::Record { at: 12 }),
        35 => Ok(&[1]),
        36..=68 => Err(SegmentRefused::Record { at: 36 }),
        69 => Ok(&[1, 4]),
        70..=78 => Err(SegmentRefused::Record { at: 70 }),
        _ => Ok(&[1, 4, 7]),
    }
}

#[test]
fn a_cut_segment_is_refused_in_a_record_and_has_those_before_a_gate(rt: HostRuntime) {
    for len in 0..=MIXED.len() {
        let bytes = cut(&rt, MIXED, len);
        assert!(rt; is_replayed(rt.alloc(), bytes, of_cut(len)), "{len} bytes");
    }
}

/// The first and the last of places of `MIXED`, and how it is replayed with 0xff in one of them: in the head, a gate, a
/// record's kind, place or other field. In the places that are left out such a byte changes no place of a record.
const FULL_BYTES: &[(usize, usize, Replayed)] = &[
    (0, 0, Err(SegmentRefused::Header { at: 0 })),
    (1, 1, Err(SegmentRefused::Header { at: 1 })),
    (2, 2, Err(SegmentRefused::Header { at: 2 })),
    (11, 11, Ok(&[])),
    // Kind, greatest byte of the place, mark, and the lengths of key and value.
    (12, 13, Err(SegmentRefused::Record { at: 12 })),
    (21, 22, Err(SegmentRefused::Record { at: 12 })),
    (32, 33, Err(SegmentRefused::Record { at: 12 })),
    (14, 20, Err(SegmentRefused::Order { at: 36 })),
    (35, 35, Ok(&[1])),
    // Kind, greatest byte of place and time, and the range's lower end.
    (36, 37, Err(SegmentRefused::Record { at: 36 })),
    (45, 45, Err(SegmentRefused::Record { at: 36 })),
    (53, 60, Err(SegmentRefused::Record { at: 36 })),
    (38, 44, Err(SegmentRefused::Order { at: 70 })),
    (69, 69, Ok(&[1, 4])),
    (70, 71, Err(SegmentRefused::Record { at: 70 })),
    (72, 72, Ok(&[1, 4, 0x00ff_0000_0000_0007])),
    (73, 73, Ok(&[1, 4, 0xff00_0000_0007])),
    (74, 74, Ok(&[1, 4, 0x00ff_0000_0007])),
    (75, 75, Ok(&[1, 4, 0xff00_0007])),
    (76, 76, Ok(&[1, 4, 0x00ff_0007])),
    (77, 77, Ok(&[1, 4, 0xff07])),
    (78, 78, Ok(&[1, 4, 0xff])),
];

/// How `MIXED` is replayed with 0xff in this place.
fn of_full_byte(place: usize) -> Replayed {
    for (first, last, told) in FULL_BYTES {
        if *first <= place && place <= *last {
            return *told;
        }
    }
    Ok(&[1, 4, 7])
}

/// A place of `MIXED`, the byte that is put there, and how the segment is then replayed.
const CHANGES: &[(usize, u8, Replayed)] = &[
    // As an entry, which has no key there, and as a blind delete, behind which no gate is open.
    (36, 1, Err(SegmentRefused::Record { at: 36 })),
    (36, 2, Err(SegmentRefused::Record { at: 36 })),
    (36, 3, Ok(&[1, 4])),
    (12, 4, Err(SegmentRefused::Record { at: 12 })),
    (70, 4, Err(SegmentRefused::Record { at: 70 })),
    // The erase's place.
    (37, 0x40, Err(SegmentRefused::Record { at: 36 })),
    (44, 0, Err(SegmentRefused::Record { at: 36 })),
    (44, 1, Err(SegmentRefused::Order { at: 36 })),
    (44, 2, Ok(&[1, 2, 7])),
    (44, 7, Err(SegmentRefused::Order { at: 70 })),
    // Its time.
    (45, 0x3f, Ok(&[1, 4, 7])),
    (45, 0x40, Err(SegmentRefused::Record { at: 36 })),
    (52, 0, Ok(&[1, 4, 7])),
    // The ends of its range.
    (60, 0, Ok(&[1, 4, 7])),
    (60, 8, Ok(&[1, 4, 7])),
    (60, 9, Err(SegmentRefused::Record { at: 36 })),
    (68, 6, Ok(&[1, 4, 7])),
    (68, 5, Err(SegmentRefused::Record { at: 36 })),
    (68, 0, Err(SegmentRefused::Record { at: 36 })),
    // The place behind it.
    (78, 4, Err(SegmentRefused::Order { at: 70 })),
    (78, 5, Ok(&[1, 4, 5])),
];

fn check_changed(alloc: Global, rt: &impl Abort, place: usize, byte: u8, wanted: Replayed) {
    let bytes = changed(alloc, rt, MIXED, place, byte);
    assert!(rt;
        is_replayed(alloc, &bytes, wanted),
        "byte {place} is {byte}"
    );
}

/// With 0xff in this place all of `MIXED` is written as it was read, but for a gate that isn't open.
fn check_full_byte(alloc: Global, rt: &impl Abort, place: usize) {
    let wanted = of_full_byte(place);
    check_changed(alloc, rt, place, 0xff, wanted);
    if matches!(wanted, Ok([_, _, _])) && place != 79 {
        check_rewritten(alloc, rt, &changed(alloc, rt, MIXED, place, 0xff));
    }
}

#[test]
fn a_changed_segment_is_refused_in_its_record_or_has_what_its_bytes_say(rt: HostRuntime) {
    for place in 0..MIXED.len() {
        check_full_byte(rt.alloc(), &rt, place);
    }
    for (place, byte, wanted) in CHANGES {
        check_changed(rt.alloc(), &rt, *place, *byte, *wanted);
    }
}

#[test]
fn laws_may_be_called(_rt: HostRuntime) {
    one_record();
    one_segment();
    spelling_holds();
    ascending_places();
}
