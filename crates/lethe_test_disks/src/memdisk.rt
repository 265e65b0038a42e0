//! A disk in memory: what its calls answer, where they fail, and what a crash leaves.
ghost use Rattle.std.specs.Prelude.{◌≡◌, ◌≤◌, ◌+◌, IfOk};
ghost use Rattle.lethe_memdisk.specs.Held.{calls_of};

use crate::common::{crashed, fails, gives, has};
use lethe_base::{Kind, Name};
use lethe_disk::{Disk, DiskRefused};
use lethe_memdisk::{FlakyDisk, FlakyPort, MemDisk, MemPage, MemPort};
use std::alloc::Global;
use std::process::Abort;

const FAILED: &[u8] = b"failed";

/// A step. Before an object is created, written, removed or read, it is looked up, which takes a device call. A write reads what
/// it is to change, which takes one more.
#[derive(Clone, Copy)]
enum Step {
    Create(u64, &'static [u8]),
    Write(u64, u64, &'static [u8]),
    Remove(u64),
    Sync,
    Names,
    Read(u64),
}

/// What a step answers, the bytes that are read or the numbers of the names, and how many device calls it took at least.
#[derive(Drop)]
struct Answer {
    calls: u64,
    bytes: Vec<u8>,
}

fn file(no: u64) -> Name {
    Name {
        kind: Kind::File,
        no,
    }
}

// Each of these answers how many calls it took. A call that may not be asked for is left out.

fn create(alloc: Global, disk: &mut MemDisk, name: Name, bytes: &[u8]) -> Result<u64, DiskRefused>
    ensures { IfOk result (λ calls. calls_of disk.old + calls ≤ calls_of disk.new) }
{
    if has(alloc, disk, name)? {
        return Ok(1);
    }
    disk.create(name, bytes)?;
    Ok(2)
}

fn write(
    alloc: Global,
    disk: &mut MemDisk,
    name: Name,
    at: u64,
    bytes: &[u8],
) -> Result<u64, DiskRefused>
    ensures { IfOk result (λ calls. calls_of disk.old + calls ≤ calls_of disk.new) }
{
    if !has(alloc, disk, name)? {
        return Ok(1);
    }
    let old = disk.read(alloc, name)?;
    if at > old.len() as u64 {
        return Ok(2);
    }
    disk.write_at(name, at, bytes)?;
    Ok(3)
}

fn remove(alloc: Global, disk: &mut MemDisk, name: Name) -> Result<u64, DiskRefused>
    ensures { IfOk result (λ calls. calls_of disk.old + calls ≤ calls_of disk.new) }
{
    if !has(alloc, disk, name)? {
        return Ok(1);
    }
    disk.remove(name)?;
    Ok(2)
}

fn read(alloc: Global, disk: &mut MemDisk, name: Name) -> Result<Answer, DiskRefused>
    ensures { IfOk result (λ answer. calls_of disk.old + answer.calls ≤ calls_of disk.new) }
{
    if !has(alloc, disk, name)? {
        return Ok(Answer {
            calls: 1,
            bytes: Vec::new(alloc),
        });
    }
    let bytes = disk.read(alloc, name)?;
    Ok(Answer { calls: 2, bytes })
}

fn sync(disk: &mut MemDisk) -> Result<u64, DiskRefused>
    ensures { IfOk result (λ calls. calls_of disk.old + calls ≤ calls_of disk.new) }
{
    disk.sync()?;
    Ok(1)
}

fn numbers(alloc: Global, disk: &mut MemDisk) -> Result<Answer, DiskRefused>
    ensures { IfOk result (λ answer. calls_of disk.old + answer.calls ≤ calls_of disk.new) }
{
    let names = disk.names(alloc)?;
    let mut bytes = Vec::new(alloc);
    for name in names {
        bytes.push((name.no % 256) as u8)?;
    }
    Ok(Answer { calls: 1, bytes })
}

fn carry_out(alloc: Global, disk: &mut MemDisk, step: Step) -> Result<Answer, DiskRefused>
    ensures { IfOk result (λ answer. calls_of disk.old + answer.calls ≤ calls_of disk.new) }
{
    let calls = match step {
        Step::Create(no, bytes) => create(alloc, disk, file(no), bytes)?,
        Step::Write(no, at, bytes) => write(alloc, disk, file(no), at, bytes)?,
        Step::Remove(no) => remove(alloc, disk, file(no))?,
        Step::Sync => sync(disk)?,
        Step::Names => return numbers(alloc, disk),
        Step::Read(no) => return read(alloc, disk, file(no)),
    };
    Ok(Answer {
        calls,
        bytes: Vec::new(alloc),
    })
}

// Whether the step answers that, or failed where it is to.
fn answers(alloc: Global, disk: &mut MemDisk, step: Step, want: &[u8]) -> bool {
    match carry_out(alloc, disk, step) {
        Ok(answer) => answer.bytes.as_slice() == want,
        Err(DiskRefused::Failed) => want == FAILED,
        Err(DiskRefused::NoMemory) => false,
    }
}

// Takes the steps, of which none is to fail or to read, and tells how many device calls there were.
fn take_all(alloc: Global, rt: &impl Abort, disk: &mut MemDisk, steps: &[Step]) -> u64
    ensures { calls_of disk.old + result ≤ calls_of disk.new }
{
    let mut calls = 0_u64;
    for step in steps {
        let answer = carry_out(alloc, disk, *step).expect(rt, "a step");
        assert!(rt; answer.bytes.is_empty());
        calls = calls.saturating_add(answer.calls);
    }
    calls
}

/// Steps, and what each answers. The third one's write is the call 7, and the last one's read has no room.
const ANSWERS: [(Step, &[u8]); 12] = [
    (Step::Create(7, b"abc"), b""),
    (Step::Create(2, b""), b""),
    (Step::Write(7, 1, b"XYZ"), FAILED),
    (Step::Write(7, 1, b"XYZ"), b""),
    (Step::Write(7, 0, b"A"), b""),
    (Step::Read(7), b"AXYZ"),
    (Step::Names, &[2, 7]),
    (Step::Sync, b""),
    (Step::Remove(2), b""),
    (Step::Names, &[7]),
    (Step::Write(7, 4, b"!"), b""),
    (Step::Read(7), FAILED),
];

/// A disk whose fuse burns behind two calls.
const FUSED: [(Step, &[u8]); 4] = [
    (Step::Names, b""),
    (Step::Names, b""),
    (Step::Names, FAILED),
    (Step::Names, FAILED),
];

fn check_answers(alloc: Global, rt: &impl Abort, disk: &mut MemDisk, rows: &[(Step, &[u8])]) {
    for (step, want) in rows {
        assert!(rt; answers(alloc, disk, *step, want));
    }
}

// Whether other bytes are put into the object 7 alone, behind the last call that there is room for.
fn swaps(alloc: Global, rt: &impl Abort, disk: &mut MemDisk) -> bool {
    let absent = disk.swap(file(2), Vec::new(alloc));
    let bytes = b"new".to_vec(alloc).expect(rt, "memory");
    let there = disk.swap(file(7), bytes);
    there && !absent && answers(alloc, disk, Step::Read(7), FAILED)
}

// An empty disk with room for so many calls, of which this one fails.
fn failing(alloc: Global, rt: &impl Abort, room: u64, call: u64) -> MemDisk {
    let failing = vec![in alloc; call].expect(rt, "memory");
    MemDisk::new(alloc, room, failing).expect(rt, "memory")
}

fn check_failing(alloc: Global, rt: &impl Abort) {
    let mut disk = failing(alloc, rt, 24, 7);
    check_answers(alloc, rt, &mut disk, &ANSWERS);
    assert!(rt; disk.faults() == 2 && swaps(alloc, rt, &mut disk));
}

fn check_fused(alloc: Global, rt: &impl Abort) {
    let mut disk = MemDisk::new(alloc, 9, Vec::new(alloc)).expect(rt, "memory");
    disk.fuse(2);
    check_answers(alloc, rt, &mut disk, &FUSED);
}

#[test]
fn each_call_answers_and_fails_where_it_is_told(rt: HostRuntime) {
    check_failing(rt.alloc(), &rt);
    check_fused(rt.alloc(), &rt);
}

/// Steps of 16 device calls: up to the call of that number is done.
const STEPS: [Step; 8] = [
    Step::Create(1, b"abc"),
    Step::Create(2, b"de"),
    Step::Sync,
    Step::Write(1, 2, b"XYZ"),
    Step::Write(1, 0, b"A"),
    Step::Remove(2),
    Step::Create(3, b"new"),
    Step::Sync,
];

/// The moment of a crash behind one of these steps, whether it keeps what was created and removed, and the names and the bytes of
/// the object 1 that it leaves.
type Image = (u64, bool, &'static [u8], &'static [u8]);

const IMAGES: [Image; 8] = [
    (0, true, &[], b""),
    (2, false, &[], b""),
    (4, true, &[1, 2], b"..."),
    (5, true, &[1, 2], b"abc"),
    (11, true, &[1, 2], b".b..."),
    (15, true, &[1, 3], b".b..."),
    (15, false, &[1, 2], b".b..."),
    (16, false, &[1, 3], b"AbXYZ"),
];

// The disk behind these steps.
fn stepped(alloc: Global, rt: &impl Abort) -> MemDisk
    ensures { 16 ≤ calls_of result }
{
    let mut disk = MemDisk::new(alloc, 20, Vec::new(alloc)).expect(rt, "memory");
    let calls = take_all(alloc, rt, &mut disk, &STEPS);
    assert!(rt; calls == 16);
    disk
}

// Whether a crash leaves these names, and these bytes of the object 1.
fn leaves(alloc: Global, rt: &impl Abort, disk: &MemDisk, image: Image) -> bool
    requires { image.0 ≤ calls_of disk.now }
{
    let (moment, keep, names, bytes) = image;
    let mut left = crashed(rt, disk, moment, b'.', keep);
    answers(alloc, &mut left, Step::Names, names) && answers(alloc, &mut left, Step::Read(1), bytes)
}

fn check_images(alloc: Global, rt: &impl Abort, disk: &MemDisk)
    requires { 16 ≤ calls_of disk.now }
{
    for (moment, keep, names, bytes) in IMAGES {
        let image = (moment.min(16), keep, names, bytes);
        assert!(rt; leaves(alloc, rt, disk, image));
    }
}

#[test]
fn a_crash_leaves_what_was_synced(rt: HostRuntime) {
    check_images(rt.alloc(), &rt, &stepped(rt.alloc(), &rt));
}

fn page(no: u64) -> Name
    ensures { result.kind ≡ Kind.Page }
{
    Name {
        kind: Kind::Page,
        no,
    }
}

// None where there is no such page. It takes a device call to find that, and one more to open it.
fn open(alloc: Global, disk: &mut MemDisk, no: u64) -> Result<Option<MemPage>, DiskRefused> {
    let name = page(no);
    if !has(alloc, disk, name)? {
        return Ok(None);
    }
    Ok(Some(disk.open_page(alloc, name)?))
}

// Whether two fetches give these bytes.
fn gives_twice<D: Disk>(alloc: Global, port: &mut D::Port, page: &D::Page, bytes: &[u8]) -> bool
    ensures { D.fetches port.new ≡ D.fetches port.old + 2 }
{
    let first = gives(D::fetch(alloc, port, page), bytes);
    let second = gives(D::fetch(alloc, port, page), bytes);
    first && second
}

// Adds the page 1 to an empty disk. This takes two calls.
fn add_page(alloc: Global, rt: &impl Abort, disk: &mut MemDisk) {
    let calls = create(alloc, disk, page(1), b"abc").expect(rt, "a new page");
    assert!(rt; calls == 2);
}

fn open_first(alloc: Global, rt: &impl Abort, disk: &mut MemDisk) -> MemPage {
    let opened = open(alloc, disk, 1).expect(rt, "a call");
    opened.expect(rt, "a page")
}

// Whether there is no page 2, and the page 1 isn't opened for the first time.
fn refuses_first(alloc: Global, disk: &mut MemDisk) -> bool {
    matches!(open(alloc, disk, 2), Ok(None)) && fails(open(alloc, disk, 1))
}

// The page 1 as it is, and with other bytes.
fn two_pages(alloc: Global, rt: &impl Abort, disk: &mut MemDisk) -> (MemPage, MemPage) {
    let old = open_first(alloc, rt, disk);
    let bytes = b"new".to_vec(alloc).expect(rt, "memory");
    assert!(rt; disk.swap(page(1), bytes));
    (old, open_first(alloc, rt, disk))
}

fn is_removed(alloc: Global, disk: &mut MemDisk) -> bool {
    matches!(remove(alloc, disk, page(1)), Ok(2)) && matches!(open(alloc, disk, 1), Ok(None))
}

// Whether each page has its own bytes, the old one also behind the new.
fn keep_apart(alloc: Global, port: &mut MemPort, old: &MemPage, new: &MemPage) -> bool {
    gives_twice::<MemDisk>(alloc, port, old, b"abc")
        && gives_twice::<MemDisk>(alloc, port, new, b"new")
        && gives_twice::<MemDisk>(alloc, port, old, b"abc")
        && MemDisk::port_faults(port) == 0
}

// Whether the pages keep their bytes where their object is removed.
fn pages_keep(alloc: Global, rt: &impl Abort, disk: &mut MemDisk) -> bool {
    let (old, new) = two_pages(alloc, rt, disk);
    assert!(rt; is_removed(alloc, disk));
    let mut port = disk.port(alloc).expect(rt, "a port");
    keep_apart(alloc, &mut port, &old, &new)
}

#[test]
fn a_page_keeps_the_bytes_that_it_had(rt: HostRuntime) {
    let alloc = rt.alloc();
    // The call that opens the page for the first time, the fifth, fails.
    let mut disk = failing(alloc, &rt, 12, 5);
    add_page(alloc, &rt, &mut disk);
    assert!(rt; refuses_first(alloc, &mut disk));
    assert!(rt; pages_keep(alloc, &rt, &mut disk) && disk.faults() == 1);
}

/// What the fetches of a port give, and how often it has failed by then.
const FETCHES: [(&[u8], u64); 4] = [(b"abc", 0), (FAILED, 1), (FAILED, 2), (b"abc", 2)];

// Whether a fetch gives these bytes, or failed where it is to.
fn fetches(alloc: Global, port: &mut FlakyPort, page: &MemPage, want: &[u8]) -> bool {
    match FlakyDisk::fetch(alloc, port, page) {
        Ok(bytes) => bytes.as_slice() == want,
        Err(_) => want == FAILED,
    }
}

fn check_port(alloc: Global, rt: &impl Abort, port: &mut FlakyPort, page: &MemPage) {
    for (want, faults) in FETCHES {
        assert!(rt; fetches(alloc, port, page, want) && FlakyDisk::port_faults(port) == faults);
    }
}

fn check_two_ports(alloc: Global, rt: &impl Abort, disk: &mut FlakyDisk, page: &MemPage) {
    for _ in 0..2 {
        let mut port = disk.port(alloc).expect(rt, "a port");
        check_port(alloc, rt, &mut port, page);
    }
    assert!(rt; disk.faults() == 0);
}

// A disk whose ports fail at the second fetch and the third, and its page.
fn flaky(alloc: Global, rt: &impl Abort) -> (FlakyDisk, MemPage) {
    let mut disk = MemDisk::new(alloc, 5, Vec::new(alloc)).expect(rt, "memory");
    add_page(alloc, rt, &mut disk);
    let page = open_first(alloc, rt, &mut disk);
    let failing = vec![in alloc; 2, 3].expect(rt, "memory");
    (FlakyDisk::new(disk, failing), page)
}

#[test]
fn each_port_fails_at_the_fetches_that_it_is_told(rt: HostRuntime) {
    let (mut disk, page) = flaky(rt.alloc(), &rt);
    check_two_ports(rt.alloc(), &rt, &mut disk, &page);
    let mut disk = disk.into_inner();
    assert!(rt; answers(rt.alloc(), &mut disk, Step::Names, &[1]));
}
