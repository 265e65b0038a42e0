//! Rows of events over a store with a small configuration.
ghost use Rattle.std.specs.Prelude.{IfOk};
ghost use Rattle.lethe_core.specs.Running.{IsSound};
ghost use Rattle.lethe_core.specs.View.{view_of};

use crate::common::{empty_disk, opened};
use lethe_base::{Kind, Range, Refused};
use lethe_disk::Disk;
use lethe_drive::{Engine, Event, Reply, Time, drive};
use lethe_memdisk::{FlakyDisk, MemDisk};
use lethe_test_values::{key_of, value_of};
use std::alloc::Global;
use std::test::Fail;

/// An event. A put has the delete key 7, and the text of its key as its value.
#[derive(Clone, Copy, Debug)]
enum Ask {
    Put(&'static str),
    Delete(&'static str),
    Erase(u64, u64),
    Tick(u64),
    Get(&'static str),
    Scan(&'static str, &'static str),
    Freeze,
    Flush,
    Begin,
    WriteOut(usize),
    Install(usize),
    Cancel(usize),
    Pin,
    Release(u64),
}

/// What is told of a reply: of a value its delete key alone, and of pairs how many there are.
#[derive(Clone, Copy, Debug, PartialEq, Eq)]
enum Told {
    Place(u64),
    /// The place, and the clock.
    Ticked(u64, u64),
    Found(Option<u64>),
    Pairs(usize),
    Flag(bool),
    Job(usize),
    Pinned(u64),
    Unit,
    Refused(Refused),
    NoSuch,
}

/// Up to a store of two files of level 0, each of two pages.
const FILES: [Ask; 12] = [
    Ask::Put("a"),
    Ask::Put("b"),
    Ask::Put("c"),
    Ask::Put("d"),
    Ask::Freeze,
    Ask::Flush,
    Ask::Put("e"),
    Ask::Put("f"),
    Ask::Put("g"),
    Ask::Put("h"),
    Ask::Freeze,
    Ask::Flush,
];

const FILES_TOLD: [Told; 12] = [
    Told::Place(1),
    Told::Place(2),
    Told::Place(3),
    Told::Place(4),
    Told::Flag(true),
    Told::Flag(true),
    Told::Place(5),
    Told::Place(6),
    Told::Place(7),
    Told::Place(8),
    Told::Flag(true),
    Told::Flag(true),
];

fn put_of(alloc: Global, text: &str) -> Result<Event, Fail> {
    Ok(Event::Put {
        key: key_of(alloc, text)?,
        dkey: 7,
        value: value_of(alloc, text.as_bytes())?,
    })
}

fn scan_of(alloc: Global, lo: &str, hi: &str) -> Result<Event, Fail> {
    Ok(Event::Scan {
        lo: key_of(alloc, lo)?,
        hi: key_of(alloc, hi)?,
    })
}

fn event_of(alloc: Global, ask: Ask) -> Result<Event, Fail> {
    Ok(match ask {
        Ask::Put(text) => put_of(alloc, text)?,
        Ask::Delete(text) => Event::Delete {
            key: key_of(alloc, text)?,
        },
        Ask::Erase(lo, hi) => Event::Erase {
            range: Range::new(lo, hi).ok_or("a range")?,
        },
        Ask::Tick(to) => Event::Tick {
            to: Time::new(to).ok_or("a time")?,
        },
        Ask::Get(text) => Event::Get {
            key: key_of(alloc, text)?,
        },
        Ask::Scan(lo, hi) => scan_of(alloc, lo, hi)?,
        Ask::Freeze => Event::Freeze,
        Ask::Flush => Event::Flush,
        Ask::Begin => Event::Begin,
        Ask::WriteOut(job) => Event::WriteOut { job },
        Ask::Install(job) => Event::Install { job },
        Ask::Cancel(job) => Event::Cancel { job },
        Ask::Pin => Event::Pin,
        Ask::Release(pin) => Event::Release { pin },
    })
}

fn told_of(reply: &Reply) -> Told {
    match reply {
        Reply::Place(place) => Told::Place(*place),
        Reply::Ticked(ticked) => Told::Ticked(ticked.place, ticked.clock),
        Reply::Got(None) => Told::Found(None),
        Reply::Got(Some((dkey, _))) => Told::Found(Some(*dkey)),
        Reply::Pairs(pairs) => Told::Pairs(pairs.items().len()),
        Reply::Flag(flag) => Told::Flag(*flag),
        Reply::Job(job) => Told::Job(*job),
        Reply::Pinned(pin) => Told::Pinned(*pin),
        Reply::Unit => Told::Unit,
        Reply::Refused(why) => Told::Refused(*why),
        Reply::NoSuch => Told::NoSuch,
    }
}

fn events_of(alloc: Global, asks: &[Ask]) -> Result<Vec<Event>, Fail> {
    let mut events = Vec::new(alloc);
    for ask in asks {
        events.push(event_of(alloc, *ask)?)?;
    }
    Ok(events)
}

/// Drives the store through the events.
fn replies_to<D: Disk>(
    alloc: Global,
    engine: &mut Engine<D>,
    asks: &[Ask],
) -> Result<Vec<Reply>, Fail>
    requires { IsSound D.tells (view_of engine.old.core) }
    ensures { IsSound D.tells (view_of engine.new.core) }
{
    let events = events_of(alloc, asks)?;
    let mut port = engine.new_port(alloc)?;
    Ok(drive(engine, alloc, &mut port, events)?)
}

fn are_told(replies: &[Reply], told: &[Told]) -> bool {
    replies.len() == told.len()
        && replies
            .iter()
            .zip(told)
            .all(|(reply, told)| told_of(reply) == *told)
}

/// Drives the store through the events, and tells whether the replies are these.
fn answers_so<D: Disk>(
    alloc: Global,
    engine: &mut Engine<D>,
    asks: &[Ask],
    told: &[Told],
) -> Result<bool, Fail>
    requires { IsSound D.tells (view_of engine.old.core) }
    ensures { IsSound D.tells (view_of engine.new.core) }
{
    let replies = replies_to(alloc, engine, asks)?;
    Ok(are_told(&replies, told))
}

/// The events of a run, its replies, and how many files there are behind it.
type Run = (&'static [Ask], &'static [Told], u64);

fn answer_all<D: Disk>(alloc: Global, engine: &mut Engine<D>, runs: &[Run]) -> Result<(), Fail>
    requires { IsSound D.tells (view_of engine.old.core) }
    ensures { IsSound D.tells (view_of engine.new.core) }
{
    for run in runs {
        let (asks, told, files) = *run;
        if !answers_so(alloc, engine, asks, told)? || engine.stat().files != files {
            return Err(Fail::new("another reply"));
        }
    }
    Ok(())
}

/// A store of two files of level 0.
fn two_files<D: Disk>(alloc: Global, disk: D) -> Result<Engine<D>, Fail>
    ensures { IfOk result (λ engine. IsSound D.tells (view_of engine.core)) }
{
    let mut engine = opened(alloc, disk)?;
    answer_all(alloc, &mut engine, &[(&FILES, &FILES_TOLD, 2)])?;
    Ok(engine)
}

/// Carries the runs out over a store of two files.
fn run_over_two_files<D: Disk>(alloc: Global, disk: D, runs: &[Run]) -> Result<(), Fail> {
    let mut engine = two_files(alloc, disk)?;
    answer_all(alloc, &mut engine, runs)
}

/// Carries the runs out over a store of two files on a disk that doesn't fail.
fn run_in_memory(alloc: Global, runs: &[Run]) -> Result<(), Fail> {
    run_over_two_files(alloc, empty_disk(alloc)?, runs)
}

const MERGE: [Ask; 15] = [
    Ask::Begin,
    Ask::Begin,
    Ask::WriteOut(0),
    Ask::WriteOut(0),
    Ask::WriteOut(0),
    Ask::WriteOut(0),
    Ask::WriteOut(0),
    Ask::Install(0),
    Ask::Begin,
    Ask::Delete("a"),
    Ask::Get("a"),
    Ask::Get("h"),
    Ask::Scan("a", "z"),
    Ask::Freeze,
    Ask::Freeze,
];

const MERGE_TOLD: [Told; 15] = [
    Told::Job(0),
    Told::Refused(Refused::NothingDue),
    Told::Flag(true),
    Told::Flag(true),
    Told::Flag(true),
    Told::Flag(true),
    Told::Flag(false),
    Told::Unit,
    Told::Refused(Refused::NothingDue),
    Told::Place(9),
    Told::Found(None),
    Told::Found(Some(7)),
    Told::Pairs(7),
    Told::Flag(true),
    Told::Flag(false),
];

#[test]
fn a_job_merges_two_files(rt: HostRuntime) -> Result<(), Fail> {
    run_in_memory(rt.alloc(), &[(&MERGE, &MERGE_TOLD, 1)])
}

const TICKS: [Ask; 6] = [
    Ask::Tick(20),
    Ask::Tick(19),
    Ask::Delete("a"),
    Ask::Tick(120),
    Ask::Get("a"),
    Ask::Get("b"),
];

const TICKS_TOLD: [Told; 6] = [
    Told::Ticked(9, 20),
    Told::Refused(Refused::Backwards { clock: 20 }),
    Told::Place(10),
    Told::Ticked(11, 120),
    Told::Found(None),
    Told::Found(Some(7)),
];

#[test]
fn a_tick_takes_a_place(rt: HostRuntime) -> Result<(), Fail> {
    run_in_memory(rt.alloc(), &[(&TICKS, &TICKS_TOLD, 1)])
}

/// A job that was begun before an erase doesn't apply it. The tick a threshold later sweeps the file that it made, of which nothing is left.
const ERASED: [Ask; 11] = [
    Ask::Begin,
    Ask::Erase(7, 8),
    Ask::Get("a"),
    Ask::WriteOut(0),
    Ask::Install(0),
    Ask::Get("a"),
    Ask::Scan("a", "z"),
    Ask::Freeze,
    Ask::Flush,
    Ask::Tick(99),
    Ask::Tick(100),
];

const ERASED_TOLD: [Told; 11] = [
    Told::Job(0),
    Told::Place(9),
    Told::Found(None),
    Told::Flag(true),
    Told::Unit,
    Told::Found(None),
    Told::Pairs(0),
    Told::Flag(true),
    Told::Flag(true),
    Told::Ticked(10, 99),
    Told::Ticked(11, 100),
];

#[test]
fn a_job_keeps_the_erases_of_its_begin(rt: HostRuntime) -> Result<(), Fail> {
    run_in_memory(rt.alloc(), &[(&ERASED, &ERASED_TOLD, 0)])
}

const ENDS: [Ask; 11] = [
    Ask::WriteOut(0),
    Ask::Install(0),
    Ask::Cancel(0),
    Ask::Begin,
    Ask::WriteOut(1),
    Ask::WriteOut(0),
    Ask::Cancel(0),
    Ask::Cancel(0),
    Ask::Begin,
    Ask::Install(0),
    Ask::WriteOut(1),
];

/// The last reply is that of the job that hadn't ended.
const ENDS_TOLD: [Told; 12] = [
    Told::NoSuch,
    Told::NoSuch,
    Told::NoSuch,
    Told::Job(0),
    Told::NoSuch,
    Told::Flag(true),
    Told::Unit,
    Told::NoSuch,
    Told::Job(1),
    Told::NoSuch,
    Told::Flag(true),
    Told::Unit,
];

const WHOLE: [Ask; 2] = [Ask::Begin, Ask::Install(0)];

const WHOLE_TOLD: [Told; 2] = [Told::Job(0), Told::Unit];

#[test]
fn a_job_is_there_until_it_ends(rt: HostRuntime) -> Result<(), Fail> {
    run_in_memory(
        rt.alloc(),
        &[(&ENDS, &ENDS_TOLD, 2), (&WHOLE, &WHOLE_TOLD, 1)],
    )
}

const REFUSED: [Ask; 7] = [
    Ask::Begin,
    Ask::WriteOut(0),
    Ask::WriteOut(0),
    Ask::Install(0),
    Ask::Begin,
    Ask::Cancel(0),
    Ask::Begin,
];

const REFUSED_TOLD: [Told; 8] = [
    Told::Job(0),
    Told::Refused(Refused::ReadFault {
        before: 0,
        after: 1,
    }),
    Told::NoSuch,
    Told::NoSuch,
    Told::Refused(Refused::NothingDue),
    Told::Unit,
    Told::Job(1),
    Told::Unit,
];

#[test]
fn a_job_that_was_refused_can_only_be_given_up(rt: HostRuntime) -> Result<(), Fail> {
    let alloc = rt.alloc();
    // The first fetch of each port fails.
    let flaky = FlakyDisk::new(empty_disk(alloc)?, vec![in alloc; 1]?);
    run_over_two_files(alloc, flaky, &[(&REFUSED, &REFUSED_TOLD, 2)])
}

/// While a pin is held no tick reaches its limit, and of two pins of one limit the first is told.
const PINS: [Ask; 13] = [
    Ask::Release(1),
    Ask::Pin,
    Ask::Pin,
    Ask::Delete("a"),
    Ask::Tick(99),
    Ask::Tick(100),
    Ask::Release(1),
    Ask::Release(1),
    Ask::Tick(100),
    Ask::Release(2),
    Ask::Tick(100),
    Ask::Get("a"),
    Ask::Pin,
];

const PINS_TOLD: [Told; 13] = [
    Told::NoSuch,
    Told::Pinned(1),
    Told::Pinned(2),
    Told::Place(9),
    Told::Ticked(10, 99),
    Told::Refused(Refused::Pinned { pin: 1, limit: 100 }),
    Told::Unit,
    Told::NoSuch,
    Told::Refused(Refused::Pinned { pin: 2, limit: 100 }),
    Told::Unit,
    Told::Ticked(11, 100),
    Told::Found(None),
    Told::Pinned(3),
];

/// The pin that was left at the end of the run before is held no more, and is no pin of this run.
const LATER: [Ask; 3] = [Ask::Release(3), Ask::Tick(300), Ask::Pin];

const LATER_TOLD: [Told; 3] = [Told::NoSuch, Told::Ticked(12, 300), Told::Pinned(4)];

#[test]
fn a_pin_is_held_until_it_is_let_go_or_the_run_ends(rt: HostRuntime) -> Result<(), Fail> {
    run_in_memory(
        rt.alloc(),
        &[(&PINS, &PINS_TOLD, 1), (&LATER, &LATER_TOLD, 1)],
    )
}

/// The pages of two files that a job merges stay while a pin is held that names them.
const KEPT: [Ask; 6] = [
    Ask::Pin,
    Ask::Begin,
    Ask::Install(0),
    Ask::Get("a"),
    Ask::Tick(99),
    Ask::Tick(100),
];

const KEPT_TOLD: [Told; 6] = [
    Told::Pinned(1),
    Told::Job(0),
    Told::Unit,
    Told::Found(Some(7)),
    Told::Ticked(9, 99),
    Told::Refused(Refused::Pinned { pin: 1, limit: 100 }),
];

const FREED: [Ask; 1] = [Ask::Tick(100)];

const FREED_TOLD: [Told; 1] = [Told::Ticked(10, 100)];

fn count_pages(alloc: Global, mut disk: MemDisk) -> Result<usize, Fail> {
    let names = disk.names(alloc)?;
    Ok(names.iter().filter(|name| name.kind == Kind::Page).count())
}

/// How many pages there are behind these runs over two files.
fn pages_behind(alloc: Global, runs: &[Run]) -> Result<usize, Fail> {
    let mut engine = two_files(alloc, empty_disk(alloc)?)?;
    answer_all(alloc, &mut engine, runs)?;
    count_pages(alloc, engine.into_disk())
}

/// Runs, and how many pages there are behind them.
const PAGES: [(&[Run], usize); 3] = [
    (&[], 4),
    (&[(&KEPT, &KEPT_TOLD, 1)], 8),
    (&[(&KEPT, &KEPT_TOLD, 1), (&FREED, &FREED_TOLD, 1)], 4),
];

#[test]
fn a_pin_of_a_run_keeps_pages_until_a_tick_behind_it(rt: HostRuntime) -> Result<(), Fail> {
    for (runs, pages) in PAGES {
        assert!(rt; pages_behind(rt.alloc(), runs)? == pages, "{pages} pages");
    }
    Ok(())
}
