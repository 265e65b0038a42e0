//! Rounds: a job that was begun before a tick can't go on behind it.

use crate::common::{Store, held_on, new_disk};
use crate::flight::fill;
use lethe_base::Refused;
use lethe_drive::{Event, Reply, Time};
use lethe_engine::Ticked;
use lethe_memdisk::MemDisk;
use std::alloc::Global;
use std::process::Abort;

/// What is asked.
#[derive(Clone, Copy)]
enum Step {
    Begin,
    WriteOut(usize),
    Install(usize),
    Cancel(usize),
    Tick(u64),
}

fn event_of(rt: &impl Abort, step: Step) -> Event {
    match step {
        Step::Begin => Event::Begin,
        Step::WriteOut(job) => Event::WriteOut { job },
        Step::Install(job) => Event::Install { job },
        Step::Cancel(job) => Event::Cancel { job },
        Step::Tick(to) => Event::Tick {
            to: Time::new(to).expect(rt, "a time"),
        },
    }
}

fn events_of(alloc: Global, rt: &impl Abort, steps: &[Step]) -> Vec<Event> {
    let mut events = Vec::new(alloc);
    for step in steps {
        events.push(event_of(rt, *step)).expect(rt, "memory");
    }
    events
}

/// What is told of a reply.
#[derive(Clone, Copy, PartialEq, Eq)]
enum Told {
    Flag(bool),
    Job(usize),
    Ticked(Ticked),
    Refused(Refused),
    Unit,
    NoSuch,
    Other,
}

fn told_of(reply: &Reply) -> Told {
    match reply {
        Reply::Flag(flag) => Told::Flag(*flag),
        Reply::Job(job) => Told::Job(*job),
        Reply::Ticked(ticked) => Told::Ticked(*ticked),
        Reply::Refused(why) => Told::Refused(*why),
        Reply::Unit => Told::Unit,
        Reply::NoSuch => Told::NoSuch,
        _ => Told::Other,
    }
}

fn all_told(alloc: Global, rt: &impl Abort, replies: &[Reply]) -> Vec<Told> {
    let mut told = Vec::new(alloc);
    for reply in replies {
        told.push(told_of(reply)).expect(rt, "memory");
    }
    told
}

/// What is answered to these over two files of level 0, and the disk behind it.
fn told_over_two_files(alloc: Global, rt: &impl Abort, steps: &[Step]) -> (Vec<Told>, MemDisk) {
    let mut store = Store::opened(alloc, rt, new_disk(alloc, rt));
    fill(alloc, rt, &mut store);
    let replies = store.drive(alloc, rt, events_of(alloc, rt, steps));
    (all_told(alloc, rt, &replies), store.into_disk())
}

/// How many files and pages there are.
fn files_and_pages(alloc: Global, rt: &impl Abort, disk: &mut MemDisk) -> (usize, usize) {
    let held = held_on(alloc, rt, disk);
    (held.files, held.pages)
}

const CANCELLED: Told = Told::Refused(Refused::Cancelled { begun: 0, now: 1 });

/// A job, a tick behind its first page, and another job.
const TWO_JOBS: [Step; 11] = [
    Step::Begin,
    Step::WriteOut(0),
    Step::Tick(10),
    Step::WriteOut(0),
    Step::Install(0),
    Step::Begin,
    Step::WriteOut(1),
    Step::Cancel(0),
    Step::Cancel(0),
    Step::Install(1),
    Step::Tick(10),
];

const TOLD_OF_TWO_JOBS: [Told; 11] = [
    Told::Job(0),
    Told::Flag(true),
    Told::Ticked(Ticked {
        place: 10,
        clock: 10,
        certificate: None,
    }),
    CANCELLED,
    Told::NoSuch,
    Told::Job(1),
    Told::Flag(true),
    Told::Unit,
    Told::NoSuch,
    Told::Unit,
    Told::Ticked(Ticked {
        place: 11,
        clock: 10,
        certificate: None,
    }),
];

#[test]
fn a_job_of_an_earlier_round_is_cancelled(rt: HostRuntime) {
    let alloc = rt.alloc();
    let (told, mut disk) = told_over_two_files(alloc, &rt, &TWO_JOBS);
    assert!(rt; told.as_slice() == TOLD_OF_TWO_JOBS.as_slice());
    // One file of four pages, and nothing of the job that was cancelled.
    assert!(rt; files_and_pages(alloc, &rt, &mut disk) == (1, 4));
}

/// A job whose second page would come behind a tick.
const ONE_JOB: [Step; 4] = [
    Step::Begin,
    Step::WriteOut(0),
    Step::Tick(10),
    Step::WriteOut(0),
];

/// Whether the job was cancelled behind the tick, and then given up.
fn are_of_one_job(told: &[Told]) -> bool {
    told.get(3) == Some(&CANCELLED) && told.last() == Some(&Told::Unit)
}

#[test]
fn a_page_of_a_cancelled_job_is_in_no_directory(rt: HostRuntime) {
    let alloc = rt.alloc();
    let (told, mut disk) = told_over_two_files(alloc, &rt, &ONE_JOB);
    assert!(rt; are_of_one_job(&told));
    assert!(rt; files_and_pages(alloc, &rt, &mut disk) == (2, 4));
}

/// A job and a tick, so many times, and then the first job is asked to go on.
fn many_rounds(alloc: Global, rt: &impl Abort, rounds: usize) -> Vec<Step> {
    let mut steps = Vec::new(alloc);
    for _ in 0..rounds {
        steps.push(Step::Begin).expect(rt, "memory");
        steps.push(Step::Tick(0)).expect(rt, "memory");
    }
    steps.push(Step::Install(0)).expect(rt, "memory");
    steps
}

/// Whether the first job of 300 rounds came too late, and each was given up.
fn are_given_up(told: &[Told]) -> bool {
    let late = Told::Refused(Refused::Cancelled { begun: 0, now: 300 });
    told.len() == 901
        && told.get(598) == Some(&Told::Job(299))
        && told.get(600) == Some(&late)
        && told
            .iter()
            .skip(601)
            .all(|given_up| *given_up == Told::Unit)
}

#[test]
fn each_job_of_many_rounds_is_there_to_be_given_up(rt: HostRuntime) {
    let steps = many_rounds(rt.alloc(), &rt, 300);
    let (told, _) = told_over_two_files(rt.alloc(), &rt, &steps);
    assert!(rt; are_given_up(&told));
}
