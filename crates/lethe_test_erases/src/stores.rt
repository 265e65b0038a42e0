//! Stores whose files and jobs are told by steps.

use crate::common::{Ask, Store};
use lethe_base::Refused;
use lethe_drive::Reply;
use std::alloc::Global;
use std::test::Fail;

/// A put of a key with a delete key, or a delete where there is none.
pub type Change = (&'static str, Option<u64>);

/// What is done to a store.
#[derive(Clone, Copy)]
pub enum Step {
    /// Makes the changes.
    Changes(&'static [Change]),
    /// The same, and a file of level 0 is flushed of the buffer then.
    File(&'static [Change]),
    /// A job from its begin to its end. Jobs are numbered from 0.
    Job(usize),
    Begin,
    Install(usize),
    /// An erase of the delete keys from the first up to the second.
    Erase(u64, u64),
    Tick(u64),
}

/// How a job is carried out.
#[derive(Clone, Copy)]
pub enum Way {
    Once,
    /// It is given up behind its first page, and begun again.
    GivenUp,
}

fn add_changes(asks: &mut Vec<Ask>, changes: &[Change]) -> Result<(), Fail> {
    for (key, dkey) in changes {
        asks.push(match dkey {
            Some(dkey) => Ask::Put(*key, *dkey),
            None => Ask::Delete(*key),
        })?;
    }
    Ok(())
}

fn add_step(asks: &mut Vec<Ask>, step: Step) -> Result<(), Fail> {
    match step {
        Step::Changes(changes) => add_changes(asks, changes)?,
        Step::File(changes) => {
            add_changes(asks, changes)?;
            asks.push(Ask::Freeze)?;
            asks.push(Ask::Flush)?;
        }
        Step::Job(job) => {
            asks.push(Ask::Begin)?;
            asks.push(Ask::Install(job))?;
        }
        Step::Begin => asks.push(Ask::Begin)?,
        Step::Install(job) => asks.push(Ask::Install(job))?,
        Step::Erase(lo, hi) => asks.push(Ask::Erase(lo, hi))?,
        Step::Tick(to) => asks.push(Ask::Tick(to))?,
    }
    Ok(())
}

fn asks_of(alloc: Global, steps: &[Step]) -> Result<Vec<Ask>, Fail> {
    let mut asks = Vec::new(alloc);
    for step in steps {
        add_step(&mut asks, *step)?;
    }
    Ok(asks)
}

fn is_refusal(reply: &Reply) -> bool {
    matches!(reply, Reply::Refused(_) | Reply::NoSuch)
}

/// Takes the steps, none of which is refused.
pub fn take_steps(alloc: Global, store: &mut Store, steps: &[Step]) -> Result<(), Fail> {
    for reply in &store.take(alloc, &asks_of(alloc, steps)?)? {
        if is_refusal(reply) {
            return Err(Fail::new("a step is refused"));
        }
    }
    Ok(())
}

const ONCE: [Ask; 2] = [Ask::Begin, Ask::Install(0)];

const GIVEN_UP: [Ask; 5] = [
    Ask::Begin,
    Ask::WriteOut(0),
    Ask::Cancel(0),
    Ask::Begin,
    Ask::Install(1),
];

fn job_in(way: Way) -> &'static [Ask] {
    match way {
        Way::Once => &ONCE,
        Way::GivenUp => &GIVEN_UP,
    }
}

/// Carries the next job out in this way, and answers whether one was due.
pub fn carry_out(alloc: Global, store: &mut Store, way: Way) -> Result<bool, Fail> {
    let replies = store.take(alloc, job_in(way))?;
    match (replies.first(), replies.last()) {
        (Some(Reply::Job(_)), Some(Reply::Unit)) => Ok(true),
        (Some(Reply::Refused(Refused::NothingDue)), _) => Ok(false),
        _ => Err(Fail::new("a job is refused")),
    }
}

/// Carries so many jobs out in this way, each of which is due.
pub fn carry_out_all(alloc: Global, store: &mut Store, way: Way, jobs: usize) -> Result<(), Fail> {
    for _ in 0..jobs {
        if !carry_out(alloc, store, way)? {
            return Err(Fail::new("nothing is due"));
        }
    }
    Ok(())
}
