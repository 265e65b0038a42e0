//! The lines of a script, each with what was printed for it.

use std::alloc::{AllocError, Global};

/// A line of a script that asks for something.
#[derive(Clone, Copy)]
struct Order<'a> {
    phase: usize,
    caller: &'a str,
    text: &'a str,
}

/// A line of a script, and what was printed for it, field by field and without its caller.
#[derive(Drop)]
pub(crate) struct Answer<'a> {
    /// In which phase it stands, from 0 on.
    pub phase: usize,
    pub caller: &'a str,
    pub asked: Vec<&'a str>,
    pub told: Vec<&'a str>,
    /// Whether the line was printed to its caller.
    pub is_to_caller: bool,
}

impl<'a> Answer<'a> {
    /// The place of a change that is done.
    pub fn place(&self) -> Option<u64> {
        match self.told.as_slice() {
            ["ok", place, ..] => number_of(place),
            _ => None,
        }
    }

    /// Behind how many changes its caller was then, where the line tells that.
    pub fn point(&self) -> Option<u64> {
        match self.told.as_slice() {
            ["at", point, ..] => number_of(point),
            _ => self.place(),
        }
    }

    /// The number of a pin that is made.
    pub fn pin(&self) -> Option<u64> {
        match self.told.as_slice() {
            ["at", _, "pin", number, ..] => number_of(number),
            _ => None,
        }
    }
}

/// The number that a field is.
pub(crate) fn number_of(field: &str) -> Option<u64> {
    field.parse::<u64>().ok()
}

/// The orders of a script, in the order in which their lines are printed.
fn orders_of<'a>(alloc: Global, script: &'a str) -> Result<Vec<Order<'a>>, AllocError> {
    let mut orders = Vec::new(alloc);
    let mut phase: usize = 0;
    for line in script.lines() {
        match line.split_once(' ') {
            Some((caller, text)) => orders.push(Order {
                phase,
                caller,
                text,
            })?,
            None => phase = phase.saturating_add(1),
        }
    }
    orders.sort_by_key(|order| (order.phase, order.caller))?;
    Ok(orders)
}

fn fields_of<'a>(alloc: Global, text: &'a str) -> Result<Vec<&'a str>, AllocError> {
    text.split(' ').collect(alloc)
}

fn answer_of<'a>(
    alloc: Global,
    order: &Order<'a>,
    line: &'a str,
) -> Result<Answer<'a>, AllocError> {
    let (caller, told) = line.split_once(' ').unwrap_or(("", ""));
    Ok(Answer {
        phase: order.phase,
        caller: order.caller,
        asked: fields_of(alloc, order.text)?,
        told: fields_of(alloc, told)?,
        is_to_caller: caller == order.caller,
    })
}

/// Each line of a script that was answered, as they were printed.
pub(crate) fn answers_of<'a>(
    alloc: Global,
    script: &'a str,
    printed: &'a str,
) -> Result<Vec<Answer<'a>>, AllocError> {
    let orders = orders_of(alloc, script)?;
    let mut answers = Vec::new(alloc);
    for (order, line) in orders.iter().zip(printed.lines()) {
        answers.push(answer_of(alloc, order, line)?)?;
    }
    Ok(answers)
}

/// How many lines of a script ask for something.
pub(crate) fn count_orders(script: &str) -> usize {
    script.lines().filter(|line| *line != "phase").count()
}
