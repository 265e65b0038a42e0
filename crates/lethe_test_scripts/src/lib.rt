//! Tests of whole scripts: what is printed, what is refused, and what isn't opened.
#![tactic(auto)]

#[cfg(test)]
mod callers;
#[cfg(test)]
mod common;
#[cfg(test)]
mod counting;
#[cfg(test)]
mod faults;
#[cfg(test)]
mod limits;
#[cfg(test)]
mod options;
#[cfg(test)]
mod phases;
#[cfg(test)]
mod pins;
#[cfg(test)]
mod places;
#[cfg(test)]
mod refusals;
#[cfg(test)]
mod retention;
#[cfg(test)]
mod scarce;
#[cfg(test)]
mod scripts;
#[cfg(test)]
mod ticks;
#[cfg(test)]
mod unopened;
#[cfg(test)]
mod worked;
