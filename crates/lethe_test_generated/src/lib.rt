//! Generated scripts: what they print, what is left where the disk is stopped, and what a reader finds in texts.
#![tactic(auto)]

#[cfg(test)]
mod callers;
#[cfg(test)]
mod maps;
#[cfg(test)]
mod readers;
#[cfg(test)]
mod runs;
#[cfg(test)]
mod stopped;
