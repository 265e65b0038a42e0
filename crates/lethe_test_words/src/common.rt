//! What the tests of words share.

use lethe_base::Fields;
use lethe_words::{Certs, Command, Request, read_words};
use std::alloc::Global;
use std::process::Abort;

/// What a command asks for, with its configuration's fields.
#[derive(Clone, Copy, Debug, PartialEq, Eq)]
pub struct Asked {
    pub command: Command,
    pub fields: Fields,
    pub workers: u64,
    pub turns: u64,
    pub certs: Certs,
}

/// `run` alone.
pub fn plain() -> Asked {
    Asked {
        command: Command::Run,
        fields: Fields::default(),
        workers: 0,
        turns: 10_000,
        certs: Certs::Text,
    }
}

fn asked_by(request: &Request) -> Asked {
    Asked {
        command: request.command,
        fields: *request.config.fields(),
        workers: request.workers,
        turns: request.turns,
        certs: request.certs,
    }
}

fn owned(alloc: Global, rt: &impl Abort, words: &[&str]) -> Vec<String> {
    let mut all = Vec::new(alloc);
    for word in words {
        let text = String::from_str(alloc, word).expect(rt, "memory");
        all.push(text).expect(rt, "memory");
    }
    all
}

/// What these words ask for.
pub fn read(alloc: Global, rt: &impl Abort, words: &[&str]) -> Option<Asked> {
    let words = owned(alloc, rt, words);
    let request = read_words(alloc, &words).expect(rt, "memory");
    request.as_ref().map(|request| asked_by(request))
}

/// What the words of a line ask for, between single spaces.
pub fn read_line(alloc: Global, rt: &impl Abort, line: &str) -> Option<Asked> {
    let words: Vec<&str> = line.split(' ').collect(alloc).expect(rt, "memory");
    read(alloc, rt, &words)
}
