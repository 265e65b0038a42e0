//! How to use the crates as a library: it opens the folder `clients`, puts two records, deletes one, and prints what is there.
#![tactic(auto)]

use lethe_base::{Config, Fields, Key, NoMemory, Value};
use lethe_dirdisk::{DirDisk, DirRefused};
use lethe_engine::Engine;
use lethe_reasons::{
    Message, damaged, folder_refused, no_memory, open_exhausted, open_fault, other_config,
    refused_call,
};
use lethe_recover::OpenWhy;
use std::alloc::Global;
use std::process::ExitCode;

/// The folder of the store.
const FOLDER: &str = "clients";

/// Why the tour ended early.
#[derive(Drop)]
enum Fault {
    /// The folder isn't opened.
    Folder(DirRefused),
    /// The store in it isn't.
    Store(OpenWhy),
    /// A later call was refused; the error that is dropped there says why.
    Call,
}

fn main(rt: HostRuntime) -> ExitCode {
    match tour(&rt, rt.alloc()) {
        Ok(()) => ExitCode::SUCCESS,
        Err(fault) => {
            if let Ok(why) = told(rt.alloc(), &fault) {
                let _ = rt.eprintln(text(why.bytes()));
            }
            ExitCode::FAILURE
        }
    }
}

/// Opens the store, puts, deletes and reads.
fn tour(rt: &HostRuntime, alloc: Global) -> Result<(), Fault> {
    let config = Config::new(Fields::default()).map_err(|_| Fault::Call)?;
    let disk = DirDisk::open(rt, alloc, FOLDER).map_err(|why| Fault::Folder(why))?;
    let mut store = Engine::open(alloc, disk, &config).map_err(|refused| Fault::Store(
        refused.why,
    ))?;
    let mut port = store.new_port(alloc).map_err(|_| Fault::Call)?;
    let elm = value(alloc, "12 Elm Street")?;
    store
        .put(alloc, &mut port, key(alloc, "17")?, 20291231, elm)
        .map_err(|_| Fault::Call)?;
    let oak = value(alloc, "3 Oak Lane")?;
    store
        .put(alloc, &mut port, key(alloc, "18")?, 20310401, oak)
        .map_err(|_| Fault::Call)?;
    store
        .delete(alloc, &mut port, key(alloc, "17")?)
        .map_err(|_| Fault::Call)?;

    let gone = store
        .get(alloc, &mut port, &key(alloc, "17")?)
        .map_err(|_| Fault::Call)?;
    println!(rt; "17 is there: {}", gone.is_some()).map_err(|_| Fault::Call)?;
    let (first, end) = (key(alloc, "1")?, key(alloc, "2")?);
    for (key, day, value) in store
        .scan(alloc, &mut port, &first, &end)
        .map_err(|_| Fault::Call)?
    {
        let (key, value) = (text(key.bytes()), text(value.bytes()));
        println!(rt; "{key} until {day}: {value}").map_err(|_| Fault::Call)?;
    }
    Ok(())
}

/// What is said of a fault.
fn told(alloc: Global, fault: &Fault) -> Result<Message, NoMemory> {
    match fault {
        Fault::Folder(why) => folder_refused(alloc, FOLDER, why),
        Fault::Store(why) => match *why {
            OpenWhy::Damaged { name } => damaged(alloc, name),
            OpenWhy::OtherConfig { kept } => other_config(alloc, kept.fields(), &Fields::default()),
            OpenWhy::Fault { .. } => open_fault(alloc),
            OpenWhy::Exhausted { last } => open_exhausted(alloc, last),
            OpenWhy::NoMemory => no_memory(alloc),
        },
        Fault::Call => refused_call(alloc),
    }
}

fn key(alloc: Global, text: &str) -> Result<Key, Fault> {
    let bytes = Vec::from_slice(alloc, text.as_bytes()).map_err(|_| Fault::Call)?;
    Key::new(bytes).map_err(|_| Fault::Call)
}

fn value(alloc: Global, text: &str) -> Result<Value, Fault> {
    let bytes = Vec::from_slice(alloc, text.as_bytes()).map_err(|_| Fault::Call)?;
    Value::new(bytes).map_err(|_| Fault::Call)
}

fn text(bytes: &[u8]) -> &str {
    str::from_utf8(bytes).unwrap_or("?")
}
