//! How threads share a store: it opens the folder `offices`, four threads put and get records of their own, each in a session, and it prints how many changes each made. Then a thread counts the
//! records of the pinned store while another one puts more.
#![tactic(auto)]

ghost use Rattle.std.specs.Prelude.{◌≡◌, ◌*◌, ◌<◌, ◌≤◌, IfOk};
ghost use Rattle.lethe_store.specs.StoreViews.{store_view};
ghost use Rattle.lethe_store.specs.Sessions.{IsReady};
ghost use Rattle.lethe_store.specs.Since.{all_counted};

use lethe_base::{Config, Fields, Key, NoMemory, Refused, Value};
use lethe_dirdisk::{DirDisk, DirPort, DirRefused};
use lethe_engine::Engine;
use lethe_reasons::{
    Message, damaged, folder_refused, no_memory, open_exhausted, open_fault, other_config,
    refused_call,
};
use lethe_recover::OpenWhy;
use lethe_snapshot::Snapshot;
use lethe_store::{Changes, Session, Store};
use std::alloc::Global;
use std::process::ExitCode;
use std::sync::Wait;
use std::thread::{Threads, join};

/// The folder of the store.
const FOLDER: &str = "offices";

/// How many records each office puts.
const RECORDS: u64 = 25;

/// The store, which all threads use by reference.
type Shared = Store<DirDisk, Changes>;

/// A caller of it, which one thread has.
type Caller = Session<DirDisk, Changes>;

/// Why the program ended early.
#[derive(Drop)]
enum Fault {
    /// The folder isn't opened.
    Folder(DirRefused),
    /// The store in it isn't.
    Store(OpenWhy),
    /// A later call was refused; the error that is dropped there says why.
    Call,
}

/// Where an office is.
#[derive(Clone, Copy, Drop)]
enum Town {
    North,
    East,
    South,
    West,
    Center,
}

/// An office, with its session, and how many changes it made or why it ended early.
#[derive(Drop)]
struct Office {
    town: Town,
    session: Caller,
    made: Result<u64, Refused>,
}

/// A report's session, through whose port a pinned store is read, and how many records were counted in it or why they weren't.
#[derive(Drop)]
struct Report {
    session: Caller,
    counted: Result<usize, Refused>,
}

fn main(rt: HostRuntime) -> ExitCode {
    let done = match shared(&rt, rt.alloc()) {
        Ok(opened) => serve(&rt, rt.alloc(), opened),
        Err(fault) => Err(fault),
    };
    match done {
        Ok(()) => ExitCode::SUCCESS,
        Err(fault) => {
            if let Ok(why) = told(rt.alloc(), &fault) {
                let _ = rt.eprintln(text(why.bytes()));
            }
            ExitCode::FAILURE
        }
    }
}

/// The store of the folder, shared, with its first session.
fn shared(rt: &HostRuntime, alloc: Global) -> Result<(Shared, Caller), Fault>
    ensures of { IfOk result (λ r. r.1.seat.table_id ≡ r.0.turn.table.shared.table_id) }
    ensures ready { IfOk result (λ r. IsReady all_counted (λ o. store_view o.engine) r.1.seat.me) }
    ensures parts { IfOk result (λ r. 64 ≤ r.1.seat.me.0.parts) }
{
    let config = Config::new(Fields::default()).map_err(|_| Fault::Call)?;
    let disk = DirDisk::open(rt, alloc, FOLDER).map_err(|why| Fault::Folder(why))?;
    let engine = Engine::open(alloc, disk, &config).map_err(|refused| Fault::Store(refused.why))?;
    match Store::open(alloc, engine) {
        Ok(opened) => Ok(opened),
        Err(_) => Err(Fault::Call),
    }
}

/// Lets the offices work, ends the sharing, and prints how many changes each made.
fn serve<R: Threads + Wait + Print + Sync>(
    rt: &R,
    alloc: Global,
    opened: (Shared, Caller),
) -> Result<(), Fault>
    requires of { opened.1.seat.table_id ≡ opened.0.turn.table.shared.table_id }
    requires ready { IsReady all_counted (λ o. store_view o.engine) opened.1.seat.me }
    requires parts { 64 ≤ opened.1.seat.me.0.parts }
{
    let (store, mut first) = opened;
    let made = four_offices(rt, alloc, &store, &mut first);
    let counted = report_beside(rt, alloc, &store, &mut first);
    // A shared store can't be dropped: one of its sessions ends it, also where a call was refused.
    let _ = store.finish(rt, first);
    let [north, east, south, west] = made?;
    tell(rt, Town::North, north)?;
    tell(rt, Town::East, east)?;
    tell(rt, Town::South, south)?;
    tell(rt, Town::West, west)?;
    let counted = counted?;
    println!(rt; "the report counts {counted} records").map_err(|_| Fault::Call)
}

fn tell<R: Print>(rt: &R, town: Town, changes: u64) -> Result<(), Fault> {
    let name = name_of(town);
    println!(rt; "{name} made {changes} changes").map_err(|_| Fault::Call)
}

fn name_of(town: Town) -> &'static str {
    match town {
        Town::North => "north",
        Town::East => "east",
        Town::South => "south",
        Town::West => "west",
        Town::Center => "center",
    }
}

/// Four threads, with a session each. They end before this does, and their sessions are joined to the first one.
fn four_offices<R: Threads + Wait + Sync>(
    rt: &R,
    alloc: Global,
    store: &Shared,
    first: &mut Caller,
) -> Result<[u64; 4], Fault>
    requires of { first.old.seat.table_id ≡ store.now.turn.table.shared.table_id }
    requires ready { IsReady all_counted (λ o. store_view o.engine) first.old.seat.me }
    requires parts { 16 ≤ first.old.seat.me.0.parts }
    ensures of { first.new.seat.table_id ≡ first.old.seat.table_id }
    ensures ready { IsReady all_counted (λ o. store_view o.engine) first.new.seat.me }
    ensures parts { first.old.seat.me.0.parts ≤ 16 * first.new.seat.me.0.parts }
{
    let north = new_office(rt, alloc, store, first, Town::North)?;
    let east = new_office(rt, alloc, store, first, Town::East)?;
    let south = new_office(rt, alloc, store, first, Town::South)?;
    let west = new_office(rt, alloc, store, first, Town::West)?;
    let ((north, east), (south, west)) = join(
        rt,
        move || -> (Office, Office)
            requires of { (north.session.seat.table_id ≡ store.now.turn.table.shared.table_id) × (east.session.seat.table_id ≡ store.now.turn.table.shared.table_id) }
            requires ready { IsReady all_counted (λ o. store_view o.engine) north.session.seat.me × IsReady all_counted (λ o. store_view o.engine) east.session.seat.me }
            ensures of { (result.0.session.seat.table_id ≡ north.session.seat.table_id) × (result.1.session.seat.table_id ≡ east.session.seat.table_id) }
            ensures ready { IsReady all_counted (λ o. store_view o.engine) result.0.session.seat.me × IsReady all_counted (λ o. store_view o.engine) result.1.session.seat.me }
        { two_offices(rt, alloc, store, north, east) },
        move || -> (Office, Office)
            requires of { (south.session.seat.table_id ≡ store.now.turn.table.shared.table_id) × (west.session.seat.table_id ≡ store.now.turn.table.shared.table_id) }
            requires ready { IsReady all_counted (λ o. store_view o.engine) south.session.seat.me × IsReady all_counted (λ o. store_view o.engine) west.session.seat.me }
            ensures of { (result.0.session.seat.table_id ≡ south.session.seat.table_id) × (result.1.session.seat.table_id ≡ west.session.seat.table_id) }
            ensures ready { IsReady all_counted (λ o. store_view o.engine) result.0.session.seat.me × IsReady all_counted (λ o. store_view o.engine) result.1.session.seat.me }
        { two_offices(rt, alloc, store, south, west) },
    );
    let north = close(store, first, north);
    let east = close(store, first, east);
    let south = close(store, first, south);
    let west = close(store, first, west);
    Ok([north?, east?, south?, west?])
}

/// An office with a session that is split from the first one.
fn new_office<R: Wait>(
    rt: &R,
    alloc: Global,
    store: &Shared,
    first: &mut Caller,
    town: Town,
) -> Result<Office, Fault>
    requires of { first.old.seat.table_id ≡ store.now.turn.table.shared.table_id }
    requires ready { IsReady all_counted (λ o. store_view o.engine) first.old.seat.me }
    requires parts { 1 < first.old.seat.me.0.parts }
    ensures of { first.new.seat.table_id ≡ first.old.seat.table_id }
    ensures ready { IsReady all_counted (λ o. store_view o.engine) first.new.seat.me }
    ensures parts { first.old.seat.me.0.parts ≤ 2 * first.new.seat.me.0.parts }
    ensures office_of { IfOk result (λ office. office.session.seat.table_id ≡ first.old.seat.table_id) }
    ensures office_ready { IfOk result (λ office. IsReady all_counted (λ o. store_view o.engine) office.session.seat.me) }
{
    match store.split(rt, alloc, first, 1) {
        Ok(session) => Ok(Office {
            town,
            session,
            made: Ok(0),
        }),
        Err(NoMemory) => Err(Fault::Call),
    }
}

/// Joins the session of an office to the first one, and answers how many changes the office made.
fn close(store: &Shared, first: &mut Caller, office: Office) -> Result<u64, Fault>
    requires of { (first.old.seat.table_id ≡ store.now.turn.table.shared.table_id) × (office.session.seat.table_id ≡ store.now.turn.table.shared.table_id) }
    requires ready { IsReady all_counted (λ o. store_view o.engine) first.old.seat.me × IsReady all_counted (λ o. store_view o.engine) office.session.seat.me }
    ensures of { first.new.seat.table_id ≡ first.old.seat.table_id }
    ensures ready { IsReady all_counted (λ o. store_view o.engine) first.new.seat.me }
    ensures parts { first.old.seat.me.0.parts ≤ first.new.seat.me.0.parts }
{
    let Office {
        town: _,
        session,
        made,
    } = office;
    store.join(first, session);
    made.map_err(|_| Fault::Call)
}

/// Two offices, each in a thread of its own.
fn two_offices<R: Threads + Wait + Sync>(
    rt: &R,
    alloc: Global,
    store: &Shared,
    one: Office,
    other: Office,
) -> (Office, Office)
    requires of { (one.session.seat.table_id ≡ store.now.turn.table.shared.table_id) × (other.session.seat.table_id ≡ store.now.turn.table.shared.table_id) }
    requires ready { IsReady all_counted (λ o. store_view o.engine) one.session.seat.me × IsReady all_counted (λ o. store_view o.engine) other.session.seat.me }
    ensures of { (result.0.session.seat.table_id ≡ one.session.seat.table_id) × (result.1.session.seat.table_id ≡ other.session.seat.table_id) }
    ensures ready { IsReady all_counted (λ o. store_view o.engine) result.0.session.seat.me × IsReady all_counted (λ o. store_view o.engine) result.1.session.seat.me }
{
    join(
        rt,
        move || -> Office
            requires { (one.session.seat.table_id ≡ store.now.turn.table.shared.table_id) × IsReady all_counted (λ o. store_view o.engine) one.session.seat.me }
            ensures { (result.session.seat.table_id ≡ one.session.seat.table_id) × IsReady all_counted (λ o. store_view o.engine) result.session.seat.me }
        { work(rt, alloc, store, one) },
        move || -> Office
            requires { (other.session.seat.table_id ≡ store.now.turn.table.shared.table_id) × IsReady all_counted (λ o. store_view o.engine) other.session.seat.me }
            ensures { (result.session.seat.table_id ≡ other.session.seat.table_id) × IsReady all_counted (λ o. store_view o.engine) result.session.seat.me }
        { work(rt, alloc, store, other) },
    )
}

/// What one thread does.
fn work<R: Wait>(rt: &R, alloc: Global, store: &Shared, office: Office) -> Office
    requires of { office.session.seat.table_id ≡ store.now.turn.table.shared.table_id }
    requires ready { IsReady all_counted (λ o. store_view o.engine) office.session.seat.me }
    ensures of { result.session.seat.table_id ≡ office.session.seat.table_id }
    ensures ready { IsReady all_counted (λ o. store_view o.engine) result.session.seat.me }
{
    let Office {
        town,
        mut session,
        made: _,
    } = office;
    let made = put_records(rt, alloc, store, &mut session, town);
    Office {
        town,
        session,
        made,
    }
}

/// Puts the records of an office and gets each. Answers how many of these changes it found again.
fn put_records<R: Wait>(
    rt: &R,
    alloc: Global,
    store: &Shared,
    session: &mut Caller,
    town: Town,
) -> Result<u64, Refused>
    requires of { session.old.seat.table_id ≡ store.now.turn.table.shared.table_id }
    requires ready { IsReady all_counted (λ o. store_view o.engine) session.old.seat.me }
    ensures of { session.new.seat.table_id ≡ session.old.seat.table_id }
    ensures ready { IsReady all_counted (λ o. store_view o.engine) session.new.seat.me }
{
    let mut found = 0;
    for number in 0..RECORDS {
        let (key, value) = (
            key_at(alloc, town, number)?,
            value_of(alloc, "12 Elm Street")?,
        );
        let place = store.put(rt, alloc, session, key, 20291231, value)?;
        // No other office has this key, so the get finds what was just put, whatever the others do meanwhile.
        let key = key_at(alloc, town, number)?;
        let read = store.get(rt, alloc, session, &key)?;
        if read.answer.is_some() && place <= read.at {
            found += 1;
        }
    }
    Ok(found)
}

/// Counts the records that the store has now in a thread of its own, while another office puts more.
fn report_beside<R: Threads + Wait + Sync>(
    rt: &R,
    alloc: Global,
    store: &Shared,
    first: &mut Caller,
) -> Result<usize, Fault>
    requires of { first.old.seat.table_id ≡ store.now.turn.table.shared.table_id }
    requires ready { IsReady all_counted (λ o. store_view o.engine) first.old.seat.me }
    requires parts { 4 ≤ first.old.seat.me.0.parts }
    ensures of { first.new.seat.table_id ≡ first.old.seat.table_id }
    ensures ready { IsReady all_counted (λ o. store_view o.engine) first.new.seat.me }
{
    let center = new_office(rt, alloc, store, first, Town::Center)?;
    let report = new_report(rt, alloc, store, first)?;
    let snapshot = store.pin(rt, alloc, first).map_err(|_| Fault::Call)?;
    let (report, center) = count_beside(rt, alloc, store, &snapshot, report, center);
    // Nor can a snapshot be dropped: any session releases it.
    store.release(rt, first, snapshot);
    let Report { session, counted } = report;
    store.join(first, session);
    close(store, first, center)?;
    counted.map_err(|_| Fault::Call)
}

/// A report with a session that is split from the first one.
fn new_report<R: Wait>(
    rt: &R,
    alloc: Global,
    store: &Shared,
    first: &mut Caller,
) -> Result<Report, Fault>
    requires of { first.old.seat.table_id ≡ store.now.turn.table.shared.table_id }
    requires ready { IsReady all_counted (λ o. store_view o.engine) first.old.seat.me }
    requires parts { 1 < first.old.seat.me.0.parts }
    ensures of { first.new.seat.table_id ≡ first.old.seat.table_id }
    ensures ready { IsReady all_counted (λ o. store_view o.engine) first.new.seat.me }
    ensures report_of { IfOk result (λ report. report.session.seat.table_id ≡ first.old.seat.table_id) }
    ensures report_ready { IfOk result (λ report. IsReady all_counted (λ o. store_view o.engine) report.session.seat.me) }
{
    match store.split(rt, alloc, first, 2) {
        Ok(session) => Ok(Report {
            session,
            counted: Ok(0),
        }),
        Err(NoMemory) => Err(Fault::Call),
    }
}

/// The report and the office, each in a thread of its own. The snapshot is used by reference.
fn count_beside<R: Threads + Wait + Sync>(
    rt: &R,
    alloc: Global,
    store: &Shared,
    snapshot: &Snapshot<DirDisk>,
    report: Report,
    center: Office,
) -> (Report, Office)
    requires of { center.session.seat.table_id ≡ store.now.turn.table.shared.table_id }
    requires ready { IsReady all_counted (λ o. store_view o.engine) report.session.seat.me × IsReady all_counted (λ o. store_view o.engine) center.session.seat.me }
    ensures of { (result.0.session.seat.table_id ≡ report.session.seat.table_id) × (result.1.session.seat.table_id ≡ center.session.seat.table_id) }
    ensures ready { IsReady all_counted (λ o. store_view o.engine) result.0.session.seat.me × IsReady all_counted (λ o. store_view o.engine) result.1.session.seat.me }
{
    join(
        rt,
        move || -> Report
            requires { IsReady all_counted (λ o. store_view o.engine) report.session.seat.me }
            ensures { (result.session.seat.table_id ≡ report.session.seat.table_id) × IsReady all_counted (λ o. store_view o.engine) result.session.seat.me }
        { count_records(alloc, snapshot, report) },
        move || -> Office
            requires { (center.session.seat.table_id ≡ store.now.turn.table.shared.table_id) × IsReady all_counted (λ o. store_view o.engine) center.session.seat.me }
            ensures { (result.session.seat.table_id ≡ center.session.seat.table_id) × IsReady all_counted (λ o. store_view o.engine) result.session.seat.me }
        { work(rt, alloc, store, center) },
    )
}

/// What the thread of the report does. It takes no turn, so it holds up nobody and waits for nobody.
fn count_records(alloc: Global, snapshot: &Snapshot<DirDisk>, report: Report) -> Report
    requires { IsReady all_counted (λ o. store_view o.engine) report.session.seat.me }
    ensures of { result.session.seat.table_id ≡ report.session.seat.table_id }
    ensures ready { IsReady all_counted (λ o. store_view o.engine) result.session.seat.me }
{
    let Report {
        mut session,
        counted: _,
    } = report;
    let counted = count_pinned(alloc, snapshot, session.port());
    Report { session, counted }
}

fn count_pinned(
    alloc: Global,
    snapshot: &Snapshot<DirDisk>,
    port: &mut DirPort,
) -> Result<usize, Refused> {
    let (first, end) = (text_key(alloc, "a")?, text_key(alloc, "z")?);
    let records = snapshot.scan(alloc, port, &first, &end)?;
    Ok(records.len())
}

/// What is said of a fault.
fn told(alloc: Global, fault: &Fault) -> Result<Message, NoMemory> {
    match fault {
        Fault::Folder(why) => folder_refused(alloc, FOLDER, why),
        Fault::Store(why) => match *why {
            OpenWhy::Damaged { name } => damaged(alloc, name),
            OpenWhy::OtherConfig { kept } => other_config(alloc, kept.fields(), &Fields::default()),
            OpenWhy::Fault { .. } => open_fault(alloc),
            OpenWhy::Exhausted { last } => open_exhausted(alloc, last),
            OpenWhy::NoMemory => no_memory(alloc),
        },
        Fault::Call => refused_call(alloc),
    }
}

fn key_at(alloc: Global, town: Town, number: u64) -> Result<Key, Refused> {
    let name = name_of(town);
    let text = format!(in alloc; "{name} {number}").map_err(|_| Refused::NoMemory)?;
    Key::new(text.into_bytes()).map_err(|_| Refused::NoMemory)
}

fn text_key(alloc: Global, text: &str) -> Result<Key, Refused> {
    let bytes = Vec::from_slice(alloc, text.as_bytes()).map_err(|_| Refused::NoMemory)?;
    Key::new(bytes).map_err(|_| Refused::NoMemory)
}

fn value_of(alloc: Global, text: &str) -> Result<Value, Refused> {
    let bytes = Vec::from_slice(alloc, text.as_bytes()).map_err(|_| Refused::NoMemory)?;
    Value::new(bytes).map_err(|_| Refused::NoMemory)
}

fn text(bytes: &[u8]) -> &str {
    str::from_utf8(bytes).unwrap_or("?")
}
