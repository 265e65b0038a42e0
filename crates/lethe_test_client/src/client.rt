//! Clients: each runs a script over an empty disk.
ghost use Rattle.std.specs.Prelude.{◌≡◌, ◌⊎◌, ◌∷◌, [], None, IfOk, map, codes};
ghost use Rattle.std.specs.String.{string_bytes};
ghost use Rattle.lethe_base.specs.Configuration.{default_fields};
ghost use Rattle.lethe_memdisk.specs.Held.{seen_of};
ghost use Rattle.lethe_run.specs.Ends.{Ends};
ghost use Rattle.lethe_stored.specs.Left.{IsLeft};
ghost use Rattle.lethe_test_client.specs.Roomy.{IsRoomyDisk, IsRoomySink};
ghost use Rattle.lethe_test_client.specs.Runs.{client_run};
ghost use Rattle.lethe_test_client.specs.Scripts.{put_and_get, put_and_tick, get_text, IsTickText, the_put, the_tick};

use crate::disk::RoomyDisk;
use crate::sink::RoomySink;
use crate::source::SteadySource;
use lethe_base::NoMemory;
use lethe_memdisk::MemDisk;
use lethe_run::run;
use lethe_wire::MemSink;
use std::alloc::Global;
use std::sync::Wait;

/// What a run left.
#[derive(Drop)]
pub struct Left {
    pub status: u8,
    /// What it has printed.
    pub sink: MemSink,
    pub disk: MemDisk,
}

/// Runs a script with the default configuration over an empty disk.
fn run_script<R: Wait + Sync>(rt: &R, alloc: Global, script: &[u8]) -> Result<Left, NoMemory>
    ensures ends { IfOk result (λ left. Ends (client_run script.now left.sink left.disk) left.status) }
    ensures disk { IfOk result (λ left. IsRoomyDisk left.disk) }
    ensures sink { IfOk result (λ left. IsRoomySink left.sink) }
{
    let words = command(alloc)?;
    let mut source = SteadySource::new(alloc, script.to_vec(alloc)?);
    let mut sink = RoomySink::new(alloc)?;
    let disk = RoomyDisk::new(rt, alloc)?;
    let ended = run(alloc, &words, &mut source, &mut sink, disk);
    Ok(Left {
        status: ended.status,
        sink: sink.into_inner(),
        disk: ended.disk.into_inner(),
    })
}

/// The word `run`.
fn command(alloc: Global) -> Result<Vec<String>, NoMemory>
    ensures { IfOk result (λ words. map string_bytes words.items ≡ codes "run" ∷ []) }
{
    let mut words = Vec::new(alloc);
    words.push(String::from_str(alloc, "run")?)?;
    Ok(words)
}

/// Puts a value and gets it. All is answered, or there was no memory; and where all was answered, just its two lines are printed, and the disk is left for the put alone. Past the disk's room,
/// a thousand calls, it never returns.
pub fn put_and_get<R: Wait + Sync>(rt: &R, alloc: Global) -> Result<Left, NoMemory>
    ensures ends { IfOk result (λ left. (left.status ≡ 0) ⊎ (left.status ≡ 7)) }
    ensures printed { IfOk result (λ left. left.status ≡ 0 → left.sink.bytes ≡ get_text) }
    ensures leaves { IfOk result (λ left. left.status ≡ 0 → IsLeft default_fields (seen_of left.disk) (the_put ∷ []) None) }
{
    run_script(rt, alloc, b"1 put a 5 x\n1 get a\n")
}

/// Puts a value and moves the clock to the threshold. It ends so too, and where all was answered, two lines are printed, the second with the first certificate,
/// and the disk is left for the put and the tick.
pub fn put_and_tick<R: Wait + Sync>(rt: &R, alloc: Global) -> Result<Left, NoMemory>
    ensures ends { IfOk result (λ left. (left.status ≡ 0) ⊎ (left.status ≡ 7)) }
    ensures printed { IfOk result (λ left. left.status ≡ 0 → IsTickText left.sink.bytes) }
    ensures leaves { IfOk result (λ left. left.status ≡ 0 → IsLeft default_fields (seen_of left.disk) (the_put ∷ the_tick ∷ []) None) }
{
    run_script(rt, alloc, b"1 put a 5 x\n1 tick 1000\n")
}
