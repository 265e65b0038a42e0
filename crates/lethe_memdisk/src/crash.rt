//! What a crash leaves of objects and the calls that made them.
ghost use Rattle.std.specs.Prelude.{◌≡◌, ◌≤◌, ◌↔◌, ℕ, length, drop, take, reverse, IsTrue, OnOk};
ghost use Rattle.std.specs.List.{fold};
ghost use Rattle.lethe_memdisk.specs.declared.past.Call.TheVariants.{Sync};
ghost use Rattle.lethe_memdisk.specs.Effects.{apply};
ghost use Rattle.lethe_memdisk.specs.Undo.{undone, start_of, Fits, Follows, torn_call, tear, HasNoSync, IsAtSync};

use crate::objects::Objects;
use crate::past::Call;
use std::alloc::{AllocError, Global};

fn is_sync(call: &Call) -> bool
    ensures { IsTrue result ↔ (call.now ≡ Sync) }
{
    matches!(call, Call::Sync)
}

/// How many calls there were up to the last sync, with it.
pub fn last_sync(calls: &[Call]) -> usize
    ensures within { result ≤ length calls.now }
    ensures synced { IsAtSync (reverse (take result calls.now)) }
    ensures unsynced { HasNoSync (drop result calls.now) }
{
    let mut at = calls.len();
    while at > 0 && !is_sync(&calls[at - 1]) {
        at -= 1;
    }
    at
}

fn undo(alloc: Global, objects: &mut Objects, call: &Call) -> Result<(), AllocError>
    requires { Fits call.now objects.old }
    ensures { OnOk result (objects.new ≡ undone call.now objects.old) }
{
    match call {
        Call::Create { name, .. } => {
            objects.remove(*name);
        }
        Call::Write {
            name,
            at,
            len,
            before,
        } => objects.restore(*name, *at, *len, before),
        Call::Byte { name, at, before } => objects.restore(*name, *at, 1, &[*before]),
        Call::Remove { name, before } => objects.insert(*name, before.to_vec(alloc)?)?,
        Call::Sync => {}
        Call::Nothing => {}
    }
    Ok(())
}

/// Undoes calls, the last of them first.
pub fn undo_all(alloc: Global, objects: &mut Objects, calls: &[Call]) -> Result<(), AllocError>
    requires { Follows objects.old (reverse calls.now) }
    ensures { OnOk result (objects.new ≡ start_of objects.old (reverse calls.now)) }
{
    let mut at = calls.len();
    while at > 0 {
        at -= 1;
        undo(alloc, objects, &calls[at])?;
    }
    Ok(())
}

// Does a call as a crash leaves it.
fn tear_one(
    alloc: Global,
    objects: &mut Objects,
    call: &Call,
    fill: u8,
    keep: bool,
) -> Result<(), AllocError>
    ensures { OnOk result (objects.new ≡ tear fill keep objects.old call.now) }
{
    match call {
        Call::Create { name, len } => {
            if keep {
                objects.insert(*name, vec![in alloc; fill; *len]?)?;
            }
        }
        Call::Write { name, at, len, .. } => {
            let bytes = vec![in alloc; fill; *len]?;
            objects.write(*name, *at, &bytes)?;
        }
        Call::Byte { name, at, .. } => objects.write(*name, *at, &[fill])?,
        Call::Remove { name, .. } => {
            if keep {
                objects.remove(*name);
            }
        }
        Call::Sync => {}
        Call::Nothing => {}
    }
    Ok(())
}

/// Does calls as a crash leaves them.
pub fn tear_all(
    alloc: Global,
    objects: &mut Objects,
    calls: &[Call],
    fill: u8,
    keep: bool,
) -> Result<(), AllocError>
    ensures { OnOk result (objects.new ≡ fold (tear fill keep) objects.old calls.now) }
{
    for call in calls {
        tear_one(alloc, objects, call, fill, keep)?;
    }
    Ok(())
}
