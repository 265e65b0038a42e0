//! Each page in turn is another one than was written.
ghost use Rattle.lethe_core.specs.Running.{IsSound};
ghost use Rattle.lethe_core.specs.View.{view_of};

use crate::common::{KEYS, scan, three_files};
use crate::lying::LyingDisk;
use lethe_base::{Kind, Refused, Value};
use lethe_disk::Disk;
use lethe_engine::Engine;
use lethe_test_values::key_of;
use std::alloc::Global;
use std::test::Fail;

/// Whether a get of the key answers its value.
fn is_found<D: Disk>(
    alloc: Global,
    engine: &mut Engine<D>,
    text: &str,
) -> Result<Result<bool, Refused>, Fail>
    requires { IsSound D.tells (view_of engine.old.core) }
    ensures { IsSound D.tells (view_of engine.new.core) }
{
    let key = key_of(alloc, text)?;
    let mut port = engine.new_port(alloc)?;
    let answer = engine.get(alloc, &mut port, &key);
    Ok(answer.map(|found| is_value_of(&found, text)))
}

fn is_value_of(found: &Option<(u64, Value)>, text: &str) -> bool {
    match found {
        Some((dkey, value)) => *dkey == 7 && value.bytes() == text.as_bytes(),
        None => false,
    }
}

/// Whether the page of that number is told to be damaged.
fn names_page(why: Refused, no: u64) -> bool {
    matches!(why, Refused::Damaged { name } if name.kind == Kind::Page && name.no == no)
}

/// Whether a get of the key is told that the page of that number is damaged. Else it answers the key's value.
fn is_told<D: Disk>(
    alloc: Global,
    engine: &mut Engine<D>,
    text: &str,
    no: u64,
) -> Result<bool, Fail>
    requires { IsSound D.tells (view_of engine.old.core) }
    ensures { IsSound D.tells (view_of engine.new.core) }
{
    match is_found(alloc, engine, text)? {
        Ok(true) => Ok(false),
        Err(why) if names_page(why, no) => Ok(true),
        _ => Err(Fail::new(format_args!("get {text}, page {no}"))),
    }
}

/// Whether a scan of all keys is told so. Else it answers all pairs.
fn scan_is_told<D: Disk>(alloc: Global, engine: &mut Engine<D>, no: u64) -> Result<bool, Fail>
    requires { IsSound D.tells (view_of engine.old.core) }
    ensures { IsSound D.tells (view_of engine.new.core) }
{
    match scan(alloc, engine, "a", "z")? {
        Ok(pairs) if pairs == KEYS.len() => Ok(false),
        Err(why) if names_page(why, no) => Ok(true),
        _ => Err(Fail::new(format_args!("scan, page {no}"))),
    }
}

/// How many keys are told that the page is damaged.
fn count_told<D: Disk>(alloc: Global, engine: &mut Engine<D>, no: u64) -> Result<usize, Fail>
    requires { IsSound D.tells (view_of engine.old.core) }
    ensures { IsSound D.tells (view_of engine.new.core) }
{
    let mut told: usize = 0;
    for text in &KEYS {
        if is_told(alloc, engine, *text, no)? {
            told = told.saturating_add(1);
        }
    }
    Ok(told)
}

/// How many gets are told that the page of that number is damaged, where the disk lies about it, and whether a scan is.
fn count_lied(alloc: Global, no: u64) -> Result<(usize, bool), Fail> {
    let mut engine = three_files(alloc, LyingDisk::new(alloc, no))?;
    let gets = count_told(alloc, &mut engine, no)?;
    let scan = scan_is_told(alloc, &mut engine, no)?;
    Ok((gets, scan))
}

#[test]
fn reads_that_meet_a_page_of_other_bytes_tell_its_name(rt: HostRuntime) -> Result<(), Fail> {
    let mut damaged: usize = 0;
    for no in 0..60 {
        let (told, is_scan_told) = count_lied(rt.alloc(), no)?;
        // A page has two keys; the filters may let two more of its tile through, and no key of another tile.
        assert!(rt; told == 0 || (2 <= told && told <= 4), "page {no}");
        assert!(rt; is_scan_told == (told > 0), "page {no}");
        if told > 0 {
            damaged = damaged.saturating_add(1);
        }
    }
    // Six pages in three files.
    assert!(rt; damaged == 6);
    Ok(())
}
