//! Writing entries and erases.
ghost use Rattle.std.specs.Prelude.{◌≡◌, ◌++◌, length, OnOk};
ghost use Rattle.lethe_base.specs.Spelling.{since_bytes, body_bytes, entry_bytes};
ghost use Rattle.lethe_base.specs.Erases.{erase_bytes};

use crate::{Body, BodyKind, Entry, NoMemory, Pending};

/// How many bytes the entry's spelling has.
#[tactic(auto, unfolding(crate::specs::Spelling::front_bytes, crate::specs::Spelling::entry_bytes))]
pub fn entry_len(entry: &Entry) -> usize
    ensures { result ≡ length (entry_bytes entry.now) }
{
    let since = if entry.since.is_some() { 9 } else { 1 };
    let body = match &entry.body {
        Body::Put { value, .. } => 10 + value.bytes().len(),
        Body::Tomb => 0,
    };
    1 + 8 + since + 1 + entry.key.bytes().len() + body
}

/// Appends the entry's spelling. On an error what was there before is still at the front.
#[tactic(auto, unfolding(crate::specs::Spelling::front_bytes, crate::specs::Spelling::entry_bytes))]
pub fn write_entry(out: &mut Vec<u8>, entry: &Entry) -> Result<(), NoMemory>
    ensures { OnOk result (out.new.items ≡ out.old.items ++ entry_bytes entry.now) }
{
    out.push(match entry.body.kind() {
        BodyKind::Put => 1,
        BodyKind::Tomb => 2,
    })?;
    out.extend_from_slice(&entry.seq.to_be_bytes())?;
    write_since(out, entry.since)?;
    let key = entry.key.bytes();
    out.push(key.len() as u8)?;
    out.extend_from_slice(key)?;
    write_body(out, &entry.body)
}

fn write_since(out: &mut Vec<u8>, since: Option<u64>) -> Result<(), NoMemory>
    ensures { OnOk result (out.new.items ≡ out.old.items ++ since_bytes since) }
{
    match since {
        None => out.push(0)?,
        Some(time) => {
            out.push(1)?;
            out.extend_from_slice(&time.to_be_bytes())?;
        }
    }
    Ok(())
}

fn write_body(out: &mut Vec<u8>, body: &Body) -> Result<(), NoMemory>
    ensures { OnOk result (out.new.items ≡ out.old.items ++ body_bytes body.now) }
{
    if let Body::Put { dkey, value } = body {
        let value = value.bytes();
        out.extend_from_slice(&dkey.to_be_bytes())?;
        out.extend_from_slice(&(value.len() as u16).to_be_bytes())?;
        out.extend_from_slice(value)?;
    }
    Ok(())
}

/// Appends the erase's spelling, of 32 bytes. On an error what was there before is still at the front.
#[tactic(auto, unfolding(crate::specs::Erases::erase_bytes))]
pub fn write_erase(out: &mut Vec<u8>, erase: &Pending) -> Result<(), NoMemory>
    ensures { OnOk result (out.new.items ≡ out.old.items ++ erase_bytes erase.now) }
{
    out.extend_from_slice(&erase.seq.to_be_bytes())?;
    out.extend_from_slice(&erase.time.to_be_bytes())?;
    out.extend_from_slice(&erase.range.lo().to_be_bytes())?;
    out.extend_from_slice(&erase.range.hi().to_be_bytes())?;
    Ok(())
}
