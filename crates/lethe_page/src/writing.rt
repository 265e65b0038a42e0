//! Writing a page.
ghost use Rattle.std.specs.Prelude.{◌≡◌, ◌++◌, ℕ, IfOk, OnOk, length, flat_map};
ghost use Rattle.lethe_base.specs.Spelling.{entry_bytes};
ghost use Rattle.lethe_page.specs.Pages.{head_bytes, page_bytes, HasSpelling};

use crate::Class;
use lethe_base::{Entry, NoMemory, write_entry};
use std::alloc::Global;

/// The page's one spelling. From 1 to 2^32 - 1 entries, all of the class, ascending by key.
#[tactic(auto, unfolding(crate::specs::Pages::page_bytes))]
pub fn write_page(alloc: Global, class: Class, entries: &[Entry]) -> Result<Vec<u8>, NoMemory>
    requires { HasSpelling class entries.now }
    ensures { IfOk result (λ bytes. bytes.items ≡ page_bytes class entries.now) }
{
    let mut out = Vec::new(alloc);
    write_head(&mut out, class, entries.len() as u32)?;
    write_entries(&mut out, entries)?;
    Ok(out)
}

#[tactic(auto, unfolding(crate::specs::Pages::head_bytes))]
fn write_head(out: &mut Vec<u8>, class: Class, count: u32) -> Result<(), NoMemory>
    ensures { OnOk result (out.new.items ≡ out.old.items ++ head_bytes class count) }
{
    out.extend_from_slice(&[b'L', b'P', 1])?;
    out.push(class.byte())?;
    out.extend_from_slice(&count.to_be_bytes())?;
    Ok(())
}

fn write_entries(out: &mut Vec<u8>, entries: &[Entry]) -> Result<(), NoMemory>
    ensures { OnOk result (out.new.items ≡ out.old.items ++ flat_map entry_bytes entries.now) }
{
    for entry in entries {
        write_entry(out, entry)?;
    }
    Ok(())
}
