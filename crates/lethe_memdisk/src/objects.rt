//! The objects of a disk in memory.
ghost use Rattle.std.specs.Prelude.{◌≡◌, ◌≤◌, ◌+◌, length, OnOk, OnErr, IfOk, IsOk, IsSome, IsSomeAnd, Some, option_map};
ghost use Rattle.std.specs.Option.{option_copied};
ghost use Rattle.std.specs.FinMap.{empty, insert, remove, keys};
ghost use Rattle.lethe_disk.specs.Directory.{object, content};
ghost use Rattle.lethe_memdisk.specs.Bytes.{write_bytes};
ghost use Rattle.lethe_memdisk.specs.Objects.{write_to};
ghost use Rattle.lethe_memdisk.specs.Bytes.{restored, IsRange};

use lethe_base::Name;
use std::alloc::{AllocError, Global};
use std::collections::BTreeMap;
use std::marker::Model;

/// The bytes of each object, by name.
#[derive(Drop)]
pub struct Objects {
    map: BTreeMap<Name, Vec<u8>>,
}

impl Model for Objects {
    ghost use Rattle.lethe_disk.specs.Directory.{Directory};
    ghost use Rattle.lethe_memdisk.specs.Objects.{directory_code, directory_of};

    ghost Value = { Directory };

    ghost coded = { directory_code };

    ghost view = { λ o. directory_of o.map };
}

impl Objects {
    pub fn new(alloc: Global) -> Objects
        ensures { result ≡ empty }
    {
        Objects {
            map: BTreeMap::new(alloc),
        }
    }

    /// What an object holds.
    pub fn get(&self, name: Name) -> Option<&[u8]>
        ensures { option_map (λ b. b.now) result ≡ object self.now name }
    {
        match self.map.get(&name) {
            Some(bytes) => Some(bytes.as_slice()),
            None => None,
        }
    }

    /// A copy of what an object holds.
    pub fn read(&self, alloc: Global, name: Name) -> Result<Vec<u8>, AllocError>
        requires { IsSome (object self.now name) }
        ensures { IfOk result (λ v. object self.now name ≡ Some v.items) }
    {
        let Some(bytes) = self.get(name) else {
            unreachable!();
        };
        bytes.to_vec(alloc)
    }

    /// All names, ascending.
    pub fn names(&self, alloc: Global) -> Result<Vec<Name>, AllocError>
        ensures { IfOk result (λ names. names.items ≡ keys self.now) }
    {
        let mut names = Vec::with_capacity(alloc, self.map.len())?;
        for name in self.map.keys() {
            names.push(*name)?;
        }
        Ok(names)
    }

    /// Puts an object in, in place of the one of its name.
    pub fn insert(&mut self, name: Name, bytes: Vec<u8>) -> Result<(), AllocError>
        ensures ok { OnOk result (self.new ≡ insert self.old name bytes.items) }
        ensures err { OnErr result (self.new ≡ self.old) }
        ensures present { IsSome (object self.old name) → IsOk result }
    {
        match self.map.insert(name, bytes) {
            Ok(_) => Ok(()),
            Err(_) => Err(AllocError),
        }
    }

    /// Takes an object out.
    pub fn remove(&mut self, name: Name) -> Option<Vec<u8>>
        ensures removed { option_map (λ v. v.items) result ≡ object self.old name }
        ensures rest { self.new ≡ remove self.old name }
    {
        self.map.remove(&name)
    }

    /// Writes over what an object holds, and past its end.
    pub fn write(&mut self, name: Name, at: u64, bytes: &[u8]) -> Result<(), AllocError>
        ensures ok { OnOk result (self.new ≡ write_to (object self.old name) self.old name at bytes.now) }
        ensures err { OnErr result (self.new ≡ self.old) }
        ensures inside { at + length bytes.now ≤ length (content self.old name) → IsOk result }
    {
        let Some(held) = self.map.get_mut(&name) else {
            return Ok(());
        };
        overwrite(held, at, bytes)
    }

    /// Puts back the bytes over which `len` others were written.
    pub fn restore(&mut self, name: Name, at: u64, len: usize, before: &[u8])
        requires { IsSomeAnd (object self.old name) (λ bytes. IsRange at len (length before.now) (length bytes)) }
        ensures { self.new ≡ insert self.old name (restored (content self.old name) at len before.now) }
    {
        let Some(held) = self.map.get_mut(&name) else {
            unreachable!();
        };
        put_back(held, at as usize, len, before);
    }

    /// The same objects again.
    pub fn copy(&self) -> Result<Objects, AllocError>
        ensures { IfOk result (λ o. o ≡ self.now) }
    {
        Ok(Objects {
            map: self.map.clone()?,
        })
    }
}

// Puts back the bytes over which `len` others were written.
fn put_back(held: &mut Vec<u8>, at: usize, len: usize, before: &[u8])
    requires { IsRange at len (length before.now) (length held.old.items) }
    ensures { held.new.items ≡ restored held.old.items at len before.now }
{
    let end = at + before.len();
    held[at..end].copy_from_slice(before);
    if before.len() < len {
        held.truncate(end);
    }
}

// Writes over the bytes, and past their end. What is inside takes no memory.
fn overwrite(held: &mut Vec<u8>, at: u64, bytes: &[u8]) -> Result<(), AllocError>
    ensures ok { OnOk result (held.new.items ≡ write_bytes held.old.items at bytes.now) }
    ensures err { OnErr result (held.new.items ≡ held.old.items) }
    ensures inside { at + length bytes.now ≤ length held.old.items → IsOk result }
{
    let at = at as usize;
    if at > held.len() {
        return Ok(());
    }
    let inside = bytes.len().min(held.len() - at);
    held.extend_from_slice(&bytes[inside..])?;
    held[at..at + inside].copy_from_slice(&bytes[..inside]);
    Ok(())
}
