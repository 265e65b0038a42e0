//! The objects of a disk in memory, and its calls with what each of them wrote over.
ghost use Rattle.std.specs.Prelude.{◌≡◌, ◌≢◌, ◌≤◌, ◌<◌, ◌+◌, ◌-◌, ◌↔◌, ℕ, [], ◌++◌, ◌∷◌, length, drop, take, slice_get, Some, None, IsTrue, IsFalse, IsSome, IsSomeAnd, IsOk, OnOk, OnErr, IfOk, vec_len, vec_capacity};
ghost use Rattle.lethe_disk.specs.Directory.{object, content};

use crate::crash::{last_sync, tear_all, undo_all};
use crate::objects::Objects;
use lethe_base::Name;
use std::alloc::{AllocError, Global};
use std::marker::Model;

/// A device call that was taken, with what it takes to undo it.
#[derive(Drop)]
pub enum Call {
    /// Made an object of so many bytes.
    Create {
        name: Name,
        len: usize,
    },
    /// Wrote so many bytes over these, which are fewer where it went past the end.
    Write {
        name: Name,
        at: u64,
        len: usize,
        before: Vec<u8>,
    },
    /// Wrote one byte over this one.
    Byte {
        name: Name,
        at: u64,
        before: u8,
    },
    /// Removed an object that held this.
    Remove {
        name: Name,
        before: Vec<u8>,
    },
    Sync,
    /// Changed nothing: a read, or a call that failed.
    Nothing,
}

/// The objects, and the calls that made them of what they were at first.
#[derive(Drop)]
pub struct Past {
    objects: Objects,
    calls: Vec<Call>,
    room: usize,
}

impl Model for Past {
    ghost use Rattle.std.specs.Prelude.{vec_capacity};
    ghost use Rattle.lethe_memdisk.specs.Past.{Kept, kept_code, kept_of, IsKept};

    ghost Value = { Kept };

    ghost coded = { kept_code };

    ghost view = { λ p. kept_of p.objects p.calls.items p.room };

    ghost invariant = { λ p. IsKept p.objects p.calls.items p.room (vec_capacity p.calls) };
}

// Keeps a call. There is room for it.
fn keep(calls: &mut Vec<Call>, call: Call)
    requires { vec_len calls.old < vec_capacity calls.old }
    ensures items { calls.new.items ≡ calls.old.items ++ call ∷ [] }
    ensures capacity { vec_capacity calls.old ≤ vec_capacity calls.new }
{
    if calls.push(call).is_err() {
        unreachable!();
    }
}

impl Past {
    ghost use Rattle.std.specs.FinMap.{insert};
    ghost use Rattle.lethe_memdisk.specs.Effects.{Created, Written, Removed, Synced, Nothing};
    ghost use Rattle.lethe_memdisk.specs.Past.{now_of, with_effect, swapped, left_of};

    /// These objects, with room for so many calls.
    pub fn new(alloc: Global, objects: Objects, room: usize) -> Result<Past, AllocError>
        ensures { IfOk result (λ p. p ≡ record { start = objects; effects = []; room = room }) }
    {
        Ok(Past {
            objects,
            calls: Vec::with_capacity(alloc, room)?,
            room,
        })
    }

    /// How many calls are kept.
    pub fn len(&self) -> usize
        ensures { result ≡ length self.now.effects }
    {
        self.calls.len()
    }

    /// The objects now.
    pub fn objects(&self) -> &Objects
        ensures { result.now ≡ now_of self.now }
    {
        &self.objects
    }

    /// Makes a new object.
    pub fn create(&mut self, name: Name, bytes: Vec<u8>) -> Result<(), AllocError>
        requires room { length self.old.effects < self.old.room }
        requires absent { object (now_of self.old) name ≡ None }
        ensures ok { OnOk result (self.new ≡ with_effect (Created name bytes.items) self.old) }
        ensures err { OnErr result (self.new ≡ self.old) }
    {
        let len = bytes.len();
        self.objects.insert(name, bytes)?;
        keep(&mut self.calls, Call::Create { name, len });
        Ok(())
    }

    // The byte at a place of an object, where there is one.
    fn byte_at(&self, name: Name, at: u64) -> Option<u8>
        ensures { result ≡ slice_get (content (now_of self.now) name) at }
    {
        match self.objects.get(name) {
            Some(held) => byte_in(held, at as usize),
            None => None,
        }
    }

    // Writes one byte over another.
    fn write_byte(&mut self, name: Name, at: u64, byte: u8, before: u8)
        requires room { length self.old.effects < self.old.room }
        requires inside { slice_get (content (now_of self.old) name) at ≡ Some before }
        ensures { self.new ≡ with_effect (Written name at (byte ∷ [])) self.old }
    {
        if self.objects.write(name, at, &[byte]).is_err() {
            unreachable!();
        }
        keep(&mut self.calls, Call::Byte { name, at, before });
    }

    fn write_range(
        &mut self,
        alloc: Global,
        name: Name,
        at: u64,
        bytes: &[u8],
    ) -> Result<(), AllocError>
        requires room { length self.old.effects < self.old.room }
        requires inside { IsSomeAnd (object (now_of self.old) name) (λ held. at ≤ length held) }
        ensures ok { OnOk result (self.new ≡ with_effect (Written name at bytes.now) self.old) }
        ensures err { OnErr result (self.new ≡ self.old) }
    {
        let Some(held) = self.objects.get(name) else {
            unreachable!();
        };
        let len = bytes.len();
        let before = range(alloc, held, at as usize, len)?;
        self.objects.write(name, at, bytes)?;
        keep(
            &mut self.calls,
            Call::Write {
                name,
                at,
                len,
                before,
            },
        );
        Ok(())
    }

    /// Writes over what an object holds, and past its end. One byte inside the object takes no memory.
    pub fn write(
        &mut self,
        alloc: Global,
        name: Name,
        at: u64,
        bytes: &[u8],
    ) -> Result<(), AllocError>
        requires room { length self.old.effects < self.old.room }
        requires inside { IsSomeAnd (object (now_of self.old) name) (λ held. at ≤ length held) }
        ensures ok { OnOk result (self.new ≡ with_effect (Written name at bytes.now) self.old) }
        ensures err { OnErr result (self.new ≡ self.old) }
        ensures byte { length bytes.now ≡ 1 → at < length (content (now_of self.old) name) → IsOk result }
    {
        if let [byte] = bytes
            && let Some(before) = self.byte_at(name, at)
        {
            self.write_byte(name, at, *byte, before);
            return Ok(());
        }
        self.write_range(alloc, name, at, bytes)
    }

    /// Removes an object.
    pub fn remove(&mut self, name: Name)
        requires room { length self.old.effects < self.old.room }
        requires present { IsSome (object (now_of self.old) name) }
        ensures { self.new ≡ with_effect (Removed name) self.old }
    {
        let Some(before) = self.objects.remove(name) else {
            unreachable!();
        };
        keep(&mut self.calls, Call::Remove { name, before });
    }

    /// Keeps a sync.
    pub fn sync(&mut self)
        requires { length self.old.effects < self.old.room }
        ensures { self.new ≡ with_effect Synced self.old }
    {
        keep(&mut self.calls, Call::Sync);
    }

    /// Keeps a call that changed nothing.
    pub fn nothing(&mut self)
        requires { length self.old.effects < self.old.room }
        ensures { self.new ≡ with_effect Nothing self.old }
    {
        keep(&mut self.calls, Call::Nothing);
    }

    /// Begins anew with other bytes in an object, where it is there.
    pub fn swap(&mut self, name: Name, bytes: Vec<u8>) -> bool
        ensures found { IsTrue result ↔ IsSome (object (now_of self.old) name) }
        ensures done { IsTrue result → self.new ≡ swapped name bytes.items self.old }
        ensures absent { IsFalse result → self.new ≡ self.old }
    {
        if self.objects.get(name).is_none() {
            return false;
        }
        if self.objects.insert(name, bytes).is_err() {
            unreachable!();
        }
        self.calls.clear();
        true
    }

    /// What a crash after so many calls leaves: where no sync followed, a range that was written holds `fill`,
    /// and what was created is there, and what was removed is gone, only where `keep` says so.
    pub fn crashed(
        &self,
        alloc: Global,
        calls: usize,
        fill: u8,
        keep: bool,
    ) -> Result<Objects, AllocError>
        requires { calls ≤ length self.now.effects }
        ensures { IfOk result (λ objects. objects ≡ left_of calls fill keep self.now) }
    {
        let (calls, later) = self.calls.split_at(calls);
        let (_, unsynced) = calls.split_at(last_sync(calls));
        let mut objects = self.objects.copy()?;
        undo_all(alloc, &mut objects, later)?;
        undo_all(alloc, &mut objects, unsynced)?;
        tear_all(alloc, &mut objects, unsynced, fill, keep)?;
        Ok(objects)
    }
}

fn byte_in(bytes: &[u8], at: usize) -> Option<u8>
    ensures { result ≡ slice_get bytes.now at }
{
    bytes.get(at).copied()
}

// The bytes from a place on, up to `len` of them.
fn range(alloc: Global, bytes: &[u8], at: usize, len: usize) -> Result<Vec<u8>, AllocError>
    requires { at ≤ length bytes.now }
    ensures { IfOk result (λ v. v.items ≡ take len (drop at bytes.now)) }
{
    let rest = &bytes[at..];
    rest[..len.min(rest.len())].to_vec(alloc)
}
