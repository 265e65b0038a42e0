//! A cursor with its next entry at hand.
ghost use Rattle.std.specs.Prelude.{◌≡◌, is_some, IfSome, IfNone};
ghost use Rattle.lethe_merge.specs.declared.source.Head.TheVariants.{Unasked};
ghost use Rattle.lethe_merge.specs.Sources.{comes_before, entry_at, entry_of_key, behind, head_from};

use lethe_base::{Entry, Key};
use std::mem;

/// What is known of a cursor's next entry.
#[derive(Drop)]
pub enum Head {
    /// The cursor wasn't asked for it.
    Unasked,
    /// It is at hand.
    Here(Entry),
    /// There is none.
    Ended,
}

impl Head {
    /// Whether it is at hand, and the other isn't or has a greater key.
    pub fn is_before(&self, other: &Head) -> bool
        ensures { result ≡ comes_before self.now other.now }
    {
        match (self, other) {
            (Head::Here(entry), Head::Here(other)) => entry.key < other.key,
            (Head::Here(_), _) => true,
            _ => false,
        }
    }

    /// Whether it is at hand and of the key.
    fn has_key(&self, key: &Key) -> bool
        ensures { result ≡ is_some (entry_of_key key.now self.now) }
    {
        match self {
            Head::Here(entry) => *key == entry.key,
            _ => false,
        }
    }

    /// Takes the entry at hand.
    fn take(&mut self) -> Option<Entry>
        ensures taken { result ≡ entry_at self.old }
        ensures behind { IfSome result (λ entry. self.new ≡ Unasked) }
        ensures same { IfNone result (self.new ≡ self.old) }
    {
        match mem::replace(self, Head::Unasked) {
            Head::Here(entry) => Some(entry),
            other => {
                *self = other;
                None
            }
        }
    }
}

/// A cursor with its next entry, where that is known.
#[derive(Drop)]
pub struct Source<C> {
    pub cursor: C,
    pub head: Head,
}

impl<C> Source<C> {
    /// Keeps what the cursor gave.
    pub fn keep(&mut self, next: Option<Entry>)
        ensures { self.new ≡ record self.old { head = head_from next } }
    {
        self.head = match next {
            Some(entry) => Head::Here(entry),
            None => Head::Ended,
        };
    }

    /// Takes the entry at hand.
    pub fn take(&mut self) -> Option<Entry>
        ensures taken { result ≡ entry_at self.old.head }
        ensures behind { IfSome result (λ entry. self.new ≡ behind entry.key self.old) }
        ensures same { IfNone result (self.new ≡ self.old) }
    {
        self.head.take()
    }

    /// Takes the entry at hand, where it is of the key.
    pub fn take_of(&mut self, key: &Key) -> Option<Entry>
        ensures taken { result ≡ entry_of_key key.now self.old.head }
        ensures behind { self.new ≡ behind key.now self.old }
    {
        if self.head.has_key(key) {
            self.head.take()
        } else {
            None
        }
    }
}
