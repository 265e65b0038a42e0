//! The store behind the turn.

use crate::log::Log;
use lethe_disk::Disk;
use lethe_engine::Engine;
use lethe_turn::Behind;
use std::marker::PhantomData;

/// What is lent to a session for its turn.
pub struct Lent<D: Disk, L: Log> {
    pub engine: Engine<D>,
    pub(crate) log: PhantomData<L>,
}

impl<D: Disk, L: Log> Behind for Lent<D, L> {
    type Entry = L::Entry;

    type Mark = L::Mark;

    ghost use Rattle.lethe_store.specs.StoreViews.{store_view};

    ghost since = { λ o l m x. L.since D.tells D.ports_fail (store_view o.engine) l m (store_view x.engine) };

    ghost fits = { L.fits };

    ghost fits_none = { L.fits_none };

    ghost fits_both = { L.fits_both };
}
