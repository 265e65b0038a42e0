//! The log of a program that embeds the store: its changes.
ghost use Rattle.std.specs.Prelude.{◌≡◌, IfOk, IfErr};
ghost use Rattle.lethe_core.specs.Running.{IsSound};
ghost use Rattle.lethe_core.specs.View.{view_of};
ghost use Rattle.lethe_store.specs.StoreViews.{IsSameStore, store_view};
ghost use Rattle.lethe_store.specs.Since.{all_counted};
ghost use Rattle.lethe_store.specs.Sessions.{IsFirst, IsReady};

use crate::entry::{Entry, Mark};
use crate::log::Log;
use crate::session::Session;
use crate::store::Store;
use lethe_base::NoMemory;
use lethe_disk::Disk;
use lethe_engine::Engine;
use std::alloc::Global;

/// The log of changes: each change that was made is entered, and so is each call in which the disk failed. No value of it is made.
#[derive(Drop)]
pub struct Changes;

impl Log for Changes {
    type Entry = Entry;

    type Mark = Mark;

    ghost use Rattle.lethe_store.specs.Since.{AnyMarks, Since, all_counted};
    ghost use Rattle.lethe_store.specs.Laws.{any_none, any_both, since_opened, since_sound, since_same};

    ghost start = { all_counted };

    ghost since = { Since };

    ghost fits = { AnyMarks };

    ghost fits_none = { any_none };

    ghost fits_both = { any_both };

    ghost opens = { since_opened };

    ghost sound = { since_sound };

    ghost stays = { since_same };
}

impl<D: Disk> Store<D, Changes> {
    /// Shares a store. Its first session is caller 0's.
    ///
    /// # Errors
    ///
    /// `NoMemory`, with the store as it was.
    pub fn open(
        alloc: Global,
        engine: Engine<D>,
    ) -> Result<(Store<D, Changes>, Session<D, Changes>), (Engine<D>, NoMemory)>
        requires sound { IsSound D.tells (view_of engine.core) }
        ensures of { IfOk result (λ r. (r.1.seat.table_id ≡ r.0.turn.table.shared.table_id) × (r.1.caller ≡ 0) × (D.fetches r.1.port ≡ 0) × (D.port_faults r.1.port ≡ 0)) }
        ensures ready { IfOk result (λ r. IsReady all_counted (λ o. store_view o.engine) r.1.seat.me) }
        ensures first { IfOk result (λ r. IsFirst D.tells (λ o. store_view o.engine) (store_view engine) engine.core.state.count r.1.seat.me) }
        ensures back { IfErr result (λ r. IsSameStore D.tells (store_view engine) (store_view r.0)) }
    {
        let count = engine.count();
        Store::open_with(alloc, engine, count)
    }
}
