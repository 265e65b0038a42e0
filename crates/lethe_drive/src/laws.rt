//! What runs of events come to. The functions do nothing: their contracts are the laws.
ghost use Rattle.std.specs.Prelude.{◌≡◌, ◌≢◌, ◌⊎◌, ◌≤◌, ◌+◌, ℕ, Bool, List, [], ◌∷◌, length, All, Option, None};
ghost use Rattle.lethe_base.specs.Counts.{Rose};
ghost use Rattle.lethe_base.specs.History.{AreDone, History, after};
ghost use Rattle.lethe_base.specs.Keys.{Bytes};
ghost use Rattle.lethe_base.specs.Limits.{max_place};
ghost use Rattle.lethe_base.specs.Read as reads;
ghost use Rattle.lethe_base.specs.declared.call.Call.TheVariants as call;
ghost use Rattle.lethe_base.specs.declared.config.Fields.{Fields};
ghost use Rattle.lethe_base.specs.declared.refused.Refused.TheVariants.{Exhausted, NoMemory};
ghost use Rattle.lethe_cover.specs.Steps.{with_done};
ghost use Rattle.lethe_core.specs.Merges.{IsInstalled};
ghost use Rattle.lethe_job.specs.Works.{PlainTask, IsBegunIn};
ghost use Rattle.lethe_drive.specs.Moments.{IsMomentOf};
ghost use Rattle.lethe_drive.specs.Past.{Run};
ghost use Rattle.lethe_drive.specs.Steps.{Steps};
ghost use Rattle.lethe_drive.specs.declared.event.Event.TheVariants as event;
ghost use Rattle.lethe_drive.specs.declared.event.Reply as plain;
ghost use Rattle.lethe_drive.specs.declared.event.Reply.TheVariants as reply;

use lethe_disk::Disk;

/// Two puts and a get over a store on which nothing has failed, with places for two changes: where no count of faults rises and there is memory, the puts take the next
/// places and the get answers what the map has behind them, whatever moments the store goes through. Where the buffer has no room for both records, room is made, which
/// takes numbers of objects: then it is asked that no reply says that these ran out.
pub fn puts_are_read<D: Disk>()
    ensures { (config : Fields) (h g : History) (start finish : Run) (first second asked : Bytes) (dkey other : ℕ) (value next : Bytes) (replies : List plain.Reply)
        → IsMomentOf config h start.now → AreDone h → length h + 2 ≤ max_place
        → (length start.now.stored.active.records + 2 ≤ config.buffer) ⊎ All (λ given. given ≢ reply.Refused (Exhausted max_place)) replies
        → Steps D.ports_fail config h start (event.Put first dkey value ∷ event.Put second other next ∷ event.Get asked ∷ []) replies g finish
        → (Rose start.now.faults finish.now.faults → ⊥) → (Rose start.now.port_faults finish.now.port_faults → ⊥) → All (λ given. given ≢ reply.Refused NoMemory) replies
        → (g ≡ with_done (with_done h 0 (call.Put first dkey value)) 0 (call.Put second other next))
        × ((held : Option (ℕ × Bytes)) × (replies ≡ reply.Place (length h + 1) ∷ reply.Place (length h + 2) ∷ reply.Got held ∷ []) × (reads.answer (after g) (reads.Get asked) ≡ reads.Found held)) }
{}

/// A job that is begun, written and installed leaves its outcome: that of the merge or the sweep that was due.
pub fn a_job_has_its_outcome<D: Disk>()
    ensures { (config : Fields) (h g : History) (start finish : Run) (number : ℕ) (wrote : Bool)
        → Steps D.ports_fail config h start (event.Begin ∷ event.WriteOut number ∷ event.Install number ∷ []) (reply.Job number ∷ reply.Flag wrote ∷ reply.Unit ∷ []) g finish
        → (g ≡ h) × ((task : PlainTask) × IsBegunIn start.now.stored task × IsInstalled start.now.stored task finish.now.stored) × (finish.now.flights ≡ []) × (finish.now.there ≡ None) }
{}
