//! A change by itself, over the store in its turn.
ghost use Rattle.std.specs.Prelude.{◌≡◌, ◌≤◌, ◌<◌, ◌+◌, ℕ, IfErr, IfOk, IsErrOf};
ghost use Rattle.std.specs.Result.{result_err};
ghost use Rattle.lethe_base.specs.declared.name.Name.{Name};
ghost use Rattle.lethe_base.specs.declared.refused.Refused.TheVariants.{Damaged, Stopped};
ghost use Rattle.lethe_core.specs.Asked.{Makes};
ghost use Rattle.lethe_core.specs.Running.{IsSound};
ghost use Rattle.lethe_core.specs.View.{face_of, view_of};
ghost use Rattle.lethe_engine.specs.Answers.{Answers};
ghost use Rattle.lethe_engine.specs.ChangeRows.{call_of};
ghost use Rattle.lethe_engine.specs.Refusals.{HasReasonOfChange};

use lethe_base::Refused;
use lethe_disk::Disk;
use lethe_engine::{Asked, Engine};
use std::alloc::Global;

/// Makes the change, as the call of its kind does.
pub(crate) fn make<D: Disk>(
    engine: &mut Engine<D>,
    alloc: Global,
    port: &mut D::Port,
    asked: Asked,
) -> Result<u64, Refused>
    requires { IsSound D.tells (view_of engine.old.core) }
    ensures answers { Answers D.tells (Makes (call_of asked)) (result_err result) (face_of (view_of engine.old.core)) (view_of engine.old.core) (view_of engine.new.core) }
    ensures place { IfOk result (λ place. place ≡ engine.old.core.state.count + 1) }
    ensures why { IfErr result (HasReasonOfChange D.tells D.ports_fail (view_of engine.old.core) (view_of engine.new.core) (D.port_faults port.old) (D.port_faults port.new)) }
    ensures stopped { (at : ℕ) → engine.old.core.state.stopped ≡ Some at → IsErrOf result (Stopped at) }
    ensures port_faults { D.port_faults port.old ≤ D.port_faults port.new }
    ensures damaged { (name : Name) → IsErrOf result (Damaged name) → D.fetches port.old < D.fetches port.new }
    ensures fetches { D.fetches port.old ≤ D.fetches port.new }
    ensures certificates { engine.new.certificates ≡ engine.old.certificates }
{
    match asked {
        Asked::Put { key, dkey, value } => engine.put(alloc, port, key, dkey, value),
        Asked::Delete { key } => engine.delete(alloc, port, key),
        Asked::Erase { range } => engine.erase(alloc, port, range),
    }
}
