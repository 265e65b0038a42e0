//! Jobs of earlier rounds.
ghost use Rattle.std.specs.Prelude.{◌≡◌, ◌<◌, ◌==◌, ◌∷◌, ◌++◌, List, length, position, true, IfSome, vec_capacity};
ghost use Rattle.lethe_core.specs.View.{view_of};
ghost use Rattle.lethe_drive.specs.Past.{given_up_as, refused_as};

use crate::event::Reply;
use lethe_base::Refused;
use lethe_disk::Disk;
use lethe_engine::Engine;

/// A job of an earlier round that hasn't ended. The tick that ended its round gave it up, so that it can only be given up once more.
#[derive(Debug, Clone, Copy, PartialEq, Eq)]
pub struct Past {
    /// Its number in the run.
    pub number: usize,
    /// The round in which it was begun.
    pub round: u64,
    /// Whether one of its calls was refused.
    pub refused: bool,
}

/// Where the first job of this number is among these.
pub(crate) fn place_of(past: &[Past], number: usize) -> Option<usize>
    ensures within { IfSome result (λ place. place < length past.now) }
    ensures first { result ≡ position (λ job. job.number == number) past.now }
{
    past.iter().position(|job| job.number == number)
}

/// Asks the job at this place to go on, which is refused.
pub(crate) fn refuse<D: Disk>(engine: &Engine<D>, past: &mut Vec<Past>, place: usize) -> Reply
    requires { place < length past.old.items }
    ensures refused { (front back : List Past) × (job : Past) × (length front ≡ place) × (past.old.items ≡ front ++ job ∷ back)
        × (past.new.items ≡ front ++ record job { refused = true } ∷ back) × (result ≡ refused_as engine.now.core.state.stopped engine.now.core.begun.rounds job) }
    ensures room { vec_capacity past.new ≡ vec_capacity past.old }
{
    let job = past[place];
    past[place].refused = true;
    if job.refused {
        return Reply::NoSuch;
    }
    Reply::Refused(match engine.stopped() {
        Some(at) => Refused::Stopped { at },
        None => Refused::Cancelled {
            begun: job.round,
            now: engine.rounds(),
        },
    })
}

/// Gives up the job at this place, of which nothing is left in the store.
pub(crate) fn give_up<D: Disk>(engine: &Engine<D>, past: &mut Vec<Past>, place: usize) -> Reply
    requires { place < length past.old.items }
    ensures gone { (front back : List Past) × (job : Past) × (length front ≡ place) × (past.old.items ≡ front ++ job ∷ back) × (past.new.items ≡ front ++ back) }
    ensures reply { result ≡ given_up_as engine.now.core.state.stopped }
    ensures room { vec_capacity past.new ≡ vec_capacity past.old }
{
    past.remove(place);
    match engine.stopped() {
        Some(at) => Reply::Refused(Refused::Stopped { at }),
        None => Reply::Unit,
    }
}
