//! The jobs that a store has in flight.
ghost use Rattle.std.specs.Prelude as prelude;
ghost use Rattle.std.specs.Prelude.{◌≡◌, ◌↔◌, ◌<◌, ◌≤◌, ◌+◌, ℕ, [], ◌∷◌, ◌++◌, false, All, HoldsAt, IfSome, IsErrOf, IsNone, IsSome, IsTrue, OnErr, OnOk, Some, None, length};
ghost use Rattle.std.specs.FinMap.{insert};
ghost use Rattle.lethe_advance.specs.Settled.{HasOnly, AreDrawn, AreUncited, IsSettled, names_in};
ghost use Rattle.lethe_base.specs.declared.name.Name as name;
ghost use Rattle.lethe_commit.specs.Append.{IsUntouched};
ghost use Rattle.lethe_disk.specs.declared.disk.DiskRefused.TheVariants as refusal;
ghost use Rattle.lethe_disk.specs.Directory.{SameBut};
ghost use Rattle.lethe_disk.specs.Disk.{HasCause};
ghost use Rattle.lethe_disk.specs.Goes.{Goes};
ghost use Rattle.lethe_fade.specs.Claims.{meets};
ghost use Rattle.lethe_file.specs.Agreement.{page_name};
ghost use Rattle.lethe_job.specs.Claims.{claim_of_task};
ghost use Rattle.lethe_job.specs.Works.{plain_task};
ghost use Rattle.lethe_loose.specs.Loose.{MayWrite};
ghost use Rattle.lethe_stored.specs.Encodes.{Encodes};
ghost use Rattle.lethe_stored.specs.Stored.{IsCoherent, Stored};
ghost use Rattle.lethe_core.specs.Flights.{AreFlights, company_of, flying_by, flying_of, loose_in, with_page_of, without, written_by};

use crate::Flight;
use lethe_base::{Name, NoMemory};
use lethe_disk::{Disk, DiskRefused};
use lethe_fade::Claim;
use lethe_follows::Company;
use lethe_job::Task;
use lethe_loose::{Written, write_page};
use std::alloc::Global;
use std::marker::Model;
use std::sync::Arc;

/// The jobs that a store has in flight, in the order of their numbers. No two of their claims meet, and no number stands twice. Contracts see a list of them.
#[derive(Drop)]
pub struct Flights<D: Disk> {
    flights: Vec<Flight<D>>,
}

impl<D: Disk> Model for Flights<D> {
    ghost use Rattle.std.specs.Prelude.{List, map};
    ghost use Rattle.lethe_core.specs.Flights.{AreClaimed, Flying, flying_of};

    ghost Value = { List Flying };

    ghost view = { λ f. map flying_of f.flights.items };

    ghost invariant = { λ f. AreClaimed f.flights.items };
}

impl<D: Disk> Flights<D> {
    /// None is in flight. It takes no memory.
    pub fn new(alloc: Global) -> Flights<D>
        ensures { result ≡ [] }
    {
        Flights {
            flights: Vec::new(alloc),
        }
    }

    /// Whether none is in flight.
    pub fn is_empty(&self) -> bool
        ensures { IsTrue result ↔ self.now ≡ [] }
    {
        self.flights.is_empty()
    }

    /// What a job is installed beside, where these are the others in flight.
    pub(crate) fn company(&self) -> Company
        ensures { result ≡ company_of self.now }
    {
        if self.flights.is_empty() {
            Company::Last
        } else {
            Company::Beside
        }
    }

    /// What the job of the number is installed beside.
    pub(crate) fn company_for(&self, number: u64) -> Company
        ensures { result ≡ company_of (without number self.now) }
    {
        if self.flights.iter().all(|flight| flight.number == number) {
            Company::Last
        } else {
            Company::Beside
        }
    }

    /// The job of the number.
    pub(crate) fn find(&self, number: u64) -> Option<&Flight<D>>
        ensures none { IsNone result ↔ flying_by number self.now ≡ None }
        ensures some { IfSome result (λ flight. flying_by number self.now ≡ Some (flying_of flight.now)) }
    {
        self.flights.iter().find(|flight| flight.number == number)
    }

    /// The number of the first job, where one is in flight.
    pub(crate) fn first(&self) -> Option<u64>
        ensures none { IsNone result ↔ self.now ≡ [] }
        ensures some { IfSome result (λ number. IsSome (flying_by number self.now)) }
    {
        match self.flights.first() {
            Some(flight) => Some(flight.number),
            None => None,
        }
    }

    /// One job more, which has written nothing. Its claim is its task's, and meets none of those in flight.
    pub(crate) fn begin(
        &mut self,
        alloc: Global,
        number: u64,
        task: Arc<Task<D>>,
        claim: Claim,
    ) -> Result<(), NoMemory>
        requires later { All (λ flying. flying.number < number) self.old }
        requires claim { claim ≡ claim_of_task (plain_task task.value) }
        requires apart { All (λ flying. meets (claim_of_task flying.task) claim ≡ false) self.old }
        ensures are { AreFlights self.new }
        ensures begun { OnOk result (self.new ≡ self.old ++ record { number = number; task = plain_task task.value; written = [] } ∷ []) }
        ensures kept { OnErr result (self.new ≡ self.old) }
    {
        self.flights.push(Flight {
            number,
            task,
            claim,
            written: Written::new(alloc),
        })?;
        Ok(())
    }

    /// Writes a page for the job of the number, under a number of an object that hasn't been drawn, and syncs.
    ///
    /// # Errors
    ///
    /// `NoMemory` before any change. `Failed` where the disk failed: then a part of the page may be there, under a name that isn't among those that are written.
    pub(crate) fn write(
        &mut self,
        disk: &mut D,
        number: u64,
        no: u64,
        bytes: &[u8],
    ) -> Result<(), DiskRefused>
        requires flies { IsSome (flying_by number self.old) }
        requires fresh { D.tells → (s : Stored) × (left : prelude.List (name.Name × prelude.List ℕ)) × MayWrite (D.seen disk.old) s (left ++ written_by number self.old) no }
        ensures any_moment { D.tells → (s : Stored) (left : prelude.List (name.Name × prelude.List ℕ)) → MayWrite (D.seen disk.old) s (left ++ written_by number self.old) no
            → Goes (λ c. Encodes c s) (D.seen disk.old) (D.seen disk.new) }
        ensures done { D.tells → (s : Stored) (left : prelude.List (name.Name × prelude.List ℕ)) → MayWrite (D.seen disk.old) s (left ++ written_by number self.old) no
            → OnOk result (IsSettled (D.seen disk.new) s × HasOnly s (left ++ (written_by number self.old ++ (page_name no, bytes.now) ∷ [])) (D.seen disk.new).directory) }
        ensures are { AreFlights self.new }
        ensures written { OnOk result (self.new ≡ with_page_of number (page_name no, bytes.now) self.old) }
        ensures kept { OnErr result (self.new ≡ self.old) }

        // Each object but the page is as it was, whatever is answered.
        ensures beside { D.tells → SameBut (page_name no) (D.seen disk.old).directory (D.seen disk.new).directory }
        ensures others { D.tells → OnOk result ((D.seen disk.new).directory ≡ insert (D.seen disk.old).directory (page_name no) bytes.now) }
        ensures calls { D.tells → OnOk result ((D.seen disk.new).moment ≡ (D.seen disk.old).moment + 2) }
        ensures no_memory { D.tells → IsErrOf result refusal.NoMemory → IsUntouched (D.seen disk.old) (D.seen disk.new) }
        ensures cause { HasCause (D.faults disk.old) (D.faults disk.new) result }
    {
        let Some(place) = self.place_of(number) else {
            unreachable!()
        };
        let flight = &mut self.flights[place];
        write_page(disk, &mut flight.written, no, bytes)
    }

    /// Lets the job of the number go, and gives the pages that were written for it.
    pub fn end(&mut self, number: u64) -> Option<Written>
        ensures are { AreFlights self.new }
        ensures ended { self.new ≡ without number self.old }
        ensures none { IsNone result ↔ flying_by number self.old ≡ None }
        ensures some { IfSome result (λ written. written ≡ written_by number self.old) }
    {
        let place = self.place_of(number)?;
        let flight = self.flights.remove(place);
        Some(flight.written)
    }

    /// Lets all jobs go.
    pub(crate) fn clear(&mut self)
        ensures { self.new ≡ [] }
    {
        self.flights.clear();
    }

    /// Adds the names of all pages that were written for them.
    pub(crate) fn add_names(&self, names: &mut Vec<Name>) -> Result<(), NoMemory>
        ensures { OnOk result (names.new.items ≡ names.old.items ++ names_in (loose_in self.now)) }
    {
        for flight in &self.flights {
            names.extend_from_slice(flight.written.names())?;
        }
        Ok(())
    }

    /// The place of the job of the number.
    fn place_of(&self, number: u64) -> Option<usize>
        ensures none { IsNone result ↔ flying_by number self.now ≡ None }
        ensures within { IfSome result (λ place. place < length self.now) }
        ensures there { IfSome result (λ place. HoldsAt (λ flying. flying_by number self.now ≡ Some flying) self.now place) }
    {
        self.flights
            .iter()
            .position(|flight| flight.number == number)
    }
}
