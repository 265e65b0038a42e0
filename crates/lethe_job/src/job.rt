//! A job that runs.
ghost use Rattle.std.specs.Prelude.{◌≡◌, ◌+◌, ◌≤◌, ◌<◌, ◌^◌, ◌↔◌, [], true, false, length, slice_index_or, sum_by, All, Any, IfOk, IfErr, IfSome, IsErrOf, IsOk, OnOk, OnErr, None, IsSome};
ghost use Rattle.lethe_base.specs.Limits.{max_time};
ghost use Rattle.lethe_base.specs.declared.name.Name.{Name};
ghost use Rattle.lethe_base.specs.declared.refused.Refused.TheVariants.{Damaged};
ghost use Rattle.lethe_job.specs.Jobs as jobs;
ghost use Rattle.lethe_job.specs.Jobs.{IsJob, IsUnread, next_bytes};
ghost use Rattle.lethe_job.specs.MadeOf.{pages_of};
ghost use Rattle.lethe_job.specs.Tasks.{HasDamaged};
ghost use Rattle.lethe_job.specs.Works.{erases_of, inputs_in, plain_task, reads_of};

use crate::made::Made;
use crate::task::Task;
use lethe_base::Refused;
use lethe_disk::{Disk, ReadRefused};
use std::alloc::Global;
use std::sync::Arc;

/// A merge or a sweep that runs beside a store: its task, which the store knows too, a port of its own, and once it is made what it makes.
#[derive(Drop)]
pub struct Job<D: Disk> {
    /// Its number: how many jobs the store had begun before it.
    number: u64,
    /// The round in which it was begun: how many rounds had ended before it.
    round: u64,
    task: Arc<Task<D>>,
    port: D::Port,
    /// What it makes, once it is made.
    made: Option<Made>,
    /// How many of the pages that are to be written of it are written.
    written: usize,
    /// One of its calls was refused, so that it can only be cancelled.
    refused: bool,
}

/// The next page that a job has to write. It is written by the store before the job is asked for the next one.
#[derive(Debug, Drop)]
pub struct Piece {
    /// The page's place among those of the job's outputs, from 0.
    pub(crate) place: usize,
}

/// The refusal of a read, as a job tells it.
fn told_as(why: ReadRefused) -> Refused
    ensures { result ≡ jobs.told_as why }
{
    match why {
        ReadRefused::ReadFault { before, after } => Refused::ReadFault { before, after },
        ReadRefused::Damaged { name } => Refused::Damaged { name },
        ReadRefused::NoMemory => Refused::NoMemory,
    }
}

impl<D: Disk> Job<D> {
    /// A job of this task, which has made and written nothing.
    pub fn begun(number: u64, round: u64, task: Arc<Task<D>>, port: D::Port) -> Job<D>
        ensures job { IsJob D.tells result }
        ensures is { result ≡ record { number = number; round = round; task = task; port = port; made = None; written = 0; refused = false } }
    {
        Job {
            number,
            round,
            task,
            port,
            made: None,
            written: 0,
            refused: false,
        }
    }

    /// Its number: how many jobs the store had begun before it.
    pub fn number(&self) -> u64
        ensures { result ≡ self.now.number }
    {
        self.number
    }

    /// The round in which it was begun.
    pub fn round(&self) -> u64
        ensures { result ≡ self.now.round }
    {
        self.round
    }

    /// One of its calls was refused, so that it can only be cancelled.
    pub fn is_refused(&self) -> bool
        ensures { result ≡ self.now.refused }
    {
        self.refused
    }

    /// Tells it that a call of it was refused: from now on it can only be cancelled.
    pub fn refuse(&mut self)
        ensures { self.new ≡ record self.old { refused = true } }
    {
        self.refused = true;
    }

    /// Makes what it is to make, where that isn't made yet.
    fn make(&mut self, alloc: Global) -> Result<(), Refused>
        requires erases { All (λ erase. erase.time ≤ max_time) (erases_of (plain_task self.old.task.value)) }
        requires job { IsJob D.tells self.old }
        ensures job { IsJob D.tells self.new }
        ensures number { self.new.number ≡ self.old.number }
        ensures round { self.new.round ≡ self.old.round }
        ensures task { self.new.task.value ≡ self.old.task.value }
        ensures written { self.new.written ≡ self.old.written }
        ensures made { OnOk result (IsSome self.new.made) }
        ensures ok { OnOk result (self.new.refused ≡ self.old.refused) }
        ensures err { OnErr result (self.new.refused ≡ true) }
        ensures kept { IsSome self.old.made → self.new.made ≡ self.old.made }
        ensures still { IsSome self.old.made → self.new.port ≡ self.old.port }
        ensures ready { IsSome self.old.made → IsOk result }
        ensures fetches { self.old.made ≡ None → OnOk result (D.fetches self.new.port ≡ D.fetches self.old.port + reads_of (plain_task self.old.task.value)) }
        ensures at_most { D.fetches self.new.port ≤ D.fetches self.old.port + reads_of (plain_task self.old.task.value) }
        ensures later { D.fetches self.old.port ≤ D.fetches self.new.port }
        ensures faults { D.port_faults self.old.port ≤ D.port_faults self.new.port }
        ensures damaged { (name : Name) → IsErrOf result (Damaged name)
            → Any (HasDamaged D.tells name) (inputs_in (plain_task self.old.task.value)) × (D.fetches self.old.port < D.fetches self.new.port) }
        ensures unread { IfErr result (IsUnread D.tells D.ports_fail (inputs_in (plain_task self.old.task.value)) (D.port_faults self.old.port) (D.port_faults self.new.port)) }
    {
        if self.made.is_some() {
            return Ok(());
        }
        match self.task.outcome(alloc, &mut self.port) {
            Ok(made) => {
                self.made = Some(made);
                Ok(())
            }
            Err(why) => {
                self.refused = true;
                Err(told_as(why))
            }
        }
    }

    /// The next page that the job has to write, and None where all are written. The first call makes the outputs.
    ///
    /// # Errors
    ///
    /// What the first call's reads are refused for. The job can then only be cancelled.
    pub fn next_piece(&mut self, alloc: Global) -> Result<Option<Piece>, Refused>
        requires erases { All (λ erase. erase.time ≤ max_time) (erases_of (plain_task self.old.task.value)) }
        requires job { IsJob D.tells self.old }
        requires asked { self.old.refused ≡ false }
        ensures job { IsJob D.tells self.new }
        ensures number { self.new.number ≡ self.old.number }
        ensures round { self.new.round ≡ self.old.round }
        ensures task { self.new.task.value ≡ self.old.task.value }
        ensures written { self.new.written ≡ self.old.written }
        ensures made { OnOk result (IsSome self.new.made) }
        ensures ok { OnOk result (self.new.refused ≡ false) }
        ensures err { OnErr result (self.new.refused ≡ true) }
        ensures kept { IsSome self.old.made → self.new.made ≡ self.old.made }
        ensures still { IsSome self.old.made → self.new.port ≡ self.old.port }
        ensures ready { IsSome self.old.made → IsOk result }

        // The next page is the first that isn't written.
        ensures place { IfOk result (λ next. IfSome next (λ piece. piece.place ≡ self.old.written)) }
        ensures left { IfOk result (λ next. IfSome self.new.made (λ made. IsSome next ↔ (self.old.written < length (pages_of made)))) }

        // The first call reads each page of a merge's inputs once, and of a sweep's file those that its header tells.
        ensures fetches { self.old.made ≡ None → OnOk result (D.fetches self.new.port ≡ D.fetches self.old.port + reads_of (plain_task self.old.task.value)) }
        ensures at_most { D.fetches self.new.port ≤ D.fetches self.old.port + reads_of (plain_task self.old.task.value) }
        ensures later { D.fetches self.old.port ≤ D.fetches self.new.port }
        ensures faults { D.port_faults self.old.port ≤ D.port_faults self.new.port }

        // Where a page is told as damaged, a fetch was made in this call, and it is a page of one of the inputs, and another one than was written.
        ensures damaged { (name : Name) → IsErrOf result (Damaged name)
            → Any (HasDamaged D.tells name) (inputs_in (plain_task self.old.task.value)) × (D.fetches self.old.port < D.fetches self.new.port) }
        ensures unread { IfErr result (IsUnread D.tells D.ports_fail (inputs_in (plain_task self.old.task.value)) (D.port_faults self.old.port) (D.port_faults self.new.port)) }
    {
        self.make(alloc)?;
        let place = self.written;
        match &self.made {
            Some(made) if place < made.page_count() => Ok(Some(Piece { place })),
            _ => Ok(None),
        }
    }

    /// The first page that isn't written of what it made.
    pub fn next_page(&self) -> &[u8]
        requires made { IsSome self.now.made }
        requires left { IfSome self.now.made (λ made. self.now.written < length (pages_of made)) }
        ensures { result.now ≡ next_bytes self.now }
    {
        let Some(made) = &self.made else {
            unreachable!()
        };
        made.page_at(self.written)
    }

    /// Tells it that its next page is written.
    pub fn count_written(&mut self)
        requires job { IsJob D.tells self.old }
        requires made { IsSome self.old.made }
        requires left { IfSome self.old.made (λ made. self.old.written < length (pages_of made)) }
        ensures job { IsJob D.tells self.new }
        ensures written { self.new ≡ record self.old { written = self.old.written + 1 } }
    {
        self.written += 1;
    }

    /// Gives away what it made, where that is made.
    pub fn take_made(&mut self) -> Option<Made>
        ensures given { result ≡ self.old.made }
        ensures lacks { self.new ≡ record self.old { made = None } }
    {
        self.made.take()
    }
}
