//! What a job makes.
ghost use Rattle.std.specs.Prelude.{◌≡◌, ◌<◌, ◌^◌, [], length, slice_index_or, sum_by};
ghost use Rattle.lethe_job.specs.MadeOf.{numbers_in, pages_of};
ghost use Rattle.lethe_build.specs.Drafts as made;
ghost use Rattle.lethe_build.specs.Drafts.{numbers_for};

use lethe_build::{Draft, numbers_for};
use lethe_swept::SweptDraft;

/// What a job makes: files that aren't written yet.
#[derive(Debug, Drop)]
pub enum Made {
    /// The drafts of a merge's outputs.
    Files(Vec<Draft>),
    /// The draft of what a sweep leaves of its file, and none where it leaves nothing.
    Left(Option<SweptDraft>),
}

impl Made {
    /// How many numbers it takes: one for each page that is to be written, and one for each header.
    pub fn numbers(&self) -> u64
        requires { numbers_in self.now < 2 ^ 63 }
        ensures { result ≡ numbers_in self.now }
    {
        match self {
            Made::Files(drafts) => numbers_for(drafts),
            Made::Left(Some(draft)) => draft.numbers_for(),
            Made::Left(None) => 0,
        }
    }

    /// How many pages are to be written of it.
    pub fn page_count(&self) -> usize
        requires { numbers_in self.now < 2 ^ 63 }
        ensures { result ≡ length (pages_of self.now) }
    {
        match self {
            Made::Files(drafts) => draft_pages(drafts),
            Made::Left(Some(draft)) => draft.pages.items().len(),
            Made::Left(None) => 0,
        }
    }

    /// The page at a place among those that are to be written.
    pub fn page_at(&self, place: usize) -> &[u8]
        requires { place < length (pages_of self.now) }
        ensures { result.now ≡ slice_index_or (pages_of self.now) place [] }
    {
        match self {
            Made::Files(drafts) => draft_page(drafts, place),
            Made::Left(Some(draft)) => draft.pages.items()[place].items(),
            Made::Left(None) => unreachable!(),
        }
    }
}

/// How many pages the drafts have.
fn draft_pages(drafts: &[Draft]) -> usize
    requires { sum_by numbers_for drafts.now < 2 ^ 63 }
    ensures { result ≡ length (made.pages_in drafts.now) }
{
    numbers_for(drafts) as usize - drafts.len()
}

/// The page at a place among those of the drafts.
fn draft_page(drafts: &[Draft], place: usize) -> &[u8]
    requires { place < length (made.pages_in drafts.now) }
    ensures { result.now ≡ slice_index_or (made.pages_in drafts.now) place [] }
{
    let mut left = place;
    for draft in drafts {
        let pages = draft.pages.items();
        if left < pages.len() {
            return pages[left].items();
        }
        left -= pages.len();
    }
    unreachable!()
}
