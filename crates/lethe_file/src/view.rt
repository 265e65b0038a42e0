//! A file as its readers see it.
ghost use Rattle.std.specs.Prelude.{◌≡◌, ◌+◌, ◌<◌, ◌≤◌, ℕ, List, map, length, slice_get, Some, IfOk, IfSome, IsErrOf};
ghost use Rattle.std.specs.Option.{option_copied};
ghost use Rattle.lethe_base.specs.declared.name.Name.{Name};
ghost use Rattle.lethe_disk.specs.Reads.{HasReadCause, IsFault};
ghost use Rattle.lethe_disk.specs.declared.cursor.ReadRefused.TheVariants.{Damaged};
ghost use Rattle.lethe_header.specs.declared.header.PageLine.{PageLine};
ghost use Rattle.lethe_file.specs.Agreement.{FileAgrees, IsPage, entries_in};
ghost use Rattle.lethe_file.specs.Between.{AreBetween, numbers_between};
ghost use Rattle.lethe_file.specs.Damage.{IsDamagedAmong, IsDamagedAs, IsDamagedFor, IsVouched};
ghost use Rattle.lethe_file.specs.Finding.{AreStarts, IsEntryOf, allowed_pages};
ghost use Rattle.lethe_file.specs.Waiting.{awaited_in};
ghost use Rattle.lethe_header.proofs.Props.{HasSpelling-prop};
ghost use Rattle.lethe_header.specs.Headers.{HasSpelling};
ghost use Rattle.lethe_header.specs.Facts.{lines_of, facts_of};

use crate::cursor::FileCursor;
use crate::fetching::fetch_line;
use crate::finding::{find_in, line_at, part_of_tile, starts_of, tile_of};
use crate::holding::hold_tiles;
use crate::range::KeyRange;
use crate::unread::Unread;
use lethe_base::{Entry, FileFacts, Key, NoMemory};
use lethe_disk::{Cursor, Disk, ReadRefused};
use lethe_header::Header;
use std::alloc::Global;
use std::sync::Arc;

/// A file: its header and its pages, which are opened and stay on the disk. Versions of the store share a page.
#[derive(Drop)]
pub struct FileView<D: Disk> {
    pub(crate) header: Header,
    pub(crate) pages: Vec<Arc<D::Page>>,

    // Of each tile, how many pages stand in the tiles in front of it.
    starts: Vec<usize>,
    ghost spelled: { HasSpelling header } by { HasSpelling-prop header },
    ghost paged: { length pages.items ≡ length (lines_of header.tiles) },
    ghost starting: { AreStarts header.tiles starts.items },
}

impl<D: Disk> FileView<D> {
    /// The file of this header, which has a spelling, and these pages, one for each page line, in their order.
    pub fn new(
        alloc: Global,
        header: Header,
        pages: Vec<Arc<D::Page>>,
    ) -> Result<FileView<D>, NoMemory>
        requires spelled { HasSpelling header }
        requires paged { length pages.items ≡ length (lines_of header.tiles) }
        ensures header { IfOk result (λ file. file.header ≡ header) }
        ensures pages { IfOk result (λ file. file.pages ≡ pages) }
    {
        let starts = starts_of(alloc, header.tiles.items())?;
        Ok(FileView {
            header,
            pages,
            starts,
        })
    }

    /// Its header.
    pub fn header(&self) -> &Header
        ensures { result.now ≡ self.now.header }
    {
        &self.header
    }

    /// The page at a place in the order of the page lines, from 0.
    pub fn page(&self, place: usize) -> Option<&Arc<D::Page>>
        ensures { option_copied result ≡ slice_get self.now.pages.items place }
    {
        self.pages.get(place)
    }

    /// The facts of the file, which stands in that level and is swept up to that place. Only its two keys are copied.
    pub fn facts(&self, level: u64, swept: u64) -> Result<FileFacts, NoMemory>
        ensures { IfOk result (λ facts. facts ≡ facts_of level swept self.now.header) }
    {
        self.header.facts(level, swept)
    }

    /// The entries of the page at a place, with one fetch.
    pub fn fetch_page(
        &self,
        alloc: Global,
        port: &mut D::Port,
        place: usize,
    ) -> Result<Vec<Entry>, ReadRefused>
        requires { place < length self.now.pages.items }

        // On any disk the entries are those of a page of the digest, the class and the number of entries that the line tells of.
        ensures page { (line : PageLine) → slice_get (lines_of self.now.header.tiles) place ≡ Some line → IfOk result (λ entries. IsPage line entries.items) }
        ensures told { D.tells → IfOk result (λ entries. slice_get (map entries_in (map (λ page. D.page_bytes page.value) self.now.pages.items)) place ≡ Some entries.items) }

        // A page is told as damaged only where the bytes that were fetched are another page's.
        ensures damaged { (line : PageLine) (bytes : List ℕ) → slice_get (lines_of self.now.header.tiles) place ≡ Some line
            → slice_get (map (λ page. D.page_bytes page.value) self.now.pages.items) place ≡ Some bytes
            → (name : Name) → IsErrOf result (Damaged name) → IsDamagedAs D.tells name line bytes }
        ensures undamaged { D.tells → FileAgrees self.now.header.tiles (map (λ page. D.page_bytes page.value) self.now.pages.items)
            → (name : Name) → IsErrOf result (Damaged name) → ⊥ }
        ensures fetches { D.fetches port.new ≡ D.fetches port.old + 1 }
        ensures cause { HasReadCause (D.port_faults port.old) (D.port_faults port.new) result }
        ensures can_fail { IsFault result → D.ports_fail }
    {
        let line = line_at(self.header.tiles.items(), &self.starts, place);
        fetch_line::<D>(alloc, port, line, &self.pages[place])
    }

    /// The entry of the key. A page is fetched only where its tile's fence has the key and its filter allows it.
    pub fn find(
        &self,
        alloc: Global,
        port: &mut D::Port,
        key: &Key,
    ) -> Result<Option<Entry>, ReadRefused>
        ensures found { D.tells → FileAgrees self.now.header.tiles (map (λ page. D.page_bytes page.value) self.now.pages.items)
            → IfOk result (IsEntryOf key.now (map entries_in (map (λ page. D.page_bytes page.value) self.now.pages.items))) }

        // None where no tile has the key.
        ensures fetches { D.fetches port.new ≤ D.fetches port.old + allowed_pages key.now self.now.header.tiles }
        ensures later { D.fetches port.old ≤ D.fetches port.new }

        // Where a page is told as damaged, a fetch was made in this call, since the key may be there, and it is another page.
        ensures damaged { (name : Name) → IsErrOf result (Damaged name)
            → IsDamagedFor D.tells key.now self.now.header.tiles (map (λ page. D.page_bytes page.value) self.now.pages.items) name × (D.fetches port.old < D.fetches port.new) }

        // On any disk the entry has the key, and a line of the file vouches for it.
        ensures vouched { IfOk result (λ found. IfSome found (λ entry. (entry.key ≡ key.now) × IsVouched (lines_of self.now.header.tiles) entry)) }
        ensures undamaged { D.tells → FileAgrees self.now.header.tiles (map (λ page. D.page_bytes page.value) self.now.pages.items)
            → (name : Name) → IsErrOf result (Damaged name) → ⊥ }
        ensures cause { HasReadCause (D.port_faults port.old) (D.port_faults port.new) result }
        ensures can_fail { IsFault result → D.ports_fail }
    {
        let tiles = self.header.tiles.items();
        let tile = tile_of(tiles, key);
        if tile == tiles.len() {
            return Ok(None);
        }
        let pages = part_of_tile(tiles, tile, self.starts[tile], &self.pages);
        find_in::<D>(alloc, port, key, tiles[tile].pages.items(), pages)
    }

    /// A cursor over the entries from `lo` up to `hi`, which is excluded; to the end where there is no `hi`. It fetches nothing
    /// yet, and a tile whose keys are all outside of the range never.
    pub fn cursor(
        &self,
        alloc: Global,
        lo: &Key,
        hi: Option<&Key>,
    ) -> Result<FileCursor<D>, NoMemory>
        ensures sound { D.tells → FileAgrees self.now.header.tiles (map (λ page. D.page_bytes page.value) self.now.pages.items)
            → IfOk result (λ cursor. ⟦<FileCursor<D> as Cursor<D>>⟧.sound cursor) }
        ensures left { FileAgrees self.now.header.tiles (map (λ page. D.page_bytes page.value) self.now.pages.items)
            → IfOk result (λ cursor. AreBetween lo.now (option_copied hi.entry) (map entries_in (map (λ page. D.page_bytes page.value) self.now.pages.items)) (⟦<FileCursor<D> as Cursor<D>>⟧.left cursor)) }

        // A page that it may tell as damaged is one of the file's, whose bytes are another page's.
        ensures damages { IfOk result (λ cursor. (name : Name) → ⟦<FileCursor<D> as Cursor<D>>⟧.damages cursor name
            → IsDamagedAmong D.tells (lines_of self.now.header.tiles) (map (λ page. D.page_bytes page.value) self.now.pages.items) name) }

        // On any disk a line of the file vouches for what it gives.
        ensures gives { IfOk result (λ cursor. (entry : Entry) → ⟦<FileCursor<D> as Cursor<D>>⟧.gives cursor entry → IsVouched (lines_of self.now.header.tiles) entry) }

        // Each page of a tile that meets the range is fetched once, and no other page.
        ensures pages { IfOk result (λ cursor. awaited_in D.page_bytes cursor.unread ≡ numbers_between lo.now (option_copied hi.entry) self.now.header.tiles) }
    {
        let range = KeyRange::of(lo, hi)?;
        let tiles = hold_tiles::<D>(alloc, self.header.tiles.items(), &self.pages, &range)?;
        Ok(FileCursor {
            unread: Unread {
                range,
                tiles,
                entries: Vec::new(alloc),
            },
        })
    }
}
