//! Fetching a page.
ghost use Rattle.std.specs.Prelude.{◌≡◌, ◌+◌, ◌<◌, ℕ, List, IfOk, IsErrOf};
ghost use Rattle.lethe_base.specs.declared.entry.Entry.{Entry};
ghost use Rattle.lethe_base.specs.declared.name.Name.{Name};
ghost use Rattle.lethe_disk.specs.Reads.{HasReadCause, IsFault};
ghost use Rattle.lethe_disk.specs.declared.cursor.ReadRefused.TheVariants.{Damaged};
ghost use Rattle.lethe_page.specs.Pages.{page_bytes};
ghost use Rattle.lethe_file.specs.Agreement.{IsChecked, IsPage, check_of, page_name};
ghost use Rattle.lethe_file.specs.Damage.{IsDamagedAs, IsOther, refused_as};
ghost use Rattle.lethe_file.specs.Finding.{IsFoundIn};

use crate::page::{PageCheck, PageFault, check_of, found_in_page, page_of};
use crate::source::PageSource;
use lethe_base::{Entry, Key, Kind, Name};
use lethe_disk::{Disk, DiskRefused, ReadRefused};
use lethe_header::PageLine;
use std::alloc::Global;

/// The entries of the page that the line tells of, with one fetch.
pub fn fetch_line<D: Disk>(
    alloc: Global,
    port: &mut D::Port,
    line: &PageLine,
    page: &D::Page,
) -> Result<Vec<Entry>, ReadRefused>
    ensures page { IfOk result (λ entries. IsPage line.now entries.items) }
    ensures told { D.tells → IfOk result (λ entries. D.page_bytes page.now ≡ page_bytes line.now.class entries.items) }

    // A page is told as damaged only where the bytes that were fetched are another page's.
    ensures damaged { (name : Name) → IsErrOf result (Damaged name) → IsDamagedAs D.tells name line.now (D.page_bytes page.now) }
    ensures undamaged { D.tells → (entries : List Entry) → IsPage line.now entries → D.page_bytes page.now ≡ page_bytes line.now.class entries
        → (name : Name) → IsErrOf result (Damaged name) → ⊥ }
    ensures fetches { D.fetches port.new ≡ D.fetches port.old + 1 }
    ensures cause { HasReadCause (D.port_faults port.old) (D.port_faults port.new) result }
    ensures can_fail { IsFault result → D.ports_fail }
{
    fetch_checked::<D>(alloc, port, &check_of(line), page)
}

/// The entries of the page that is told of, with one fetch.
pub fn fetch_checked<S: PageSource>(
    alloc: Global,
    port: &mut S::Port,
    check: &PageCheck,
    page: &S::Page,
) -> Result<Vec<Entry>, ReadRefused>
    ensures page { IfOk result (λ entries. IsChecked check.now entries.items) }
    ensures told { S.tells → IfOk result (λ entries. S.page_bytes page.now ≡ page_bytes check.now.class entries.items) }
    ensures damaged { (name : Name) → IsErrOf result (Damaged name) → (name ≡ page_name check.now.no) × IsOther S.tells check.now (S.page_bytes page.now) }
    ensures undamaged { S.tells → (entries : List Entry) → IsChecked check.now entries → S.page_bytes page.now ≡ page_bytes check.now.class entries
        → (name : Name) → IsErrOf result (Damaged name) → ⊥ }
    ensures fetches { S.fetches port.new ≡ S.fetches port.old + 1 }
    ensures cause { HasReadCause (S.port_faults port.old) (S.port_faults port.new) result }
    ensures can_fail { IsFault result → S.ports_fail }
{
    let bytes = match fetch_whole::<S>(alloc, port, page) {
        Ok(bytes) => bytes,
        Err(why) => return Err(why),
    };
    match page_of(alloc, check, &bytes) {
        Ok(entries) => Ok(entries),
        Err(fault) => Err(refused_as(fault, check)),
    }
}

/// The entry of the key in the page that the line tells of, with one fetch.
pub fn find_line<D: Disk>(
    alloc: Global,
    port: &mut D::Port,
    key: &Key,
    line: &PageLine,
    page: &D::Page,
) -> Result<Option<Entry>, ReadRefused>
    // On any disk it is the entry in some page that the line tells of.
    ensures page { IfOk result (λ found. (bytes : List ℕ) × IsFoundIn (check_of line.now) key.now bytes found) }
    ensures told { D.tells → IfOk result (IsFoundIn (check_of line.now) key.now (D.page_bytes page.now)) }

    // A page is told as damaged only where the bytes that were fetched are another page's.
    ensures damaged { (name : Name) → IsErrOf result (Damaged name) → IsDamagedAs D.tells name line.now (D.page_bytes page.now) }
    ensures undamaged { D.tells → (entries : List Entry) → IsPage line.now entries → D.page_bytes page.now ≡ page_bytes line.now.class entries
        → (name : Name) → IsErrOf result (Damaged name) → ⊥ }
    ensures fetches { D.fetches port.new ≡ D.fetches port.old + 1 }
    ensures cause { HasReadCause (D.port_faults port.old) (D.port_faults port.new) result }
    ensures can_fail { IsFault result → D.ports_fail }
{
    find_checked::<D>(alloc, port, key, &check_of(line), page)
}

/// The entry of the key in the page that is told of, with one fetch.
fn find_checked<S: PageSource>(
    alloc: Global,
    port: &mut S::Port,
    key: &Key,
    check: &PageCheck,
    page: &S::Page,
) -> Result<Option<Entry>, ReadRefused>
    ensures page { IfOk result (λ found. (bytes : List ℕ) × IsFoundIn check.now key.now bytes found) }
    ensures told { S.tells → IfOk result (IsFoundIn check.now key.now (S.page_bytes page.now)) }
    ensures damaged { (name : Name) → IsErrOf result (Damaged name) → (name ≡ page_name check.now.no) × IsOther S.tells check.now (S.page_bytes page.now) }
    ensures undamaged { S.tells → (entries : List Entry) → IsChecked check.now entries → S.page_bytes page.now ≡ page_bytes check.now.class entries
        → (name : Name) → IsErrOf result (Damaged name) → ⊥ }
    ensures fetches { S.fetches port.new ≡ S.fetches port.old + 1 }
    ensures cause { HasReadCause (S.port_faults port.old) (S.port_faults port.new) result }
    ensures can_fail { IsFault result → S.ports_fail }
{
    let bytes = match fetch_whole::<S>(alloc, port, page) {
        Ok(bytes) => bytes,
        Err(why) => return Err(why),
    };
    match found_in_page(alloc, check, &bytes, key) {
        Ok(found) => Ok(found),
        Err(fault) => Err(refused_as(fault, check)),
    }
}

/// The bytes of the page, with one fetch.
fn fetch_whole<S: PageSource>(
    alloc: Global,
    port: &mut S::Port,
    page: &S::Page,
) -> Result<Vec<u8>, ReadRefused>
    ensures told { S.tells → IfOk result (λ bytes. bytes.items ≡ S.page_bytes page.now) }
    ensures undamaged { (name : Name) → IsErrOf result (Damaged name) → ⊥ }
    ensures fetches { S.fetches port.new ≡ S.fetches port.old + 1 }
    ensures cause { HasReadCause (S.port_faults port.old) (S.port_faults port.new) result }
    ensures can_fail { IsFault result → S.ports_fail }
{
    let before = S::count_faults(port);
    match S::fetch_bytes(alloc, port, page) {
        Ok(bytes) => Ok(bytes),
        Err(DiskRefused::Failed) => Err(ReadRefused::ReadFault {
            before,
            after: S::count_faults(port),
        }),
        Err(DiskRefused::NoMemory) => Err(ReadRefused::NoMemory),
    }
}

/// What a read tells where the bytes aren't the page that is told of.
fn refused_as(fault: PageFault, check: &PageCheck) -> ReadRefused
    ensures { result ≡ refused_as fault check.now }
{
    match fault {
        PageFault::Other => ReadRefused::Damaged {
            name: Name {
                kind: Kind::Page,
                no: check.no,
            },
        },
        PageFault::NoMemory => ReadRefused::NoMemory,
    }
}
