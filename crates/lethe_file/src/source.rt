//! Where pages are fetched from.
ghost use Rattle.std.specs.Prelude.{◌≡◌, ◌+◌, ℕ, List, IfOk, IsErrOf};
ghost use Rattle.lethe_disk.specs.Disk.{HasCause};
ghost use Rattle.lethe_disk.specs.declared.disk.DiskRefused.TheVariants.{Failed};

use lethe_disk::{Disk, DiskRefused};
use std::alloc::Global;

/// What a fetch asks of a kind of disk, by the words of `Disk`. Each kind of disk is one. It is a trait of its own because it
/// says nothing of threads: a method of a trait can't pass on a bound that does.
pub trait PageSource {
    type Page: Drop;

    type Port;

    ghost tells: { Type 0 };

    ghost ports_fail: { Type 0 };

    ghost page_bytes: { Self.Page → List ℕ };

    ghost port_faults: { Self.Port → ℕ };

    ghost fetches: { Self.Port → ℕ };

    fn fetch_bytes(
        alloc: Global,
        port: &mut Self::Port,
        page: &Self::Page,
    ) -> Result<Vec<u8>, DiskRefused>
        ensures done { tells → IfOk result (λ bytes. bytes.items ≡ page_bytes page.now) }
        ensures counted { fetches port.new ≡ fetches port.old + 1 }
        ensures cause { HasCause (port_faults port.old) (port_faults port.new) result }
        ensures can_fail { IsErrOf result Failed → ports_fail };

    fn count_faults(port: &Self::Port) -> u64
        ensures { result ≡ port_faults port.now };
}

impl<D: Disk> PageSource for D {
    type Page = D::Page;

    type Port = D::Port;

    ghost tells = { D.tells };

    ghost ports_fail = { D.ports_fail };

    ghost page_bytes = { D.page_bytes };

    ghost port_faults = { D.port_faults };

    ghost fetches = { D.fetches };

    fn fetch_bytes(
        alloc: Global,
        port: &mut D::Port,
        page: &D::Page,
    ) -> Result<Vec<u8>, DiskRefused> {
        D::fetch(alloc, port, page)
    }

    fn count_faults(port: &D::Port) -> u64 {
        D::port_faults(port)
    }
}
