//! The names of a file's pages.
ghost use Rattle.std.specs.Prelude.{◌≡◌, ◌++◌, map, OnOk};
ghost use Rattle.lethe_file.specs.Agreement.{page_name};
ghost use Rattle.lethe_header.specs.Facts.{lines_of};

use lethe_base::{Kind, Name, NoMemory};
use lethe_header::{Header, PageLine};

/// Adds the names of the pages of the file of this header.
pub fn add_pages_of(names: &mut Vec<Name>, header: &Header) -> Result<(), NoMemory>
    ensures { OnOk result (names.new.items ≡ names.old.items ++ map (λ line. page_name line.no) (lines_of header.now.tiles)) }
{
    for tile in header.tiles.items() {
        add_pages(names, tile.pages.items())?;
    }
    Ok(())
}

/// Adds the names of the pages.
fn add_pages(names: &mut Vec<Name>, lines: &[PageLine]) -> Result<(), NoMemory>
    ensures { OnOk result (names.new.items ≡ names.old.items ++ map (λ line. page_name line.no) lines.now) }
{
    for line in lines {
        names.push(Name {
            kind: Kind::Page,
            no: line.no,
        })?;
    }
    Ok(())
}
