//! Whether pages agree with their lines.
ghost use Rattle.std.specs.Prelude.{◌<◌, length};
ghost use Rattle.lethe_header.specs.Headers.{HasSpelling, IsLine, IsTile};

use crate::common::{FILE, PAGE_AC, PAGE_BD, changed};
use crate::opening::header_of;
use lethe_agreement::{TakenKeys, is_sound};
use lethe_header::{Header, PageLine, TileLine};
use std::alloc::Global;
use std::process::Abort;

/// Where the tile's greatest key stands in the file.
const GREATEST_KEY: usize = 16;

fn line_at(tile: &TileLine, place: usize) -> &PageLine
    requires tile { IsTile tile.now }
    requires place { place < length tile.now.pages }
    ensures { IsLine result.now }
{
    &tile.pages.items()[place]
}

/// Whether the page is sound with the line at the place, in the file's first tile.
fn is_sound_at(
    alloc: Global,
    rt: &impl Abort,
    header: &Header,
    place: usize,
    taken: &mut TakenKeys,
    bytes: &[u8],
) -> bool
    requires { HasSpelling header.now }
{
    let tile = &header.tiles.items()[0];
    assert!(rt; place < tile.pages.items().len());
    is_sound(alloc, tile, line_at(tile, place), taken, bytes).expect(rt, "memory")
}

/// The place of a line, the bytes that are tried as its page, and whether they are told to be sound.
type Row<'a> = (usize, &'a [u8], bool);

/// Tries the pages in turn. What is told of each has to be as its row says.
fn check_rows(alloc: Global, rt: &impl Abort, file: &[u8], rows: &[Row]) {
    let header = header_of(alloc, rt, file);
    let mut taken = TakenKeys::new(alloc);
    for (row, (place, bytes, sound)) in rows.iter().enumerate() {
        let told = is_sound_at(alloc, rt, &header, *place, &mut taken, bytes);
        assert_eq!(rt; told, *sound, "row {row}");
    }
}

#[test]
fn the_keys_of_sound_pages_are_taken(rt: HostRuntime) {
    let rows: [Row; 3] = [(0, PAGE_AC, true), (1, PAGE_BD, true), (0, PAGE_AC, false)];
    check_rows(rt.alloc(), &rt, FILE, &rows);
}

#[test]
fn other_bytes_are_unsound(rt: HostRuntime) {
    let alloc = rt.alloc();
    let changed = changed(alloc, &rt, PAGE_AC, 53, b'y');
    let rows: [Row; 5] = [
        (0, &changed, false),
        (0, &PAGE_AC[..53], false),
        (0, PAGE_BD, false),
        (0, b"", false),
        (0, PAGE_AC, true),
    ];
    check_rows(alloc, &rt, FILE, &rows);
}

#[test]
fn a_key_outside_of_the_tile_is_unsound(rt: HostRuntime) {
    let alloc = rt.alloc();
    let file = changed(alloc, &rt, FILE, GREATEST_KEY, b'c');
    let rows: [Row; 2] = [(0, PAGE_AC, true), (1, PAGE_BD, false)];
    check_rows(alloc, &rt, &file, &rows);
}
