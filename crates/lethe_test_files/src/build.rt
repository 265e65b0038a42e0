//! Files that are built of entries.
ghost use Rattle.std.specs.Prelude.{◌≤◌, All};
ghost use Rattle.lethe_base.specs.Limits.{max_place};
ghost use Rattle.lethe_base.specs.Spelling.{HasSpelling};
ghost use Rattle.lethe_build.specs.Drafts.{IsDraft};
ghost use Rattle.lethe_header.specs.Headers.{HasSpelling as IsHeader};

use crate::common::{FILE, PAGE_AC, PAGE_BD};
use crate::opening::header_of;
use lethe_base::{Body, Config, Entry, Fields, List, MAX_PLACE, Pick, read_entry, write_entry};
use lethe_build::{Built, Draft, drafts_of, numbers_for};
use lethe_header::{Header, PageLine, write_header};
use lethe_page::read_page;
use lethe_test_values::{key_of, value_of};
use lethe_tile::is_ascending;
use std::alloc::Global;
use std::process::Abort;
use std::slice;

/// Pages of `page` entries, tiles of `tile` pages and files of two tiles.
pub fn config_of(rt: &impl Abort, page: u64, tile: u64) -> Config {
    let fields = Fields {
        threshold: 100,
        ratio: 2,
        levels: 2,
        page,
        tile,
        file: 2,
        buffer: 2,
        pick: Pick::So,
    };
    Config::new(fields).expect(rt, "a configuration")
}

/// The entry as its spelling is read, so that it has one.
pub fn spelled(alloc: Global, rt: &impl Abort, entry: Entry) -> Entry
    ensures { HasSpelling result }
{
    let mut bytes = Vec::new(alloc);
    write_entry(&mut bytes, &entry).expect(rt, "memory");
    let (entry, _) = read_entry(alloc, &bytes, 0).expect(rt, "an entry");
    entry
}

/// The entry of a word as `a=11` or `a-`: a letter and its delete key, or `-` at a tombstone.
fn entry_of(alloc: Global, rt: &impl Abort, word: &str, seq: u64) -> Entry
    ensures { HasSpelling result }
{
    let (key, body, since) = match word.split_once('=') {
        Some((key, dkey)) => {
            let dkey = dkey.parse().expect(rt, "a delete key");
            let value = value_of(alloc, b"x").expect(rt, "a value");
            (key, Body::Put { dkey, value }, None)
        }
        None => (word.trim_end_matches('-'), Body::Tomb, Some(seq)),
    };
    let key = key_of(alloc, key).expect(rt, "a key");
    spelled(
        alloc,
        rt,
        Entry {
            seq,
            key,
            body,
            since,
        },
    )
}

/// The entries of a row of such words, with the places 1, 2 and so on.
fn entries_of(alloc: Global, rt: &impl Abort, row: &[&str]) -> Vec<Entry>
    ensures { All HasSpelling result.items }
{
    let mut entries = Vec::new(alloc);
    for word in row {
        let seq = entries.len() as u64 + 1;
        entries
            .push(entry_of(alloc, rt, word, seq))
            .expect(rt, "memory");
    }
    entries
}

/// The next number, which is taken.
fn draw(rt: &impl Abort, next: &mut u64) -> u64
    ensures { result ≤ max_place }
{
    let number = *next;
    assert!(rt; number <= MAX_PLACE);
    *next = number + 1;
    number
}

/// The draft's file: its pages have the next numbers in their order, and its header the one behind them.
fn number(alloc: Global, rt: &impl Abort, draft: Draft, next: &mut u64) -> Built
    requires { IsDraft draft }
{
    let mut numbers = Vec::new(alloc);
    while numbers.len() < draft.pages.items().len() {
        numbers.push(draw(rt, next)).expect(rt, "memory");
    }
    let no = draw(rt, next);
    draft.numbered(alloc, &numbers, no).expect(rt, "memory")
}

/// The files of a few entries, numbered one after another from `first` on.
pub fn build_files(
    alloc: Global,
    rt: &impl Abort,
    entries: Vec<Entry>,
    config: &Config,
    first: u64,
) -> Vec<Built>
    requires { All HasSpelling entries.items }
{
    assert!(rt; is_ascending(&entries) && entries.len() < 10);
    let drafts = drafts_of(alloc, entries, config).expect(rt, "memory");
    let count = numbers_for(&drafts);
    let mut next = first;
    let mut files = Vec::new(alloc);
    for draft in drafts {
        files
            .push(number(alloc, rt, draft, &mut next))
            .expect(rt, "memory");
    }
    assert_eq!(rt; next.checked_sub(first), Some(count));
    files
}

/// Adds the numbers of the file's pages, and behind `:` that of its header.
fn write_numbers(rt: &impl Abort, text: &mut String, file: &Built) {
    for tile in file.header.tiles.items() {
        for line in tile.pages.items() {
            write!(text, "{} ", line.no).expect(rt, "memory");
        }
    }
    write!(text, ":{} ", file.header.no).expect(rt, "memory");
}

/// The numbers of the files.
fn numbers_in(alloc: Global, rt: &impl Abort, files: &[Built]) -> String {
    let mut text = String::new(alloc);
    for file in files {
        write_numbers(rt, &mut text, file);
    }
    text
}

/// Whether what is read of the header is what the file says of it.
fn is_header_of(alloc: Global, rt: &impl Abort, header: &Header, file: &Built) -> bool
    requires { IsHeader header.now }
{
    let bytes = write_header(alloc, header).expect(rt, "memory");
    header.no == file.header.no && bytes.as_slice() == file.header_bytes.items()
}

/// Whether what is read of the page is what the line says of it.
fn is_page_of(alloc: Global, rt: &impl Abort, line: &PageLine, page: &[u8]) -> bool {
    let (class, entries) = read_page(alloc, page).expect(rt, "a page");
    class == line.class && entries.len() == line.entries as usize
}

/// What is read of the pages has to be what these lines say of them. It takes the pages from the front of what is left.
fn check_pages(
    alloc: Global,
    rt: &impl Abort,
    lines: &[PageLine],
    left: &mut slice::Iter<List<u8>>,
) {
    for line in lines {
        let page = left.next().expect(rt, "a page");
        assert!(rt; is_page_of(alloc, rt, line, page.items()));
    }
}

/// What is read of the file's objects has to be what the file says of them.
fn check_read_again(alloc: Global, rt: &impl Abort, file: &Built) {
    let header = header_of(alloc, rt, file.header_bytes.items());
    assert!(rt; is_header_of(alloc, rt, &header, file));
    let mut left = file.pages.items().iter();
    for tile in header.tiles.items() {
        check_pages(alloc, rt, tile.pages.items(), &mut left);
    }
    assert!(rt; left.next().is_none());
}

/// The files of a row, with pages of `size` entries and tiles of `size` pages. What they say is read again of their bytes.
fn built(alloc: Global, rt: &impl Abort, row: &[&str], size: u64, first: u64) -> Vec<Built> {
    let entries = entries_of(alloc, rt, row);
    let files = build_files(alloc, rt, entries, &config_of(rt, size, size), first);
    for file in &files {
        check_read_again(alloc, rt, file);
    }
    files
}

/// The digest of `FILE`.
const DIGEST: [u8; 32] =
    *b"\x05u`\xed\x9d\x14\x80{\xc1\xd1a$\x80\xd7\xd2\x83v\x1d\x7f=\xca\xdb\x80%\xd8\xd5\x93\xc9\xd8\xa9\xc0\x06";

/// The digest of the file of tombstones.
const DIGEST_OF_TOMBS: [u8; 32] =
    *b"\xa8Jq?\x81T\xe3ah\x9e\xd5^<\xc3\xe59\xbc\xac\x0e\x9a\xf4\xee\x02l\xc9\x93\x15\x13\xa7\xfd\x86<";

/// Whether the one file is `FILE` with its two pages.
fn are_the_file(files: &[Built]) -> bool {
    let [file] = files else {
        return false;
    };
    let [first, second] = file.pages.items() else {
        return false;
    };
    first.items() == PAGE_AC
        && second.items() == PAGE_BD
        && file.header_bytes.items() == FILE
        && file.digest == DIGEST
}

#[test]
fn one_file_is_built_of_four_entries(rt: HostRuntime) {
    let files = built(rt.alloc(), &rt, &["a=11", "b=15", "c=12", "d=30"], 2, 1);
    assert!(rt; are_the_file(&files));
}

#[test]
fn files_are_cut_and_numbered_in_turn(rt: HostRuntime) {
    let alloc = rt.alloc();
    let files = built(alloc, &rt, &["a=1", "b=2", "c=3", "d=4", "e=5"], 1, 4);
    let numbers = numbers_in(alloc, &rt, &files);
    assert_eq!(rt; numbers.as_str(), "4 5 :6 7 8 :9 10 :11 ");
    assert!(rt; built(alloc, &rt, &[], 1, 4).is_empty());
}

#[test]
fn tombstones_are_a_page_of_their_own(rt: HostRuntime) {
    let alloc = rt.alloc();
    let files = built(alloc, &rt, &["a=9", "b-", "c=7", "d-", "e=5"], 2, 10);
    let numbers = numbers_in(alloc, &rt, &files);
    assert_eq!(rt; numbers.as_str(), "10 11 12 :13 ");
    let digest = files.first().map(|file| file.digest);
    assert_eq!(rt; digest, Some(DIGEST_OF_TOMBS));
}
