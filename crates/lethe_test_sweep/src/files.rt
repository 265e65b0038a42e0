//! Files of a few entries, whose pages are in memory.
ghost use Rattle.std.specs.Prelude.{◌≡◌, ◌+◌, ◌≤◌, length, All, IfOk, OnOk};
ghost use Rattle.lethe_base.specs.Limits.{max_place};
ghost use Rattle.lethe_base.specs.Spelling.{HasSpelling};
ghost use Rattle.lethe_build.specs.Drafts.{IsDraft};
ghost use Rattle.lethe_header.specs.Headers.{HasSpelling as IsHeader};

use lethe_base::{
    Body, Config, Entry, Fields, Key, List, MAX_PLACE, Pick, Value, read_entry, write_entry,
};
use lethe_build::{Built, Draft, drafts_of};
use lethe_disk::Disk;
use lethe_file::FileView;
use lethe_header::{Header, PageLine, read_header};
use lethe_memdisk::{FlakyDisk, FlakyPort, MemDisk, MemPage};
use lethe_tile::is_ascending;
use std::alloc::Global;
use std::slice;
use std::sync::Arc;
use std::test::Fail;

/// Pages of two entries, tiles of two pages and files of two tiles.
fn config() -> Result<Config, Fail> {
    let fields = Fields {
        threshold: 100,
        ratio: 2,
        levels: 2,
        page: 2,
        tile: 2,
        file: 2,
        buffer: 4,
        pick: Pick::So,
    };
    Ok(Config::new(fields).map_err(|_| "no configuration")?)
}

/// The entry as its spelling is read, so that it has one.
fn spelled(alloc: Global, entry: Entry) -> Result<Entry, Fail>
    ensures { IfOk result HasSpelling }
{
    let mut bytes = Vec::new(alloc);
    write_entry(&mut bytes, &entry)?;
    let (entry, _) = read_entry(alloc, &bytes, 0).map_err(|_| "no entry")?;
    Ok(entry)
}

/// What is behind the key in the word of an entry: the delete key of a put, or none at a tombstone, and the time, if there is one.
fn parts_of(word: &str) -> Result<(&str, Option<u64>, Option<u64>), Fail> {
    if let Some((key, since)) = word.split_once('-') {
        return Ok((key, None, Some(since.parse()?)));
    }
    let (key, rest) = word.split_once('=').ok_or("a word")?;
    match rest.split_once('@') {
        Some((dkey, since)) => Ok((key, Some(dkey.parse()?), Some(since.parse()?))),
        None => Ok((key, Some(rest.parse()?), None)),
    }
}

/// The entry of a word: `a=11` is a put of `a` with the delete key 11, `a=11@3` one with the time 3, and `a-3` a tombstone with the time 3.
fn entry_of(alloc: Global, word: &str, seq: u64) -> Result<Entry, Fail>
    ensures { IfOk result HasSpelling }
{
    let (key, dkey, since) = parts_of(word)?;
    let body = match dkey {
        Some(dkey) => Body::Put {
            dkey,
            value: Value::new(b"x".to_vec(alloc)?)?,
        },
        None => Body::Tomb,
    };
    let key = Key::new(key.as_bytes().to_vec(alloc)?)?;
    spelled(
        alloc,
        Entry {
            seq,
            key,
            body,
            since,
        },
    )
}

/// The entries of the words in a text. Their places ascend from this one.
fn entries_of(alloc: Global, text: &str, first: u64) -> Result<Vec<Entry>, Fail>
    ensures { IfOk result (λ entries. All HasSpelling entries.items) }
{
    let mut entries = Vec::new(alloc);
    let mut seq = first;
    for word in text.split(' ') {
        entries.push(entry_of(alloc, word, seq)?)?;
        seq = seq.checked_add(1).ok_or("a place")?;
    }
    Ok(entries)
}

/// The draft's file: its pages have the numbers from 1 on.
fn number(alloc: Global, draft: Draft) -> Result<Built, Fail>
    requires { IsDraft draft }
{
    let count = draft.pages.items().len() as u64;
    if count >= MAX_PLACE {
        return Err(Fail::new("too many pages"));
    }
    let mut numbers = Vec::new(alloc);
    while numbers.len() < draft.pages.items().len() {
        numbers.push(numbers.len() as u64 + 1)?;
    }
    Ok(draft.numbered(alloc, &numbers, count + 1)?)
}

/// The one file of the words in a text.
fn built(alloc: Global, text: &str, first: u64) -> Result<Built, Fail> {
    let entries = entries_of(alloc, text, first)?;
    if !is_ascending(&entries) {
        return Err(Fail::new("keys that ascend"));
    }
    let mut drafts = drafts_of(alloc, entries, &config()?)?;
    match (drafts.pop(), drafts.is_empty()) {
        (Some(draft), true) => number(alloc, draft),
        _ => Err(Fail::new("one file")),
    }
}

fn header_of(alloc: Global, bytes: &[u8]) -> Result<Header, Fail>
    ensures { IfOk result IsHeader }
{
    match read_header(alloc, bytes) {
        Ok(header) => Ok(header),
        Err(_) => Err(Fail::new("a header")),
    }
}

/// The page of these bytes, of which the last one is another where the page is torn.
fn page_of(alloc: Global, bytes: &[u8], torn: bool) -> Result<Arc<MemPage>, Fail> {
    let mut bytes = bytes.to_vec(alloc)?;
    if torn {
        *bytes.last_mut().ok_or("a byte")? ^= 1;
    }
    Ok(Arc::new(alloc, MemPage::of(bytes))?)
}

/// Adds a page for each of these lines. It takes their bytes from the front of what is left.
fn add_pages(
    alloc: Global,
    lines: &[PageLine],
    left: &mut slice::Iter<List<u8>>,
    torn: Option<u64>,
    pages: &mut Vec<Arc<MemPage>>,
) -> Result<(), Fail>
    ensures { OnOk result (length pages.new.items ≡ length pages.old.items + length lines.now) }
{
    for line in lines {
        let bytes = left.next().ok_or("the bytes of a page")?;
        pages.push(page_of(alloc, bytes.items(), torn == Some(line.no))?)?;
    }
    Ok(())
}

/// The one file of the words in a text, whose places ascend from `first`. Its pages have the numbers from 1 on, and one of them may be torn.
pub fn file_of(
    alloc: Global,
    text: &str,
    first: u64,
    torn: Option<u64>,
) -> Result<FileView<FlakyDisk>, Fail> {
    let built = built(alloc, text, first)?;
    let header = header_of(alloc, built.header_bytes.items())?;
    let mut left = built.pages.items().iter();
    let mut pages = Vec::new(alloc);
    for tile in header.tiles.items() {
        add_pages(alloc, tile.pages.items(), &mut left, torn, &mut pages)?;
    }
    Ok(FileView::new(alloc, header, pages)?)
}

/// A port whose fetch of that number fails.
pub fn port_of(alloc: Global, failing: u64) -> Result<FlakyPort, Fail> {
    let inner = MemDisk::new(alloc, 10, Vec::new(alloc))?;
    let mut disk = FlakyDisk::new(inner, vec![in alloc; failing]?);
    Ok(disk.port(alloc)?)
}
