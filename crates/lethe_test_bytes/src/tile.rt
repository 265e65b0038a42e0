//! Tests of the weaving of entries into tiles, and of the filters of keys.

use crate::common::small;
use lethe_base::{Body, Entry, Key, Pick, Value};
use lethe_test_values::key_of;
use lethe_tile::{Filter, Tile, is_ascending, weave};
use std::alloc::Global;
use std::process::Abort;

fn put_of(alloc: Global, rt: &impl Abort, dkey: &str) -> Body {
    let dkey = dkey.parse().expect(rt, "a number");
    let value = Value::new(Vec::new(alloc)).expect(rt, "a value");
    Body::Put { dkey, value }
}

/// The entry of a word, as `a=11`, a key and its delete key, or `a-`, a key of a tombstone.
fn entry_of(alloc: Global, rt: &impl Abort, word: &str) -> Entry {
    let (key, body, since) = if let Some(key) = word.strip_suffix("-") {
        (key, Body::Tomb, Some(1))
    } else {
        let (key, dkey) = word.split_once('=').expect(rt, "a put");
        (key, put_of(alloc, rt, dkey), None)
    };
    Entry {
        seq: 1,
        key: key_of(alloc, key).expect(rt, "a key"),
        body,
        since,
    }
}

/// The entries of a row, as `a=11 b- c=12`.
fn entries_of(alloc: Global, rt: &impl Abort, row: &str) -> Vec<Entry> {
    let mut entries = Vec::new(alloc);
    for word in row.split(' ') {
        if !word.is_empty() {
            entries.push(entry_of(alloc, rt, word)).expect(rt, "memory");
        }
    }
    entries
}

fn ascends(alloc: Global, rt: &impl Abort, row: &str) -> bool {
    is_ascending(&entries_of(alloc, rt, row))
}

fn weave_row(alloc: Global, rt: &impl Abort, row: &str) -> Vec<Tile> {
    let config = small(rt, Pick::So);
    let entries = entries_of(alloc, rt, row);
    assert!(rt; is_ascending(&entries));
    weave(alloc, entries, &config).expect(rt, "memory")
}

fn filter_of(alloc: Global, rt: &impl Abort, keys: &[Key]) -> Filter {
    assert!(rt; !keys.is_empty());
    Filter::build(alloc, keys).expect(rt, "memory")
}

fn push_key(rt: &impl Abort, text: &mut String, key: &Key) {
    for byte in key.bytes() {
        text.push(char::from(*byte)).expect(rt, "memory");
    }
}

fn push_page(rt: &impl Abort, text: &mut String, page: &[Entry]) {
    text.push(' ').expect(rt, "memory");
    for entry in page {
        push_key(rt, text, &entry.key);
    }
}

fn push_tile(rt: &impl Abort, text: &mut String, tile: &Tile) {
    push_key(rt, text, &tile.lo);
    text.push_str("..").expect(rt, "memory");
    push_key(rt, text, &tile.hi);
    for page in tile.pages.items() {
        push_page(rt, text, page.items());
    }
    text.push(';').expect(rt, "memory");
}

/// Tiles as a text: each tile its keys, and behind them its pages, of which each is its keys.
fn text_of(alloc: Global, rt: &impl Abort, tiles: &[Tile]) -> String {
    let mut text = String::new(alloc);
    for tile in tiles {
        push_tile(rt, &mut text, tile);
    }
    text
}

/// The entries of a row, and the text of the tiles that they are woven into.
const WOVEN: &[(&str, &str)] = &[
    ("a=11 b=15 c=12 d=30", "a..d ac bd;"),
    (
        "a=11 b=15 c=12 d=30 e=13 f=14 g=40 h=50",
        "a..d ac bd;e..h ef gh;",
    ),
    ("a=9 b- c=7 d- e=5", "a..d bd ac;e..e e;"),
    ("a- b- c- d=1", "a..d abc d;"),
    ("a=3 b=2 c=1", "a..c bc a;"),
    ("a=7 b=7 c=7 d=7 e=1", "a..d ab cd;e..e e;"),
    ("b=18446744073709551615", "b..b b;"),
    ("", ""),
];

fn check_woven(alloc: Global, rt: &impl Abort, row: &str, woven: &str) {
    let tiles = weave_row(alloc, rt, row);
    let text = text_of(alloc, rt, &tiles);
    assert!(rt; text.as_str() == woven, "{row}");
}

#[test]
fn entries_are_woven_by_delete_key_and_by_key(rt: HostRuntime) {
    assert!(rt; !ascends(rt.alloc(), &rt, "a=1 b=2 b-"));
    assert!(rt; !ascends(rt.alloc(), &rt, "b=1 a=2 c=3"));
    for (row, woven) in WOVEN {
        check_woven(rt.alloc(), &rt, row, woven);
    }
}

/// A key, how many copies of it a filter is of, and so how many words it has and which bits are set.
/// By all the places of a key, its hash of Fowler, Noll and Vo is the only one that they belong to, but for the lowest bit
/// of its high half, which doesn't matter. It is af63dc4c8601ec8c of `a` and 85944171f73967e8 of `foobar`.
const PLACES: &[(&str, usize, usize, &[usize])] = &[
    ("a", 1000, 157, &[2892, 3353, 3814, 4275, 4736, 5197]),
    ("a", 1040, 163, &[10124, 2713, 5734, 8755, 1344, 4365]),
    ("a", 1065, 167, &[9484, 25, 1254, 2483, 3712, 4941]),
    ("a", 1105, 173, &[3788, 10969, 7078, 3187, 10368, 6477]),
    ("a", 1142, 179, &[10124, 2137, 5606, 9075, 1088, 4557]),
    ("foobar", 1000, 157, &[488, 473, 458, 443, 428, 413]),
    ("foobar", 1040, 163, &[2600, 2713, 2826, 2939, 3052, 3165]),
    ("foobar", 1065, 167, &[10280, 4185, 8778, 2683, 7276, 1181]),
    ("foobar", 1105, 173, &[8296, 10585, 1802, 4091, 6380, 8669]),
    ("foobar", 1142, 179, &[9512, 3865, 9674, 4027, 9836, 4189]),
];

fn filter_of_copies(alloc: Global, rt: &impl Abort, text: &str, copies: usize) -> Filter {
    let mut keys = Vec::new(alloc);
    for _ in 0..copies {
        keys.push(key_of(alloc, text).expect(rt, "a key"))
            .expect(rt, "memory");
    }
    filter_of(alloc, rt, &keys)
}

/// Words in which just these bits are set.
fn words_with(alloc: Global, rt: &impl Abort, count: usize, places: &[usize]) -> Vec<u64> {
    let mut words = vec![in alloc; 0; count].expect(rt, "memory");
    for place in places {
        *words.get_mut(place / 64).expect(rt, "a word") |= 1 << (place % 64);
    }
    words
}

/// The filter of so many copies of the key has to have so many words, and just these bits set.
fn check_places(
    alloc: Global,
    rt: &impl Abort,
    text: &str,
    copies: usize,
    count: usize,
    places: &[usize],
) {
    let filter = filter_of_copies(alloc, rt, text, copies);
    let words = words_with(alloc, rt, count, places);
    assert!(rt; filter.words() == words.as_slice(), "{copies} of {text}");
}

fn holds_all(filter: &Filter, keys: &[Key]) -> bool {
    keys.iter().all(|key| filter.may_hold(key))
}

/// Keys of which a filter has two words.
const TEXTS: &[&str] = &["a", "b", "key", "another", "ab", "ba", "z"];

fn keys_of(alloc: Global, rt: &impl Abort, texts: &[&str]) -> Vec<Key> {
    let mut keys = Vec::new(alloc);
    for text in texts {
        keys.push(key_of(alloc, text).expect(rt, "a key"))
            .expect(rt, "memory");
    }
    keys
}

/// The filter that is made of the words of another.
fn again(alloc: Global, rt: &impl Abort, filter: &Filter) -> Filter {
    let words = filter.words().to_vec(alloc).expect(rt, "memory");
    Filter::of_words(words).expect(rt, "a filter")
}

/// A filter in which no bit is set.
fn filter_of_zeros(alloc: Global, rt: &impl Abort) -> Filter {
    let words = vec![in alloc; 0, 0].expect(rt, "memory");
    Filter::of_words(words).expect(rt, "a filter")
}

fn check_one_key(alloc: Global, rt: &impl Abort) {
    let key = key_of(alloc, "a").expect(rt, "a key");
    let filter = filter_of_copies(alloc, rt, "a", 1);
    assert!(rt; filter.words() == [0x0008_0040_0200_3001].as_slice());
    assert!(rt; filter.may_hold(&key));
    assert!(rt; !filter_of_zeros(alloc, rt).may_hold(&key));
}

fn check_several_keys(alloc: Global, rt: &impl Abort) {
    let keys = keys_of(alloc, rt, TEXTS);
    let filter = filter_of(alloc, rt, &keys);
    assert!(rt; filter.words().len() == 2);
    assert!(rt; holds_all(&filter, &keys));
    assert!(rt; holds_all(&again(alloc, rt, &filter), &keys));
}

#[test]
fn a_filter_has_the_bits_of_its_keys(rt: HostRuntime) {
    check_one_key(rt.alloc(), &rt);
    for (text, copies, count, places) in PLACES {
        check_places(rt.alloc(), &rt, text, *copies, *count, places);
    }
    check_several_keys(rt.alloc(), &rt);
    assert!(rt; Filter::of_words(Vec::new(rt.alloc())).is_none());
}
