//! Lists of words that are drawn, read by `read_words` and by hand.

use crate::by_hand::read_by_hand;
use crate::common::read;
use std::alloc::Global;
use std::process::Abort;

const WORDS: [&str; 30] = [
    "run",
    "load",
    "0",
    "2",
    "4",
    "04",
    "+4",
    "-4",
    "100000",
    "100001",
    "18446744073709551616",
    "so",
    "sd",
    "json",
    "text",
    "",
    "--",
    "-h",
    "--help",
    "--rat",
    "--ratio",
    "--ratio=4",
    "--ratio=1",
    "--page=4=5",
    "--pick",
    "--pick=sd",
    "--workers",
    "--turns=5",
    "--certs",
    "--certs=json",
];

/// The words in front of those that are drawn.
const FRONTS: [&[&str]; 4] = [&[], &["run"], &["load"], &["load", "7", "100"]];

/// Numbers that follow from a seed (SplitMix64).
#[derive(Drop)]
struct Draws {
    state: u64,
}

impl Draws {
    fn next(&mut self) -> u64 {
        self.state = self.state.wrapping_add(0x9E37_79B9_7F4A_7C15);
        let mut mixed = self.state;
        mixed = (mixed ^ (mixed >> 30)).wrapping_mul(0xBF58_476D_1CE4_E5B9);
        mixed = (mixed ^ (mixed >> 27)).wrapping_mul(0x94D0_49BB_1331_11EB);
        mixed ^ (mixed >> 31)
    }
}

/// A front, and up to five words.
fn list_of(alloc: Global, rt: &impl Abort, draws: &mut Draws) -> Vec<&'static str> {
    let mut list = Vec::new(alloc);
    for word in FRONTS[(draws.next() % 4) as usize] {
        list.push(*word).expect(rt, "memory");
    }
    for _ in 0..draws.next() % 6 {
        list.push(WORDS[(draws.next() % 30) as usize])
            .expect(rt, "memory");
    }
    list
}

#[test]
fn ten_thousand_lists_of_words_are_read_as_by_hand(rt: HostRuntime) {
    let mut draws = Draws { state: 81 };
    let mut commands: u64 = 0;
    for number in 0..10_000 {
        let list = list_of(rt.alloc(), &rt, &mut draws);
        let wanted = read_by_hand(rt.alloc(), &rt, &list);
        let asked = read(rt.alloc(), &rt, &list);
        assert!(rt; asked == wanted, "list {number}");
        commands = commands.saturating_add(u64::from(wanted.is_some()));
    }
    assert!(rt; commands > 500 && commands < 5000, "{commands}");
}
