//! Tests of scripts, and of the first bad line of other bytes.

use crate::common::extended;
use lethe_script::{Act, Order, Script, ScriptRefused, read_script};
use std::alloc::Global;
use std::process::Abort;
use std::str;

/// The orders with the numbers of their lines, each ended by `;`, and a `|` between two phases.
fn shown(alloc: Global, rt: &impl Abort, script: &Script) -> String {
    let mut text = String::new(alloc);
    for (index, phase) in script.phases.items().iter().enumerate() {
        if index > 0 {
            write!(text, "|").expect(rt, "memory");
        }
        for order in phase.items() {
            push_order(alloc, rt, &mut text, order);
        }
    }
    text
}

fn push_order(alloc: Global, rt: &impl Abort, text: &mut String, order: &Order) {
    let act = act_shown(alloc, rt, &order.act);
    write!(text, "{}:{} {act};", order.line, order.caller.get()).expect(rt, "memory");
}

fn text_of<'a>(rt: &impl Abort, bytes: &'a [u8]) -> &'a str {
    str::from_utf8(bytes).expect(rt, "a text")
}

fn act_shown(alloc: Global, rt: &impl Abort, act: &Act) -> String {
    let shown = match act {
        Act::Put { key, dkey, value } => {
            let key = text_of(rt, key.bytes());
            let value = text_of(rt, value.bytes());
            format!(in alloc; "put {key} {dkey} {value}")
        }
        Act::Get { key } => format!(in alloc; "get {}", text_of(rt, key.bytes())),
        Act::Scan { lo, hi } => {
            let lo = text_of(rt, lo.bytes());
            let hi = text_of(rt, hi.bytes());
            format!(in alloc; "scan {lo} {hi}")
        }
        Act::Delete { key } => format!(in alloc; "del {}", text_of(rt, key.bytes())),
        Act::Erase { range } => format!(in alloc; "erase {} {}", range.lo(), range.hi()),
        Act::Stat => format!(in alloc; "stat"),
        Act::Tick { to } => format!(in alloc; "tick {}", to.get()),
        Act::Pin { slot } => format!(in alloc; "pin {}", slot.get()),
        Act::PinGet { slot, key } => {
            let key = text_of(rt, key.bytes());
            format!(in alloc; "pget {} {key}", slot.get())
        }
        Act::PinScan { slot, lo, hi } => {
            let lo = text_of(rt, lo.bytes());
            let hi = text_of(rt, hi.bytes());
            format!(in alloc; "pscan {} {lo} {hi}", slot.get())
        }
        Act::Unpin { slot } => format!(in alloc; "unpin {}", slot.get()),
    };
    shown.expect(rt, "memory")
}

/// The number of orders of a script's last phase.
fn orders_of(alloc: Global, rt: &impl Abort, bytes: &[u8]) -> usize {
    let script = read_script(alloc, bytes).expect(rt, "a script");
    match script.phases.items().last() {
        Some(phase) => phase.items().len(),
        None => 0,
    }
}

/// The bytes are refused for this line, and the reason has this word.
fn is_refused(alloc: Global, bytes: &[u8], line: u64, word: &[u8]) -> bool {
    match read_script(alloc, bytes) {
        Err(ScriptRefused::Bad(bad)) => bad.line == line && bad.why.word().as_bytes() == word,
        _ => false,
    }
}

/// Scripts, and their orders with the numbers of their lines.
const READ: &[(&[u8], &[u8])] = &[
    (b"", b""),
    (b"\n\r\n  \n#\n", b""),
    (
        b"1 put a 5 x\n1 get a\n1 get b\n",
        b"1:1 put a 5 x;2:1 get a;3:1 get b;",
    ),
    (
        b"1 put a 5 x\n1 del a\n1 get a\n1 scan a z\n",
        b"1:1 put a 5 x;2:1 del a;3:1 get a;4:1 scan a z;",
    ),
    (b"1 get a", b"1:1 get a;"),
    (b"1 get a\r\n1 put b 0 y\r\n", b"1:1 get a;2:1 put b 0 y;"),
    (
        b"# note\n\n  # 1 get x\n  1   get   a  \r\n\r\n1 get b ",
        b"4:1 get a;6:1 get b;",
    ),
    (b"   \n1 scan z a", b"2:1 scan z a;"),
    (
        b"1 put #k 18446744073709551615 v=#",
        b"1:1 put #k 18446744073709551615 v=#;",
    ),
    (b"1 get 1\n1 del del", b"1:1 get 1;2:1 del del;"),
    (b"#x\n1 get !~\n#1 get a", b"2:1 get !~;"),
    (b"\r\n\n 1 get a\r\n", b"3:1 get a;"),
    (b"1 stat\n 1   stat ", b"1:1 stat;2:1 stat;"),
    (
        b"1 tick 0\n1 tick 4611686018427387904",
        b"1:1 tick 0;2:1 tick 4611686018427387904;",
    ),
    (
        b"1 erase 1 2\n1 erase 0 18446744073709551615",
        b"1:1 erase 1 2;2:1 erase 0 18446744073709551615;",
    ),
    // A slot is free again behind its unpin, and slots stand beside each other.
    (
        b"1 pin 0\n1 pget 0 a\n1 pscan 0 a b\n1 pin 9\n1 unpin 0\n1 pin 0\n1 pget 9 a",
        b"1:1 pin 0;2:1 pget 0 a;3:1 pscan 0 a b;4:1 pin 9;5:1 unpin 0;6:1 pin 0;7:1 pget 9 a;",
    ),
    (
        b"1 stat\n2 stat\n3 stat\n4 stat\n5 stat\n6 stat\n7 stat\n8 stat",
        b"1:1 stat;2:2 stat;3:3 stat;4:4 stat;5:5 stat;6:6 stat;7:7 stat;8:8 stat;",
    ),
    // There is one phase more than lines `phase`, and a phase may be empty.
    (b"phase", b"|"),
    (b"phase\n", b"|"),
    (b"  phase \r\n\nphase\n1 get a", b"||4:1 get a;"),
    (
        b"2 get a\n1 get b\nphase\n# note\n2 del a\nphase\n",
        b"1:2 get a;2:1 get b;|5:2 del a;|",
    ),
    (
        b"1 get a\nphase\n8 put b 5 y\nphase\n1 get b",
        b"1:1 get a;|3:8 put b 5 y;|5:1 get b;",
    ),
    (b"1 get phase\n#phase\nphase", b"1:1 get phase;|"),
    // A slot stays held over phases.
    (
        b"1 pin 0\nphase\n1 pget 0 a\nphase\nphase\n1 unpin 0\n1 pin 0",
        b"1:1 pin 0;|3:1 pget 0 a;||6:1 unpin 0;7:1 pin 0;",
    ),
    // Each caller has ten slots of its own.
    (
        b"1 pin 0\n2 pin 0\n8 pin 0\n1 unpin 0\n2 pget 0 a\nphase\n8 pscan 0 a b\n1 pin 0",
        b"1:1 pin 0;2:2 pin 0;3:8 pin 0;4:1 unpin 0;5:2 pget 0 a;|7:8 pscan 0 a b;8:1 pin 0;",
    ),
];

fn check_shown(alloc: Global, rt: &impl Abort, bytes: &[u8], text: &[u8]) {
    let script = read_script(alloc, bytes).expect(rt, "a script");
    let found = shown(alloc, rt, &script);
    assert!(rt; found.as_bytes() == text, "{found}");
}

#[test]
fn scripts_are_read(rt: HostRuntime) {
    for (bytes, text) in READ {
        check_shown(rt.alloc(), &rt, bytes, text);
    }
}

/// Other bytes, the number of their first bad line, and the word for what is wrong with it.
const BAD: &[(&[u8], u64, &[u8])] = &[
    (b"1 get\ta\n", 1, b"byte"),
    (b"\t# note\n", 1, b"byte"),
    (b"# \xff\n", 1, b"byte"),
    (b"1 get \x7f", 1, b"byte"),
    (b"1 get a\r", 1, b"byte"),
    (b"1 get a\r\r\n", 1, b"byte"),
    (b"1 ge\rt a\n", 1, b"byte"),
    (b"1 get a\n9 get \xff\n", 2, b"byte"),
    (b"9 get a\n", 1, b"caller"),
    (b"0 get a\n", 1, b"caller"),
    (b"10 get a\n", 1, b"caller"),
    (b"-1 get a\n", 1, b"caller"),
    (b"1 get a\n9 get a\n", 2, b"caller"),
    (b"\n# 1 frob\n  \n1 get a\n01 get a\n", 5, b"caller"),
    (b"get a\n", 1, b"caller"),
    (b"01 get a\n", 1, b"caller"),
    (b"phases\n", 1, b"caller"),
    (b"phas\n", 1, b"caller"),
    (b"PHASE\n", 1, b"caller"),
    (b"=7068617365\n", 1, b"caller"),
    (b"phase x\n", 1, b"count"),
    (b"phase phase\n", 1, b"count"),
    (b"phase 1 get a\n", 1, b"count"),
    (b"phase # note\n", 1, b"count"),
    (b"1 phase\n", 1, b"command"),
    (b"phase\xff\n", 1, b"byte"),
    // Lines `phase` are counted.
    (b"phase\nphase\n8 frob\n", 3, b"command"),
    (b"1 get a\nphase\nphase x\n9 get a\n", 3, b"count"),
    (b"9 frob\n", 1, b"caller"),
    (b"1 frob\n", 1, b"command"),
    (b"1\n", 1, b"command"),
    (b"1 ERASE 1 2\n", 1, b"command"),
    (b"1 erase\n", 1, b"count"),
    (b"1 erase 1\n", 1, b"count"),
    (b"1 erase x 3 4\n", 1, b"count"),
    (b"1 erase 1 z\n", 1, b"number"),
    (b"1 erase 5 z\n", 1, b"number"),
    (b"1 erase z 0\n", 1, b"number"),
    (b"1 erase 01 2\n", 1, b"number"),
    (b"1 erase 0 18446744073709551616\n", 1, b"number"),
    (b"1 pin\n", 1, b"count"),
    (b"1 pget 0\n", 1, b"count"),
    (b"1 pscan 0 a\n", 1, b"count"),
    (b"1 unpin 0 0\n", 1, b"count"),
    // The form of a slot is tested in its turn, from left to right.
    (b"1 pin a\n", 1, b"slot"),
    (b"1 pin 10\n", 1, b"slot"),
    (b"1 pin 00\n", 1, b"slot"),
    (b"1 pin :\n", 1, b"slot"),
    (b"1 pget x =\n", 1, b"slot"),
    (b"1 pget 0 =\n", 1, b"key"),
    (b"1 pscan 0 a =6\n", 1, b"key"),
    // Last comes whether it is free or held, by the lines before.
    (b"1 pget 0 a\n", 1, b"slot"),
    (b"1 unpin 0\n", 1, b"slot"),
    (b"1 pin 0\n1 pin 0\n", 2, b"slot"),
    (b"1 pin 0\n1 pscan 1 a b\n", 2, b"slot"),
    (b"1 pin 0\n1 unpin 0\n1 pget 0 a\n", 3, b"slot"),
    // By the lines of its own caller, in whichever phase.
    (b"1 pin 0\n2 pget 0 a\n", 2, b"slot"),
    (b"1 pin 0\n8 pin 0\n8 pin 0\n", 3, b"slot"),
    (b"8 pin 0\n7 pin 0\n8 unpin 0\n8 unpin 0\n", 4, b"slot"),
    (b"1 pin 0\nphase\n1 pin 0\n", 3, b"slot"),
    (b"1 pin 0\nphase\n2 unpin 0\n", 3, b"slot"),
    (
        b"1 pin 0\nphase\n1 unpin 0\nphase\n1 pget 0 a\n",
        5,
        b"slot",
    ),
    (b"1 erase 20 10\n", 1, b"range"),
    (b"1 erase 5 5\n", 1, b"range"),
    (b"1 erase 18446744073709551615 0\n", 1, b"range"),
    (b"1 tick\n", 1, b"count"),
    (b"1 tick 5 5\n", 1, b"count"),
    (b"1 tick 4611686018427387905\n", 1, b"number"),
    (b"1 tick x\n", 1, b"number"),
    (b"1 PUT a 5 x\n", 1, b"command"),
    (b"1 # get a\n", 1, b"command"),
    (b"1 frob\n9 get a\n", 1, b"command"),
    (b"1 get\n", 1, b"count"),
    (b"1 get =a b\n", 1, b"count"),
    (b"1 put a 5\n", 1, b"count"),
    (b"1 put a 5 \n", 1, b"count"),
    (b"1 put a 05 x y\n", 1, b"count"),
    (b"1 put a 5 x y z z z z z\n", 1, b"count"),
    (b"1 scan a\n", 1, b"count"),
    (b"1 scan a b c\n", 1, b"count"),
    (b"1 del\n", 1, b"count"),
    (b"1 del a b\n", 1, b"count"),
    (b"1 put a 05 x\n", 1, b"number"),
    (b"1 put a 00 =\n", 1, b"number"),
    (b"1 put a 18446744073709551616 x\n", 1, b"number"),
    (b"1 put a 99999999999999999999999 x\n", 1, b"number"),
    (b"1 put a -1 x\n", 1, b"number"),
    (b"1 put a +1 x\n", 1, b"number"),
    (b"1 put a 1x x\n", 1, b"number"),
    (b"1 put =a 05 =\n", 1, b"key"),
    (b"1 get =6\n", 1, b"key"),
    (b"1 get =6A\n", 1, b"key"),
    (b"1 get =6g\n", 1, b"key"),
    (b"1 scan a =\n", 1, b"key"),
    (b"1 del =\n", 1, b"key"),
    (b"1 put a 5 =616\n", 1, b"value"),
    (b"1 put a 5 =6=\n", 1, b"value"),
    (b"1 stat a\n", 1, b"count"),
];

#[test]
fn the_first_bad_line_is_answered(rt: HostRuntime) {
    for row in BAD {
        let (bytes, line, word) = *row;
        assert!(rt;
            is_refused(rt.alloc(), bytes, line, word),
            "line {line} of {bytes:?}"
        );
    }
}

/// The begin of a script, a byte and how often it follows, the end, and the bad line and its word. Where the line is 0
/// there is one order.
const LIMITS: &[(&[u8], u8, usize, &[u8], u64, &[u8])] = &[
    (b"", b' ', 16_777_217, b"", 1, b"size"),
    (b"", b'\t', 16_777_216, b"\n", 1, b"size"),
    (b"", b' ', 16_777_215, b"\nx", 2, b"size"),
    (b"1 frob\n", b' ', 16_777_216, b"", 1, b"command"),
    (b"1 get a\n", b' ', 16_777_208, b"", 0, b""),
    (b"1 get ", b'k', 255, b"", 0, b""),
    (b"1 get a\n1 get ", b'k', 256, b"", 2, b"key"),
    (b"1 scan a ", b'k', 256, b"\n", 1, b"key"),
    (b"1 put a 5 ", b'v', 4096, b"\r\n", 0, b""),
    (b"1 put a 5 ", b'v', 4097, b"\n", 1, b"value"),
    (b"1 get =", b'6', 510, b"", 0, b""),
    (b"1 get =", b'6', 511, b"", 1, b"key"),
    (b"1 get =", b'6', 512, b"", 1, b"key"),
    (b"1 put a 5 =", b'7', 8192, b"", 0, b""),
    (b"1 put a 5 =", b'7', 8194, b"", 1, b"value"),
    (b"1 put a 1", b'0', 19, b" x\n", 0, b""),
    (b"1 put a 1", b'0', 20, b" x\n", 1, b"number"),
    (b"#", b'#', 65_536, b"\n1 get a\n9 get a", 3, b"caller"),
];

fn filled(
    alloc: Global,
    rt: &impl Abort,
    head: &[u8],
    filler: u8,
    count: usize,
    tail: &[u8],
) -> Vec<u8> {
    let fill = vec![in alloc; filler; count].expect(rt, "memory");
    let begin = extended(alloc, rt, head, &fill);
    extended(alloc, rt, &begin, tail)
}

/// Whether the bytes are refused for this line and with this word, or have one order where the line is 0.
fn meets_limit(alloc: Global, rt: &impl Abort, bytes: &[u8], line: u64, word: &[u8]) -> bool {
    if line == 0 {
        orders_of(alloc, rt, bytes) == 1
    } else {
        is_refused(alloc, bytes, line, word)
    }
}

#[test]
fn limits_are_met_to_the_byte(rt: HostRuntime) {
    for (head, filler, count, tail, line, word) in LIMITS {
        let bytes = filled(rt.alloc(), &rt, head, *filler, *count, tail);
        assert!(rt;
            meets_limit(rt.alloc(), &rt, &bytes, *line, word),
            "line {line} after {count}"
        );
    }
}

/// The number of phases of a script that has no orders.
fn phases_of(alloc: Global, rt: &impl Abort, bytes: &[u8]) -> usize {
    let script = read_script(alloc, bytes).expect(rt, "a script");
    script.phases.items().len()
}

fn phase_lines(alloc: Global, rt: &impl Abort, count: usize) -> Vec<u8> {
    b"phase\n"
        .as_slice()
        .repeat(alloc, count)
        .expect(rt, "memory")
}

#[test]
fn phases_may_fill_a_script(rt: HostRuntime) {
    let most = phase_lines(rt.alloc(), &rt, 2_796_202);
    assert!(rt; phases_of(rt.alloc(), &rt, &most) == 2_796_203);
    let more = phase_lines(rt.alloc(), &rt, 2_796_203);
    assert!(rt; is_refused(rt.alloc(), &more, 2_796_203, b"size"));
}

fn is_put(order: &Order, wanted_key: &[u8], wanted_value: &[u8]) -> bool {
    match &order.act {
        Act::Put { key, value, .. } => key.bytes() == wanted_key && value.bytes() == wanted_value,
        _ => false,
    }
}

/// Each order of the script has to be a put of this key and this value.
fn check_puts(alloc: Global, rt: &impl Abort, bytes: &[u8], key: &[u8], value: &[u8]) {
    let script = read_script(alloc, bytes).expect(rt, "a script");
    for phase in script.phases.items() {
        for order in phase.items() {
            assert!(rt; is_put(order, key, value), "{bytes:?}");
        }
    }
}

/// A script of one put, its key and its value.
const DIGITS: &[(&[u8], &[u8], &[u8])] = &[
    (b"1 put =6162 7 =", b"ab", b""),
    (b"1 put c 8 =00ff", b"c", b"\x00\xff"),
    (b"1 put =3d 8 =3d3d", b"=", b"=="),
    (b"1 put =20 8 a=b", b" ", b"a=b"),
    (b"1 put =0a0d 8 =09\r\n", b"\n\r", b"\t"),
];

#[test]
fn digits_stand_for_bytes(rt: HostRuntime) {
    for (bytes, key, value) in DIGITS {
        check_puts(rt.alloc(), &rt, bytes, key, value);
    }
}
