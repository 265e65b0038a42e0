//! Scripts that are answered.

use crate::common::check_prints;

/// Scripts, and what is printed of them.
const ROWS: [(&str, &str); 14] = [
    (
        "1 put b 1 x\n1 put a 2 y\n1 put b 3 z\n1 get b\n1 get a\n",
        "1 ok 1\n1 ok 2\n1 ok 3\n1 at 3 val 3 z\n1 at 3 val 2 y\n",
    ),
    // A delete counts, also of a key that isn't there, and a key comes back.
    (
        "1 del a\n1 get a\n1 del a\n1 put a 1 x\n1 del a\n1 del a\n1 put a 2 y\n1 get a\n",
        "1 ok 1\n1 at 1 none\n1 ok 2\n1 ok 3\n1 ok 4\n1 ok 5\n1 ok 6\n1 at 6 val 2 y\n",
    ),
    // The upper end is excluded, and keys ascend by their bytes.
    (
        "1 put c 3 r\n1 put a 1 p\n1 put ab 2 q\n1 put b 4 s\n1 scan a c\n1 scan ab b\n",
        "1 ok 1\n1 ok 2\n1 ok 3\n1 ok 4\n1 at 4 scan 3 a 1 p ab 2 q b 4 s\n1 at 4 scan 1 ab 2 q\n",
    ),
    // A range without keys.
    (
        "1 put b 1 x\n1 scan b b\n1 scan c a\n1 scan a b\n",
        "1 ok 1\n1 at 1 scan 0\n1 at 1 scan 0\n1 at 1 scan 0\n",
    ),
    // Comments and empty lines ask for nothing.
    ("# 1 put a 1 x\n\n   \n  # b\n1 get a\n", "1 at 0 none\n"),
    // CR before LF, several spaces, spaces at both ends, and a last line without LF.
    (
        "1 put a 5 x\r\n  1   get  a  \r\n1 get a",
        "1 ok 1\n1 at 1 val 5 x\n1 at 1 val 5 x\n",
    ),
    ("1 get a\n\r\n", "1 at 0 none\n"),
    // The greatest number, and the number 0.
    (
        "1 put a 18446744073709551615 x\n1 put b 0 y\n1 scan a z\n",
        "1 ok 1\n1 ok 2\n1 at 2 scan 2 a 18446744073709551615 x b 0 y\n",
    ),
    // An `=` that isn't first, and a `#` that isn't first.
    ("1 put a=b 1 #\n1 get a=b\n", "1 ok 1\n1 at 1 val 1 #\n"),
    // Bytes as digits.
    (
        "1 put =3d 1 a=\n1 put =6120 2 =20\n1 scan =00 =ff\n1 del =6120\n1 get =6120\n",
        "1 ok 1\n1 ok 2\n1 at 2 scan 2 =3d 1 a= =6120 2 =20\n1 ok 3\n1 at 3 none\n",
    ),
    // The store as a whole.
    (
        "1 stat\n1 put a 5 x\n1   stat \n",
        "1 at 0 stat clock 0 pins 0 pending 0 files 0 tombs 0\n1 ok 1\n1 at 1 stat clock 0 pins 0 pending 0 files 0 tombs 0\n",
    ),
    // An erase is still to be done while a put in front of it may be there.
    (
        "1 erase 10 20\n1 stat\n1 put a 15 x\n1 erase 10 20\n1 erase 5 6\n1 stat\n",
        "1 ok 1\n1 at 1 stat clock 0 pins 0 pending 0 files 0 tombs 0\n1 ok 2\n1 ok 3\n1 ok 4\n1 at 4 stat clock 0 pins 0 pending 2 files 0 tombs 0\n",
    ),
    // Where retention is in days.
    (
        "# retention in days\n1 put user:17 20240 =7b7d\n1 put user:18 20241 alice\n1 erase 20240 20241\n1 scan user:0 user:9\n",
        "1 ok 1\n1 ok 2\n1 ok 3\n1 at 3 scan 1 user:18 20241 alice\n",
    ),
    (
        "1 put user:17 20240 rent\n1 put user:18 20241 alice\n1 del user:17\n1 scan user:0 user:9\n",
        "1 ok 1\n1 ok 2\n1 ok 3\n1 at 3 scan 1 user:18 20241 alice\n",
    ),
];

#[test]
fn scripts_print_their_replies(rt: HostRuntime) {
    for (script, text) in ROWS {
        check_prints(rt.alloc(), &rt, script.as_bytes(), 0, text);
    }
}
