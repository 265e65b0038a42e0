//! Tests of the text of certificates.

use lethe_cert::{Certificate, what_a_text_tells};
use std::test::Fail;

/// SHA-256 of no bytes.
const DIGEST: [u8; 32] = [
    0xe3, 0xb0, 0xc4, 0x42, 0x98, 0xfc, 0x1c, 0x14, 0x9a, 0xfb, 0xf4, 0xc8, 0x99, 0x6f, 0xb9, 0x24,
    0x27, 0xae, 0x41, 0xe4, 0x64, 0x9b, 0x93, 0x4c, 0xa4, 0x95, 0x99, 0x1b, 0x78, 0x52, 0xb8, 0x55,
];

/// A number, a clock, `before`, a digest, and the text.
const ROWS: &[(u64, u64, u64, [u8; 32], &[u8])] = &[
    (
        1,
        100,
        0,
        DIGEST,
        b"cert 1 before 0 sha256 e3b0c44298fc1c149afbf4c8996fb92427ae41e4649b934ca495991b7852b855",
    ),
    (
        u64::MAX,
        7,
        u64::MAX,
        [0xff; 32],
        b"cert 18446744073709551615 before 18446744073709551615 sha256 ffffffffffffffffffffffffffffffffffffffffffffffffffffffffffffffff",
    ),
    (
        20,
        3600,
        10,
        [0; 32],
        b"cert 20 before 10 sha256 0000000000000000000000000000000000000000000000000000000000000000",
    ),
];

#[test]
fn certificates_have_their_text(rt: HostRuntime) -> Result<(), Fail> {
    for row in ROWS {
        let (number, clock, before, digest, wanted) = *row;
        let certificate = Certificate {
            number,
            clock,
            before,
            digest,
        };
        let text = certificate.text(rt.alloc())?;
        assert!(rt; text.as_bytes() == wanted, "{text}");
    }
    what_a_text_tells();
    Ok(())
}

#[test]
fn letters_are_lower_case(rt: HostRuntime) -> Result<(), Fail> {
    let certificate = Certificate {
        number: 1,
        clock: 1,
        before: 0,
        digest: [0xab; 32],
    };
    let text = certificate.text(rt.alloc())?;
    assert!(rt;
        !text.as_bytes().iter().any(u8::is_ascii_uppercase),
        "{text}"
    );
    Ok(())
}
