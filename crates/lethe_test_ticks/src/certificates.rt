//! The certificate that a tick prepares.
ghost use Rattle.std.specs.Prelude.{IfOk};
ghost use Rattle.lethe_state.specs.Writable.{IsWritable};

use lethe_base::{Config, Fields, Kind, MAX_PLACE, MAX_TIME, Pick};
use lethe_images::{add, disk_of};
use lethe_manifest::LastCert;
use lethe_recover::open;
use lethe_segment::new_segment;
use lethe_state::State;
use std::alloc::Global;
use std::test::Fail;

const THRESHOLD_100: Fields = Fields {
    threshold: 100,
    ratio: 2,
    levels: 2,
    page: 2,
    tile: 2,
    file: 2,
    buffer: 4,
    pick: Pick::So,
};

/// Manifest 2, which cites segment 1, at the greatest clock, with the greatest number of a certificate: no store comes so far.
const GREATEST: [u8; 95] =
    *b"LM\x01\0\0\0\0\0\0\0\x02\0\0\0\0\0\0\0\x64\x02\x02\0\x02\x02\0\x02\0\x04\0\x40\0\0\0\0\0\0\0\0\0\0\0\0\0\0\0\0\0\0\0\0\0\0\x03\x01\x3f\xff\xff\xff\xff\xff\xff\xff\x40\0\0\0\0\0\0\0\x3f\xff\xff\xff\xff\xff\xff\x9c\0\0\0\0\x01\0\0\0\0\0\0\0\x01\0\0\0\0";

/// The same at clock 99, without a certificate.
const YOUNG: [u8; 71] =
    *b"LM\x01\0\0\0\0\0\0\0\x02\0\0\0\0\0\0\0\x64\x02\x02\0\x02\x02\0\x02\0\x04\0\0\0\0\0\0\0\0\x63\0\0\0\0\0\0\0\0\0\0\0\0\0\0\0\x03\0\0\0\0\0\x01\0\0\0\0\0\0\0\x01\0\0\0\0";

/// What is remembered of the store of this manifest, once it is opened.
fn opened(alloc: Global, manifest: &[u8]) -> Result<State, Fail>
    ensures { IfOk result IsWritable }
{
    let mut disk = disk_of(alloc, &[])?;
    add(alloc, &mut disk, Kind::Gate, 2, &[])?;
    add(alloc, &mut disk, Kind::Manifest, 2, manifest)?;
    add(alloc, &mut disk, Kind::Segment, 1, &new_segment(1))?;
    let config = Config::new(THRESHOLD_100)?;
    match open(alloc, &mut disk, &config) {
        Ok(opened) => Ok(State::opened(alloc, opened.manifest)?),
        Err(_) => Err(Fail::new("not opened")),
    }
}

/// The certificate that a tick prepares, with the store's manifest and the tick's time.
type Row = (&'static [u8], u64, Option<LastCert>);

const ROWS: [Row; 3] = [
    (&YOUNG, 99, None),
    (
        &YOUNG,
        100,
        Some(LastCert {
            number: 1,
            clock: 100,
            before: 0,
        }),
    ),
    // The greatest number stays.
    (
        &GREATEST,
        MAX_TIME,
        Some(LastCert {
            number: MAX_PLACE,
            clock: MAX_TIME,
            before: MAX_TIME - 100,
        }),
    ),
];

fn certificate_of(alloc: Global, manifest: &[u8], to: u64) -> Result<Option<LastCert>, Fail> {
    let state = opened(alloc, manifest)?;
    state.may_change()?;
    if to > MAX_TIME {
        return Err(Fail::new("a time"));
    }
    let step = state.ticking(alloc, to)?;
    Ok(step.manifest.certificate)
}

#[test]
fn a_tick_prepares_a_certificate_from_the_threshold_on(rt: HostRuntime) -> Result<(), Fail> {
    for (manifest, to, wanted) in ROWS {
        let prepared = certificate_of(rt.alloc(), manifest, to)?;
        assert_eq!(rt; prepared, wanted);
    }
    Ok(())
}

#[test]
fn the_greatest_certificate_is_opened(rt: HostRuntime) -> Result<(), Fail> {
    let state = opened(rt.alloc(), &GREATEST)?;
    let greatest = LastCert {
        number: MAX_PLACE,
        clock: MAX_TIME,
        before: MAX_TIME - 100,
    };
    assert_eq!(rt; state.manifest().certificate, Some(greatest));
    Ok(())
}
