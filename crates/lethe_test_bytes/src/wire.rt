//! Tests of sources and sinks.

use crate::common::check_bytes;
use lethe_wire::{
    MemSink, MemSource, ReadRefused, Sink, Source, StdSink, StdSource, WireFailed, read_up_to,
    write_all,
};
use std::alloc::Global;
use std::process::Abort;

/// A source of these bytes whose calls of these numbers fail.
fn source_of(alloc: Global, rt: &impl Abort, bytes: &[u8], failing: &[u64]) -> MemSource {
    let bytes = bytes.to_vec(alloc).expect(rt, "memory");
    let failing = failing.to_vec(alloc).expect(rt, "memory");
    MemSource::new(bytes, failing)
}

/// Whether the next read gives just this byte.
fn gives_byte(source: &mut MemSource, byte: u8) -> bool {
    let mut into = [0u8; 1];
    source.read(&mut into) == Ok(1) && into == [byte]
}

/// What the next read of a byte answers.
fn read_byte(source: &mut MemSource) -> Result<usize, WireFailed> {
    let mut into = [0u8; 1];
    source.read(&mut into)
}

#[test]
fn a_source_gives_its_bytes_and_fails_where_it_is_told(rt: HostRuntime) {
    let mut source = source_of(rt.alloc(), &rt, b"ab", &[2]);
    assert!(rt; gives_byte(&mut source, b'a'));
    assert!(rt; read_byte(&mut source) == Err(WireFailed));
    assert!(rt; gives_byte(&mut source, b'b'));
    assert!(rt; read_byte(&mut source) == Ok(0));
}

/// A sink whose second call fails.
fn new_sink(alloc: Global, rt: &impl Abort) -> MemSink {
    let failing = vec![in alloc; 2].expect(rt, "memory");
    MemSink::new(alloc, failing).expect(rt, "memory")
}

fn check_taken(rt: &impl Abort, sink: &mut MemSink) {
    assert!(rt; sink.write(b"ab") == Ok(2));
    assert!(rt; sink.write(b"c") == Err(WireFailed));
    assert!(rt; write_all(sink, b"c") == Ok(()));
    check_bytes(rt, sink.bytes(), b"abc");
}

/// With three bytes in it, the sink has room for some of so many.
fn check_full(alloc: Global, rt: &impl Abort, sink: &mut MemSink) {
    let rest = vec![in alloc; 7; 1 << 20].expect(rt, "memory");
    assert!(rt; sink.write(&rest) == Ok((1 << 20) - 3));
    assert!(rt; sink.write(b"") == Ok(0));
    assert!(rt; sink.write(b"d") == Err(WireFailed));
}

#[test]
fn a_sink_takes_bytes_until_it_is_full(rt: HostRuntime) {
    let mut sink = new_sink(rt.alloc(), &rt);
    check_taken(&rt, &mut sink);
    check_full(rt.alloc(), &rt, &mut sink);
}

/// How many bytes of three are read up to the limit.
fn count_read(alloc: Global, rt: &impl Abort, limit: usize) -> usize {
    let mut source = source_of(alloc, rt, b"abc", &[]);
    let bytes = read_up_to(alloc, &mut source, limit).expect(rt, "bytes");
    bytes.len()
}

fn refused(alloc: Global, rt: &impl Abort) -> Option<ReadRefused> {
    let mut source = source_of(alloc, rt, b"abc", &[2]);
    read_up_to(alloc, &mut source, 9).err()
}

#[test]
fn a_source_is_read_to_its_end_or_a_byte_past_the_limit(rt: HostRuntime) {
    for (limit, count) in [(3, 3), (4, 3), (2, 3), (1, 2)] {
        assert!(rt; count_read(rt.alloc(), &rt, limit) == count);
    }
    assert!(rt; refused(rt.alloc(), &rt) == Some(ReadRefused::Failed));
}

fn check_std_source(alloc: Global, rt: &impl Abort) {
    let mut source = StdSource::new(b"abc".as_slice());
    let bytes = read_up_to(alloc, &mut source, 9).expect(rt, "bytes");
    check_bytes(rt, &bytes, b"abc");
}

fn check_std_sink(rt: &impl Abort) {
    let mut room = [0u8; 2];
    let mut sink = StdSink::new(room.as_mut_slice());
    assert!(rt; write_all(&mut sink, b"ab") == Ok(()));
    assert!(rt; write_all(&mut sink, b"c") == Err(WireFailed));
}

#[test]
fn adapters_carry_the_bytes_of_std(rt: HostRuntime) {
    check_std_source(rt.alloc(), &rt);
    check_std_sink(&rt);
}
