//! A reserve of more than memory has.

use crate::common::{entry_of, key_of};
use lethe_base::Entry;
use lethe_mem::{Buffer, VecBuffer};
use lethe_tree::TreeBuffer;
use std::alloc::Global;
use std::process::Abort;

/// More inserts than any memory has room for: the bytes are past what can be counted, or past all addresses.
const TOO_MANY: [usize; 3] = [usize::MAX, usize::MAX / 32, 1 << 44];

fn seq_of(entry: Option<&Entry>) -> Option<u64> {
    entry.map(|entry| entry.seq)
}

/// Whether the reserve is refused, and the buffer has one entry behind it and then takes another, for which it had room before.
fn stays<B: Buffer>(alloc: Global, rt: &impl Abort, buffer: &mut B, more: usize) -> bool {
    let one = entry_of(key_of(alloc, rt, b"b"), 1);
    let other = entry_of(key_of(alloc, rt, b"a"), 2);
    buffer.reserve(2).expect(rt, "memory");
    buffer.insert(one);
    let refused = buffer.reserve(more).is_err();
    let had = buffer.len() == 1 && seq_of(buffer.at(0)) == Some(1);
    buffer.insert(other);
    refused && had && seq_of(buffer.at(0)) == Some(2) && seq_of(buffer.at(1)) == Some(1)
}

#[test]
fn a_reserve_that_memory_refuses_leaves_the_buffer(rt: HostRuntime) {
    let alloc = rt.alloc();
    for more in TOO_MANY {
        assert!(rt;
            stays(alloc, &rt, &mut TreeBuffer::new(alloc), more),
            "{more}"
        );
        assert!(rt;
            stays(alloc, &rt, &mut VecBuffer::new(alloc), more),
            "{more}"
        );
    }
}
