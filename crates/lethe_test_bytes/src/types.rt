//! Tests of the types that all of Lethe shares, and of the limits of a configuration.

use lethe_base::{
    Body, Config, ConfigRefused, Entry, Field, Fields, Key, KeyRefused, Pick, Range, Value,
    ValueRefused,
};
use lethe_test_values::{SMALL, key_of};
use std::alloc::Global;
use std::process::Abort;

/// Why so many bytes are no key, if they are none.
fn key_refusal(alloc: Global, rt: &impl Abort, len: usize) -> Option<KeyRefused> {
    let bytes = vec![in alloc; 7; len].expect(rt, "memory");
    Key::new(bytes).err()
}

/// Why so many bytes are no value, if they are none.
fn value_refusal(alloc: Global, rt: &impl Abort, len: usize) -> Option<ValueRefused> {
    let bytes = vec![in alloc; 7; len].expect(rt, "memory");
    Value::new(bytes).err()
}

/// A copy of the put of key `a` and delete key 5 at place 1, with time 3.
fn copy_of_put(alloc: Global, rt: &impl Abort) -> Entry {
    let value = Value::new(Vec::new(alloc)).expect(rt, "a value");
    let entry = Entry {
        seq: 1,
        key: key_of(alloc, "a").expect(rt, "a key"),
        body: Body::Put { dkey: 5, value },
        since: Some(3),
    };
    entry.copy().expect(rt, "memory")
}

fn check_keys(alloc: Global, rt: &impl Abort) {
    let key = key_of(alloc, "a").expect(rt, "a key");
    let other = key_of(alloc, "ab").expect(rt, "a key");
    assert!(rt; key.copy().expect(rt, "memory").bytes() == b"a".as_slice());
    assert!(rt; key < other && key != other);
}

fn check_range(rt: &impl Abort) {
    assert!(rt; Range::new(2, 2).is_none());
    let range = Range::new(2, 9).expect(rt, "a range");
    assert!(rt; range.lo() == 2 && range.hi() == 9);
}

#[test]
fn types_of_the_base_keep_what_they_are_made_of(rt: HostRuntime) {
    check_keys(rt.alloc(), &rt);
    assert!(rt; matches!(key_refusal(rt.alloc(), &rt, 0), Some(KeyRefused::Empty)));
    assert!(rt; matches!(key_refusal(rt.alloc(), &rt, 256), Some(KeyRefused::Long)));
    assert!(rt;
        matches!(
            value_refusal(rt.alloc(), &rt, 4097),
            Some(ValueRefused::Long)
        )
    );
    let copy = copy_of_put(rt.alloc(), &rt);
    assert!(rt; matches!(copy.body, Body::Put { dkey: 5, .. }) && copy.since == Some(3));
    check_range(&rt);
}

const LEAST: Fields = Fields {
    threshold: 1,
    levels: 1,
    page: 1,
    tile: 1,
    file: 1,
    buffer: 1,
    ..SMALL
};

const GREATEST: Fields = Fields {
    threshold: 1 << 40,
    ratio: 16,
    levels: 6,
    page: 1024,
    tile: 64,
    file: 1,
    buffer: 16_384,
    pick: Pick::So,
};

const LONG: Fields = Fields {
    page: 4,
    tile: 64,
    file: 256,
    ..GREATEST
};

fn check_fields(rt: &impl Abort, fields: Fields) {
    let config = Config::new(fields).expect(rt, "a configuration");
    assert!(rt; *config.fields() == fields);
}

#[test]
fn a_configuration_is_within_its_limits(rt: HostRuntime) {
    check_fields(&rt, Fields::default());
    for fields in [SMALL, LEAST, GREATEST, LONG] {
        check_fields(&rt, fields);
    }
}

/// Fields, the first of them that breaks its limit, and its value.
const REFUSED: &[(Fields, Field, u64)] = &[
    (
        Fields {
            threshold: 0,
            ..SMALL
        },
        Field::Threshold,
        0,
    ),
    (
        Fields {
            threshold: (1 << 40) + 1,
            ratio: 1,
            ..SMALL
        },
        Field::Threshold,
        (1 << 40) + 1,
    ),
    (
        Fields {
            ratio: 1,
            buffer: 0,
            ..SMALL
        },
        Field::Ratio,
        1,
    ),
    (Fields { ratio: 17, ..SMALL }, Field::Ratio, 17),
    (Fields { levels: 0, ..SMALL }, Field::Levels, 0),
    (
        Fields {
            levels: 7,
            file: 0,
            ..SMALL
        },
        Field::Levels,
        7,
    ),
    (Fields { page: 0, ..SMALL }, Field::Page, 0),
    (
        Fields {
            page: 1025,
            ..SMALL
        },
        Field::Page,
        1025,
    ),
    (Fields { tile: 0, ..SMALL }, Field::Tile, 0),
    (
        Fields {
            tile: 65,
            file: 257,
            ..SMALL
        },
        Field::Tile,
        65,
    ),
    (Fields { file: 0, ..SMALL }, Field::File, 0),
    (Fields { file: 257, ..SMALL }, Field::File, 257),
    (
        Fields {
            page: 1024,
            tile: 64,
            ..SMALL
        },
        Field::File,
        2,
    ),
    (
        Fields {
            page: 257,
            tile: 1,
            file: 256,
            buffer: 0,
            ..SMALL
        },
        Field::File,
        256,
    ),
    (Fields { buffer: 0, ..SMALL }, Field::Buffer, 0),
    (Fields { buffer: 9, ..SMALL }, Field::Buffer, 9),
    (
        Fields {
            page: 1024,
            tile: 64,
            file: 1,
            buffer: 16_385,
            ..SMALL
        },
        Field::Buffer,
        16_385,
    ),
];

fn check_refused(rt: &impl Abort, fields: Fields, field: Field, value: u64) {
    let why = Config::new(fields).err();
    assert!(rt; why == Some(ConfigRefused { field, value }), "{why:?}");
}

#[test]
fn the_first_field_that_breaks_its_limit_is_named(rt: HostRuntime) {
    for (fields, field, value) in REFUSED {
        check_refused(&rt, *fields, *field, *value);
    }
}
