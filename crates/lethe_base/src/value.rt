//! Values.
ghost use Rattle.std.specs.Prelude.{◌≡◌, ◌<◌, ◌↔◌, length, IfOk, IsErrOf};
ghost use Rattle.lethe_base.specs.Limits.{IsValue};

use crate::NoMemory;
use std::marker::Model;

/// The greatest number of bytes of a value.
pub const MAX_VALUE: usize = 4096;

/// At most 4,096 bytes, any bytes. Contracts see a value as the list of its bytes.
#[derive(Debug, Drop)]
pub struct Value {
    bytes: Vec<u8>,
}

impl Model for Value {
    ghost use Rattle.std.specs.Prelude.{List, ℕ};
    ghost use Rattle.lethe_base.specs.Limits.{IsValue};

    ghost Value = { List ℕ };

    ghost view = { λ v. v.bytes.items };

    ghost invariant = { λ v. IsValue v.bytes.items };
}

/// Why bytes are no value.
#[derive(Clone, Copy, Debug, PartialEq, Eq)]
pub enum ValueRefused {
    /// There are more than 4,096 bytes.
    Long,
}

impl Value {
    /// The value of these bytes.
    pub fn new(bytes: Vec<u8>) -> Result<Value, ValueRefused>
        ensures value { IfOk result (λ value. value ≡ bytes.items) }
        ensures long { IsErrOf result ValueRefused.Long ↔ (4096 < length bytes.items) }
    {
        if bytes.len() > MAX_VALUE {
            Err(ValueRefused::Long)
        } else {
            Ok(Value { bytes })
        }
    }

    /// Its bytes.
    pub fn bytes(&self) -> &[u8]
        ensures bytes { result.now ≡ self.now }
        ensures limits { IsValue self.now }
    {
        &self.bytes
    }

    /// A value of the same bytes.
    pub fn copy(&self) -> Result<Value, NoMemory>
        ensures { IfOk result (λ value. value ≡ self.now) }
    {
        Ok(Value {
            bytes: Vec::from_slice(*self.bytes.allocator(), &self.bytes)?,
        })
    }
}
