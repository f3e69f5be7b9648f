// A text as a value, and a list of whole numbers.
ghost use Rattle.std.specs.Prelude.{◌≡◌, IfOk, IfErr, IsErrOf, map};
ghost use Rattle.std.specs.List.{AllZip};
ghost use Rattle.serde_json.specs.Data.{Data};
ghost use Rattle.serde_json.specs.View.{view};
ghost use Rattle.json_value.specs.Values.{IsText, IsNumber};
ghost use Rattle.json_value.specs.Faults.{OnOther};
ghost use Rattle.json_value.specs.declared.text.NumberFault.TheVariants.{OutOfMemory};

use serde_json::Value;
use std::alloc::{AllocError, AllocFailed, Global};

/// Why bytes give no value.
#[derive(Clone, Copy, Debug, PartialEq, Eq)]
pub enum ParseFault {
    NotJson,
    OutOfMemory,
}

/// Why values give no whole numbers.
#[derive(Clone, Copy, Debug, PartialEq, Eq)]
pub enum NumberFault {
    /// The first value that is no whole number has this place, from 0.
    NotInteger(u64),
    OutOfMemory,
}

impl<T: Drop> From<AllocFailed<T>> for NumberFault {
    ghost from_gives = { λ _ e. e ≡ OutOfMemory };

    fn from(_: AllocFailed<T>) -> Self {
        NumberFault::OutOfMemory
    }
}

impl From<AllocError> for NumberFault {
    ghost from_gives = { λ _ e. e ≡ OutOfMemory };

    fn from(_: AllocError) -> Self {
        NumberFault::OutOfMemory
    }
}

/// The value of a text of JSON. Time and memory grow with the length.
pub fn parse(alloc: Global, bytes: &[u8]) -> Result<Value, ParseFault>
    ensures ok { IfOk result (λ v. IsText bytes.now (view v)) }
    // No text of JSON is refused as none.
    ensures not_json { IsErrOf result ParseFault.NotJson → (d : Data) → ¬ IsText bytes.now d }
{
    match Value::from_slice(alloc, bytes) {
        Ok(value) => Ok(value),
        Err(error) if error.is_memory() => Err(ParseFault::OutOfMemory),
        Err(_) => Err(ParseFault::NotJson),
    }
}

/// The whole numbers that the values are.
pub fn numbers_in(alloc: Global, values: &[Value]) -> Result<Vec<i64>, NumberFault>
    ensures ok { IfOk result (λ v. AllZip IsNumber (map view values.now) v.items) }
    // The place is that of the first value that is none.
    ensures other { IfErr result (λ e. OnOther e (map view values.now)) }
{
    let mut numbers = Vec::new(alloc);
    let mut place: u64 = 0;
    for value in values {
        match value.as_i64() {
            Some(number) => numbers.push(number)?,
            None => return Err(NumberFault::NotInteger(place)),
        }
        place += 1;
    }
    Ok(numbers)
}
