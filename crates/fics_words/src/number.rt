//! Decimals, without signs and leading zeros.

ghost use Rattle.std.specs.Prelude.{◌≡◌, ◌≢◌, ◌≤◌, ◌++◌, ℕ, decimal, IfSome, IfNone, OnOk, OnErr};
ghost use Rattle.fics_words.specs.Number.{IsDecimal};

use itoa::Buffer;
use memory::NoMemory;
use std::str;

/// Reads a decimal without leading zeros that is at most `most`: its value exactly where the bytes are one.
pub fn read_number(bytes: &[u8], most: u64) -> Option<u64>
    ensures value { IfSome result (IsDecimal most bytes.now) }
    ensures none { IfNone result ((n : ℕ) → n ≤ most → bytes.now ≢ decimal n) }
{
    let Ok(text) = str::from_utf8(bytes) else {
        return None;
    };
    let Ok(number) = text.parse::<u64>() else {
        return None;
    };
    if Buffer::new().format(number) != text {
        return None;
    }
    if number <= most { Some(number) } else { None }
}

/// Appends the decimal of `n`, without leading zeros; when out of memory `out` is as before.
pub fn write_number(out: &mut Vec<u8>, n: u64) -> Result<(), NoMemory>
    ensures written { OnOk result (out.new.items ≡ out.old.items ++ decimal n) }
    ensures unchanged { OnErr result (out.new.items ≡ out.old.items) }
{
    out.extend_from_slice(Buffer::new().format(n).as_bytes())?;
    Ok(())
}
