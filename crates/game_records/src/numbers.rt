//! Numbers in records, which stand with their high byte first.
ghost use Rattle.std.specs.Prelude.{◌≡◌, ◌++◌, OnOk, drop, take, slice_index};
ghost use Rattle.game_records.specs.Numbers.{two_bytes, four_bytes, eight_bytes};
ghost use Rattle.game_records.specs.Reading.{two_in, four_in, eight_in};

use crate::bytes::write_bytes;
use memory::NoMemory;

/// The byte at a place, and 0 behind the end.
pub(crate) fn byte_at(bytes: &[u8], place: usize) -> u8
    ensures { result ≡ slice_index bytes.now place }
{
    bytes.get(place).copied().unwrap_or(0)
}

/// The bytes behind the first so many, of which there may be fewer.
pub(crate) fn behind(bytes: &[u8], count: usize) -> &[u8]
    ensures { result.now ≡ drop count bytes.now }
{
    &bytes[count.min(bytes.len())..]
}

/// The first so many bytes, of which there may be fewer.
pub(crate) fn front(bytes: &[u8], count: usize) -> &[u8]
    ensures { result.now ≡ take count bytes.now }
{
    &bytes[..count.min(bytes.len())]
}

/// The number of the first two bytes.
#[tactic(auto, unfolding(crate::specs::Reading::two_in))]
pub(crate) fn two_in(bytes: &[u8]) -> u16
    ensures { result ≡ two_in bytes.now }
{
    u16::from_be_bytes([byte_at(bytes, 0), byte_at(bytes, 1)])
}

/// The number of the first four bytes.
#[tactic(auto, unfolding(crate::specs::Reading::four_in))]
pub(crate) fn four_in(bytes: &[u8]) -> u32
    ensures { result ≡ four_in bytes.now }
{
    u32::from_be_bytes([
        byte_at(bytes, 0),
        byte_at(bytes, 1),
        byte_at(bytes, 2),
        byte_at(bytes, 3),
    ])
}

/// The number of the first eight bytes.
#[tactic(auto, unfolding(crate::specs::Reading::eight_in))]
pub(crate) fn eight_in(bytes: &[u8]) -> u64
    ensures { result ≡ eight_in bytes.now }
{
    u64::from_be_bytes([
        byte_at(bytes, 0),
        byte_at(bytes, 1),
        byte_at(bytes, 2),
        byte_at(bytes, 3),
        byte_at(bytes, 4),
        byte_at(bytes, 5),
        byte_at(bytes, 6),
        byte_at(bytes, 7),
    ])
}

/// Appends the two bytes of a number.
#[tactic(auto, unfolding(crate::specs::Numbers::two_bytes))]
pub(crate) fn write_two(out: &mut Vec<u8>, number: u16) -> Result<(), NoMemory>
    ensures { OnOk result (out.new.items ≡ out.old.items ++ two_bytes number) }
{
    write_bytes(out, &number.to_be_bytes())
}

/// Appends the four bytes of a number.
#[tactic(auto, unfolding(crate::specs::Numbers::four_bytes))]
pub(crate) fn write_four(out: &mut Vec<u8>, number: u32) -> Result<(), NoMemory>
    ensures { OnOk result (out.new.items ≡ out.old.items ++ four_bytes number) }
{
    write_bytes(out, &number.to_be_bytes())
}

/// Appends the eight bytes of a number.
#[tactic(auto, unfolding(crate::specs::Numbers::eight_bytes))]
pub(crate) fn write_eight(out: &mut Vec<u8>, number: u64) -> Result<(), NoMemory>
    ensures { OnOk result (out.new.items ≡ out.old.items ++ eight_bytes number) }
{
    write_bytes(out, &number.to_be_bytes())
}
