//! Each byte of a line by its place: with its high bit set, xor a byte of the key, minus 32 modulo 256.
ghost use Rattle.std.specs.Prelude.{◌≡◌};
ghost use Rattle.stamp_codec.specs.Opening.{decipher};
ghost use Rattle.stamp_codec.specs.Spelling.{by_place, cipher, key_at};

/// The key of a stamped line.
const KEY: &[u8; 50] = b"Timestamp (FICS) v1.0 - programmed by Henrik Gram.";

/// Changes each byte by its place as it stands on the line.
pub(crate) fn encipher_line(bytes: &mut [u8])
    ensures { bytes.new ≡ by_place cipher 0 bytes.old }
{
    for (place, byte) in bytes.iter_mut().enumerate() {
        *byte = encipher(place, *byte);
    }
}

/// Changes each byte of a line back. What no byte below 128 stands for on the line becomes 128 or more.
pub(crate) fn decipher_line(bytes: &mut [u8])
    ensures { bytes.new ≡ by_place decipher 0 bytes.old }
{
    for (place, byte) in bytes.iter_mut().enumerate() {
        *byte = decipher(place, *byte);
    }
}

fn encipher(place: usize, byte: u8) -> u8
    ensures { result ≡ cipher place byte }
{
    ((byte | 0x80) ^ key_at(place)).wrapping_sub(32)
}

fn decipher(place: usize, byte: u8) -> u8
    ensures { result ≡ decipher place byte }
{
    (byte.wrapping_add(32) ^ key_at(place)) ^ 0x80
}

fn key_at(place: usize) -> u8
    ensures { result ≡ key_at place }
{
    KEY[place % KEY.len()]
}
