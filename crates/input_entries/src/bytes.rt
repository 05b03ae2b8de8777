//! Tests of a few bytes, and numbers in a sector.
ghost use Rattle.std.specs.Prelude.{◌≡◌, ◌≤◌, ◌+◌, length, take, drop};
ghost use Rattle.std.specs.Int.{w16, w32, w64, from_le_bytes};
ghost use Rattle.input_entries.specs.Bytes.{begins_with, zeros};

/// Whether the bytes begin with these.
pub fn begins_with(magic: &[u8], bytes: &[u8]) -> bool
    requires { length magic.now ≤ length bytes.now }
    ensures { result ≡ begins_with magic.now bytes.now }
{
    for (i, byte) in magic.iter().enumerate() {
        if bytes[i] != *byte {
            return false;
        }
    }
    true
}

/// Whether each byte is zero.
pub fn is_zeros(bytes: &[u8]) -> bool
    ensures { result ≡ zeros bytes.now }
{
    for byte in bytes {
        if *byte != 0 {
            return false;
        }
    }
    true
}

/// The two bytes of a sector from `at` on, low byte first. Condition: there are so many.
pub fn u16_at(sector: &[u8; 512], at: usize) -> u16
    requires { at + 2 ≤ 512 }
    ensures { result ≡ from_le_bytes w16 (take 2 (drop at sector.now)) }
{
    let mut bytes = [0; 2];
    bytes.copy_from_slice(&sector[at..at + 2]);
    u16::from_le_bytes(bytes)
}

/// The four bytes of a sector from `at` on, low byte first. Condition: there are so many.
pub fn u32_at(sector: &[u8; 512], at: usize) -> u32
    requires { at + 4 ≤ 512 }
    ensures { result ≡ from_le_bytes w32 (take 4 (drop at sector.now)) }
{
    let mut bytes = [0; 4];
    bytes.copy_from_slice(&sector[at..at + 4]);
    u32::from_le_bytes(bytes)
}

/// The eight bytes of a sector from `at` on, low byte first. Condition: there are so many.
pub fn u64_at(sector: &[u8; 512], at: usize) -> u64
    requires { at + 8 ≤ 512 }
    ensures { result ≡ from_le_bytes w64 (take 8 (drop at sector.now)) }
{
    let mut bytes = [0; 8];
    bytes.copy_from_slice(&sector[at..at + 8]);
    u64::from_le_bytes(bytes)
}
