//! A digest as text.
ghost use Rattle.std.specs.Prelude.{◌≡◌};
ghost use Rattle.arrayvec.specs.ArrayString.{array_string_len};
ghost use Rattle.hex.specs.Hex.{encode_lower};

use arrayvec::ArrayString;
use hex::encode_to_slice;

/// A digest of 32 bytes as lower-case hexadecimal digits.
pub fn digest_digits(digest: [u8; 32]) -> ArrayString<64>
    ensures digits { result.bytes ≡ encode_lower digest }
    ensures len { array_string_len result ≡ 64 }
{
    let mut digits = [0u8; 64];
    let _ = encode_to_slice(digest, &mut digits);
    match ArrayString::from_byte_string(&digits) {
        Ok(text) => text,
        Err(_) => ArrayString::new(),
    }
}
