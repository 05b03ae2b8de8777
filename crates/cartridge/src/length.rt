//! The lengths that an image may have.
ghost use Rattle.std.specs.Prelude.{◌≡◌, ◌≤◌, IsTrue};
ghost use Rattle.cartridge.specs.Length.{is_image_length};

/// Whether the length is 32 KiB times a power of two.
pub fn is_rom_length(length: usize) -> bool
    ensures test { result ≡ is_image_length length }
    ensures least { IsTrue result → 32768 ≤ length }
{
    let mut rest = length;
    while rest > 0x8000 && rest % 2 == 0 {
        rest /= 2;
    }
    rest == 0x8000
}
