//! Bits of a byte, palettes and the planes of a tile row.

ghost use Rattle.std.specs.Prelude.{◌≡◌, ◌<◌};
ghost use Rattle.picture_lines.specs.Bits.{has_bit as is_bit_set, shade_of, plane_colour};

#[tactic(auto, using(std::proofs::lemmas::Nat::Bits::shr_and_one), unfolding(crate::specs::Bits::has_bit))]
pub(crate) fn has_bit(byte: u8, place: u32) -> bool
    requires { place < 8 }
    ensures { result ≡ is_bit_set byte place }
{
    (byte >> place) & 1 == 1
}

#[tactic(auto, unfolding(crate::specs::Bits::shade_of))]
pub(crate) fn shade(palette: u8, colour: u8) -> u8
    requires { colour < 4 }
    ensures value { result ≡ shade_of palette colour }
    ensures small { result < 4 }
{
    (palette >> (2 * colour)) & 3
}

#[tactic(auto, using(std::proofs::lemmas::Nat::Bits::shr_and_one), unfolding(crate::specs::Bits::plane_colour))]
pub(crate) fn colour(low: u8, high: u8, column: u8) -> u8
    requires { column < 8 }
    ensures value { result ≡ plane_colour low high column }
    ensures small { result < 4 }
{
    2 * ((high >> (7 - column)) & 1) + ((low >> (7 - column)) & 1)
}
