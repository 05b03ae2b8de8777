//! The fields of a snapshot, and which bytes a field may have.

ghost use Rattle.std.specs.Prelude.{◌≡◌, ◌+◌, ◌==◌, nat_lt, slice_index};
ghost use Rattle.std.specs.List.{list_all};
ghost use Rattle.snapshot.specs.Table.{number_of, part_of, is_magic_at, is_legal};
ghost use Rattle.snapshot.specs.Reading.{word_at};

/// Which bytes a field may have.
#[derive(Clone, Copy)]
pub enum Rule {
    /// All.
    Any,
    /// `GBSNAP01`.
    Magic,
    /// A number from the first to the last of these.
    Between(u16, u16),
    /// A number with no bits but these.
    Bits(u16),
    /// Each byte 0.
    Zeros,
    /// Each byte below 16.
    HalfBytes,
}

/// A field: where it begins, how many bytes it has, and which it may have. One of two bytes is a number with the low byte
/// first.
#[derive(Clone, Copy)]
pub struct SnapshotField {
    pub offset: u32,
    pub width: u32,
    pub rule: Rule,
}

/// A byte, or 0 beyond the end.
pub(crate) fn byte_at(bytes: &[u8], offset: u32) -> u8
    ensures { result ≡ slice_index bytes.now offset }
{
    match bytes.get(offset as usize) {
        Some(byte) => *byte,
        None => 0,
    }
}

/// The byte after it, or 0 beyond the end.
fn byte_after(bytes: &[u8], offset: u32) -> u8
    ensures { result ≡ slice_index bytes.now (offset + 1) }
{
    match bytes.get(offset as usize + 1) {
        Some(byte) => *byte,
        None => 0,
    }
}

/// The number of two bytes, the low one first.
pub(crate) fn word_at(bytes: &[u8], offset: u32) -> u16
    ensures { result ≡ word_at bytes.now offset }
{
    u16::from(byte_at(bytes, offset)) + 256 * u16::from(byte_after(bytes, offset))
}

fn is_byte_at(bytes: &[u8], offset: u32, place: u8, value: u8) -> bool
    ensures { result ≡ (slice_index bytes.now (offset + place) == value) }
{
    match bytes.get(offset as usize + usize::from(place)) {
        Some(byte) => *byte == value,
        None => value == 0,
    }
}

fn is_magic_at(bytes: &[u8], offset: u32) -> bool
    ensures { result ≡ is_magic_at offset bytes.now }
{
    byte_at(bytes, offset) == b'G'
        && is_byte_at(bytes, offset, 1, b'B')
        && is_byte_at(bytes, offset, 2, b'S')
        && is_byte_at(bytes, offset, 3, b'N')
        && is_byte_at(bytes, offset, 4, b'A')
        && is_byte_at(bytes, offset, 5, b'P')
        && is_byte_at(bytes, offset, 6, b'0')
        && is_byte_at(bytes, offset, 7, b'1')
}

fn are_zeros(part: &[u8]) -> bool
    ensures { result ≡ list_all (λ byte. byte == 0) part.now }
{
    part.iter().all(|byte| *byte == 0)
}

fn are_half_bytes(part: &[u8]) -> bool
    ensures { result ≡ list_all (λ byte. nat_lt byte 16) part.now }
{
    part.iter().all(|byte| *byte < 16)
}

impl SnapshotField {
    fn number(self, bytes: &[u8]) -> u16
        ensures { result ≡ number_of self bytes.now }
    {
        if self.width == 2 {
            return word_at(bytes, self.offset);
        }
        u16::from(byte_at(bytes, self.offset))
    }

    /// The bytes of the field, as many as there are.
    fn part(self, bytes: &[u8]) -> &[u8]
        ensures { result.now ≡ part_of self bytes.now }
    {
        let start = (self.offset as usize).min(bytes.len());
        let end = (self.offset as usize + self.width as usize).min(bytes.len());
        &bytes[start..end]
    }

    pub(crate) fn is_legal(self, bytes: &[u8]) -> bool
        ensures { result ≡ is_legal self bytes.now }
    {
        match self.rule {
            Rule::Any => true,
            Rule::Magic => is_magic_at(bytes, self.offset),
            Rule::Between(first, last) => {
                let number = self.number(bytes);
                first <= number && number <= last
            }
            Rule::Bits(bits) => {
                let number = self.number(bytes);
                number & bits == number
            }
            Rule::Zeros => are_zeros(self.part(bytes)),
            Rule::HalfBytes => are_half_bytes(self.part(bytes)),
        }
    }
}
