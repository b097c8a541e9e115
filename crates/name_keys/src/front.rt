ghost use Rattle.std.specs.Prelude.{◌≡◌, ◌<◌, ◌+◌, ◌*◌, ◌^◌, slice_index};
ghost use Rattle.name_keys.specs.Fronts.{front};

/// The byte at a place of a text, or 0.
#[inline]
fn byte(text: &[u8], at: usize) -> u64
    ensures value { result ≡ slice_index text.now at }
    ensures bound { result < 2 ^ 8 }
{
    match text.get(at) {
        Some(byte) => u64::from(*byte),
        None => 0,
    }
}

/// Four bytes of a text as a number.
#[inline]
fn four(text: &[u8], at: usize) -> u64
    requires { at < 8 }
    ensures value { result ≡ slice_index text.now at * 2 ^ 24 + slice_index text.now (at + 1) * 2 ^ 16 + slice_index text.now (at + 2) * 2 ^ 8 + slice_index text.now (at + 3) }
    ensures bound { result < 2 ^ 32 }
{
    byte(text, at) * 0x100_0000
        + byte(text, at + 1) * 0x1_0000
        + byte(text, at + 2) * 0x100
        + byte(text, at + 3)
}

/// The first eight bytes of a text as a number.
#[inline]
pub fn front_of(text: &[u8]) -> u64
    ensures { result ≡ front 8 text.now }
{
    four(text, 0) * 0x1_0000_0000 + four(text, 4)
}
