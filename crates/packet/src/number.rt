// Numbers of two bytes, least significant first.
ghost use Rattle.std.specs.Prelude.{◌≡◌, ◌+◌, ◌*◌, ◌<◌};

// The number whose bytes are lo and hi.
pub fn word(lo: u8, hi: u8) -> usize
    ensures { (result ≡ lo + 256 * hi) × (result < 65536) }
{
    usize::from(u16::from_le_bytes([lo, hi]))
}
