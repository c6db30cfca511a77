// Runs of bytes: summed, and stored as far as there is room. By index, since an iterator over a slice answers
// an Option of a reference, which processors of 32 bits lay out otherwise (docs/FIRMWARE.md).
ghost use Rattle.std.specs.Prelude.{◌≡◌, ◌+◌, ◌%◌};
ghost use Rattle.std.proofs.lemmas.List.Edits.{sets};
ghost use Rattle.packet.specs.Packet.{sum as sum_of};

// A running sum with these bytes more, modulo 256.
pub(crate) fn sum_with(from: u8, b: &[u8]) -> u8
    ensures { result ≡ (from + sum_of b.now) % 256 }
{
    let mut sum = from;
    for i in 0..b.len() {
        sum = sum.wrapping_add(b[i]);
    }
    sum
}

// Stores bytes from a place on. Those that find no room are dropped.
pub fn store(into: &mut [u8], at: usize, b: &[u8])
    ensures { into.new ≡ sets into.old at b.now }
{
    if at < into.len() {
        let n = b.len().min(into.len() - at);
        // Slices of one length: of a loop over these the compiler makes wide moves. `copy_from_slice` would
        // call memmove, which nothing else in the libraries for C does.
        let room = &mut into[at..at + n];
        let stored = &b[..n];
        for i in 0..n {
            room[i] = stored[i];
        }
    }
}
