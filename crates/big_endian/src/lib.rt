// Big-endian numbers of up to eight bytes in a slice: read and written at a place.
// With the width a constant the compiler makes one load or store and a swap of bytes of a call.
#![tactic(auto)]

ghost use Rattle.std.specs.Prelude.{◌≡◌, ◌++◌, ◌+◌, ◌^◌, ◌≤◌, ◌<◌, length, take, drop};
ghost use Rattle.laws.specs.Numbers.{number_at, bytes_of};

// The number in the W bytes from a place on, the highest first.
pub fn number_at<const W: usize>(bytes: &[u8], at: usize) -> u64
    requires { (W ≤ 8) × (at + W ≤ length bytes.now) }
    ensures { (result ≡ number_at bytes.now at W) × (result < 256 ^ W) }
{
    let mut whole = [0u8; 8];
    whole[8 - W..].copy_from_slice(&bytes[at..at + W]);
    u64::from_be_bytes(whole)
}

// Writes the W lowest bytes of a number at a place, the highest first, and the rest of the part stays.
pub fn put_number<const W: usize>(part: &mut [u8], at: usize, x: u64)
    requires { (W ≤ 8) × (at + W ≤ length part.old) }
    ensures { part.new ≡ take at part.old ++ bytes_of W x ++ drop (at + W) part.old }
{
    part[at..at + W].copy_from_slice(&x.to_be_bytes()[8 - W..]);
}
