ghost use Rattle.std.specs.Prelude.{◌≡◌, ◌≤◌, ◌+◌, ◌++◌, ◌↔◌, IsTrue, length, take, drop};

use cove_base::Quote;

// Appends bytes, for which there is room.
pub(crate) fn append(quote: &mut Quote, bytes: &[u8])
    requires { length quote.old + length bytes.now ≤ 512 }
    ensures { quote.new ≡ quote.old ++ bytes.now }
{
    for byte in bytes {
        quote.push(*byte);
    }
}

// The `N` bytes at a place.
pub(crate) fn array_at<const N: usize>(bytes: &[u8], place: usize) -> [u8; N]
    requires { place + N ≤ length bytes.now }
    ensures { result ≡ take N (drop place bytes.now) }
{
    let mut array = [0; N];
    array.copy_from_slice(&bytes[place..place + N]);
    array
}

// Two macs are the same. Each pair of bytes is looked at, wherever the first difference stands.
pub(crate) fn are_equal(a: &[u8; 48], b: &[u8; 48]) -> bool
    ensures { IsTrue result ↔ (a.now ≡ b.now) }
{
    let mut difference = 0;
    for i in 0..48 {
        difference |= a[i] ^ b[i];
    }
    difference == 0
}
