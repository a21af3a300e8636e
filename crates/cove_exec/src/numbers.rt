ghost use Rattle.std.specs.Prelude.{◌≡◌, ◌≤◌, ◌<◌, ◌%◌, ◌^◌};
ghost use Rattle.cove_base.specs.Executions.{sign_extended, shifted_right_signed, is_less_signed};

/// The low bits of a word, as many as `width`.
pub fn low(a: u64, width: u32) -> u64
    requires { width ≤ 64 }
    ensures { result ≡ a % 2 ^ width }
{
    if width < 64 {
        a & ((1 << width) - 1)
    } else {
        a
    }
}

/// The low bits of a word, with their sign copied into the others.
pub fn extended(a: u64, width: u32) -> u64
    requires low { 0 < width }
    requires high { width ≤ 64 }
    ensures { result ≡ sign_extended width a }
{
    let bits = low(a, width);
    let half = 1 << (width - 1);
    if bits < half {
        bits
    } else {
        (bits - half).wrapping_sub(half)
    }
}

/// A shift to the right that copies the sign.
pub fn right_signed(a: u64, k: u32) -> u64
    requires { k < 64 }
    ensures { result ≡ shifted_right_signed a k }
{
    (a.cast_signed() >> k).cast_unsigned()
}

/// Compares words as signed numbers.
pub fn is_less_signed(a: u64, b: u64) -> bool
    ensures { result ≡ is_less_signed a b }
{
    a.cast_signed() < b.cast_signed()
}
