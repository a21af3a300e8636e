ghost use Rattle.std.specs.Prelude.{◌≡◌, ◌<◌, ◌≤◌, ◌^◌};
ghost use Rattle.cove_base.specs.Instructions.{field, signed, imm_i, imm_s, imm_b, imm_u, imm_j};

/// The bits of a word from `low` on, as many as `width`.
pub fn field(word: u32, low: u32, width: u32) -> u32
    requires low { low < 32 }
    requires width { width < 32 }
    ensures value { result ≡ field low width word }
    ensures fits { result < 2 ^ width }
{
    word >> low & ((1 << width) - 1)
}

/// The number of the register that the five bits from `low` on name.
pub fn register(word: u32, low: u32) -> u8
    requires { low < 32 }
    ensures { result ≡ field low 5 word }
{
    field(word, low, 5) as u8
}

/// The signed number that so many bits write.
fn signed(bits: u32, width: u32) -> i64
    requires low { 0 < width }
    requires high { width ≤ 32 }
    requires fits { bits < 2 ^ width }
    ensures { result ≡ signed width bits }
{
    let bits = bits as i64;
    if bits < 1 << (width - 1) {
        bits
    } else {
        bits - (1 << width)
    }
}

pub fn imm_i(word: u32) -> i64
    ensures { result ≡ imm_i word }
{
    signed(word >> 20, 12)
}

pub fn imm_s(word: u32) -> i64
    ensures { result ≡ imm_s word }
{
    signed((word >> 25) * 32 + field(word, 7, 5), 12)
}

pub fn imm_b(word: u32) -> i64
    ensures { result ≡ imm_b word }
{
    let high = (word >> 31) * 4096 + field(word, 7, 1) * 2048;
    signed(high + field(word, 25, 6) * 32 + field(word, 8, 4) * 2, 13)
}

pub fn imm_u(word: u32) -> i64
    ensures { result ≡ imm_u word }
{
    signed((word >> 12) * 4096, 32)
}

pub fn imm_j(word: u32) -> i64
    ensures { result ≡ imm_j word }
{
    let high = (word >> 31) * 0x10_0000 + field(word, 12, 8) * 4096;
    signed(
        high + field(word, 20, 1) * 2048 + field(word, 21, 10) * 2,
        21,
    )
}
