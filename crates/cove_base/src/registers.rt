ghost use Rattle.std.specs.Prelude.{◌≡◌, ◌<◌, replicate};

/// The registers of a vCPU: x0 to x31, of which x0 is always 0, and the place of the next instruction.
#[derive(Clone, Copy)]
pub struct Regs {
    pub pc: u64,
    x: [u64; 32],
}

impl Regs {
    ghost use Rattle.cove_base.specs.Registers.{registers, register, written};

    /// All registers 0, and the place 0.
    pub fn new() -> Self
        ensures place { result.pc ≡ 0 }
        ensures zeros { registers result ≡ replicate 32 0 }
    {
        Regs { pc: 0, x: [0; 32] }
    }

    /// What a register holds.
    pub fn get(&self, i: u8) -> u64
        requires { i < 32 }
        ensures { result ≡ register (registers self.now) i }
    {
        if i == 0 { 0 } else { self.x[i as usize] }
    }

    /// Writes a register; x0 stays 0.
    pub fn set(&mut self, i: u8, v: u64)
        requires { i < 32 }
        ensures place { self.new.pc ≡ self.old.pc }
        ensures registers { registers self.new ≡ written (registers self.old) i v }
    {
        if i != 0 {
            self.x[i as usize] = v;
        }
    }
}
