ghost use Rattle.std.specs.Prelude.{◌≡◌, ◌<◌};
ghost use Rattle.cove_base.specs.Encodings.{FieldsFit};
ghost use Rattle.cove_base.specs.Executions.{plan, plus, as_word, flag, goes_on, is_less_signed, jumps, branches, loads, shifted_right_signed, sign_extended, stores, IsFinished, IsUsablePlan};
ghost use Rattle.cove_base.specs.Registers.{registers, register};

use crate::numbers::{extended, is_less_signed, low, right_signed};
use cove_base::{CsrMode, Insn, Plan, Regs};

/// Ends an instruction: a value in one of the registers, and the place of the next instruction.
pub fn finish(regs: &mut Regs, rd: u8, value: u64, pc: u64)
    requires { rd < 32 }
    ensures { IsFinished regs.old regs.new rd value pc }
{
    regs.set(rd, value);
    regs.pc = pc;
}

fn goes_on(pc: u64, rd: u8, value: u64) -> Plan
    ensures { result ≡ goes_on pc rd value }
{
    Plan::Done {
        rd,
        value,
        pc: pc.wrapping_add(4),
    }
}

fn jumps(pc: u64, rd: u8, target: u64) -> Plan
    ensures { result ≡ jumps pc rd target }
{
    if target % 4 != 0 {
        return Plan::Trap(0);
    }
    Plan::Done {
        rd,
        value: pc.wrapping_add(4),
        pc: target,
    }
}

fn branches(pc: u64, test: bool, imm: i64) -> Plan
    ensures { result ≡ branches pc test imm }
{
    if !test {
        return goes_on(pc, 0, 0);
    }
    let target = pc.wrapping_add(imm.cast_unsigned());
    if target % 4 != 0 {
        return Plan::Trap(0);
    }
    Plan::Done {
        rd: 0,
        value: 0,
        pc: target,
    }
}

fn loads(addr: u64, size: u8, signed: bool, rd: u8) -> Plan
    requires { 0 < size }
    ensures { result ≡ loads addr size signed rd }
{
    if addr % size as u64 != 0 {
        return Plan::Trap(4);
    }
    Plan::Load {
        addr,
        size,
        signed,
        rd,
    }
}

fn stores(addr: u64, size: u8, value: u64) -> Plan
    requires { 0 < size }
    ensures { result ≡ stores addr size value }
{
    if addr % size as u64 != 0 {
        return Plan::Trap(6);
    }
    Plan::Store { addr, size, value }
}

// 1 or 0 for a register, by a test.
fn sets(pc: u64, rd: u8, test: bool) -> Plan
    ensures { result ≡ goes_on pc rd (flag test) }
{
    goes_on(pc, rd, test as u64)
}

// The low 32 bits of a value for a register, with their sign.
fn extends(pc: u64, rd: u8, value: u64) -> Plan
    ensures { result ≡ goes_on pc rd (sign_extended 32 value) }
{
    goes_on(pc, rd, extended(value, 32))
}

// The low 32 bits of a value for a register, with their sign, shifted to the right.
fn shifts_word(pc: u64, rd: u8, value: u64, k: u32) -> Plan
    requires { k < 64 }
    ensures { result ≡ goes_on pc rd (shifted_right_signed (sign_extended 32 value) k) }
{
    goes_on(pc, rd, right_signed(extended(value, 32), k))
}

fn reaches(csr: u16, mode: CsrMode, source: u64, writes: bool, rd: u8) -> Plan
    ensures { result ≡ Plan.Csr csr mode source writes rd }
{
    Plan::Csr {
        csr,
        mode,
        source,
        writes,
        rd,
    }
}

// Whether one register is below another, as signed numbers.
fn are_rising(regs: &Regs, rs1: u8, rs2: u8) -> bool
    requires low { rs1 < 32 }
    requires high { rs2 < 32 }
    ensures { result ≡ is_less_signed (register (registers regs.now) rs1) (register (registers regs.now) rs2) }
{
    is_less_signed(regs.get(rs1), regs.get(rs2))
}

// The sum of a register and an immediate.
fn sum(regs: &Regs, rs1: u8, imm: i64) -> u64
    requires { rs1 < 32 }
    ensures { result ≡ plus (register (registers regs.now) rs1) (as_word imm) }
{
    regs.get(rs1).wrapping_add(imm.cast_unsigned())
}

/// What an instruction does, which needs that its numbers fit their fields, as those of `decode` do.
pub fn plan_of(regs: &Regs, insn: Insn) -> Plan
    requires { FieldsFit insn }
    ensures plan { result ≡ plan (registers regs.now) regs.now.pc insn }
    ensures usable { IsUsablePlan result }
{
    planned(regs, insn)
}

// An arm an instruction, in the order of `plan`.
fn planned(regs: &Regs, insn: Insn) -> Plan
    requires { FieldsFit insn }
    ensures { result ≡ plan (registers regs.now) regs.now.pc insn }
{
    let pc = regs.pc;
    match insn {
        Insn::Lui { rd, imm } => goes_on(pc, rd, imm.cast_unsigned()),
        Insn::Auipc { rd, imm } => goes_on(pc, rd, pc.wrapping_add(imm.cast_unsigned())),
        Insn::Jal { rd, imm } => jumps(pc, rd, pc.wrapping_add(imm.cast_unsigned())),
        Insn::Jalr { rd, rs1, imm } => jumps(pc, rd, sum(regs, rs1, imm) / 2 * 2),
        Insn::Beq { rs1, rs2, imm } => branches(pc, regs.get(rs1) == regs.get(rs2), imm),
        Insn::Bne { rs1, rs2, imm } => branches(pc, regs.get(rs1) != regs.get(rs2), imm),
        Insn::Blt { rs1, rs2, imm } => branches(pc, are_rising(regs, rs1, rs2), imm),
        Insn::Bge { rs1, rs2, imm } => branches(pc, !are_rising(regs, rs1, rs2), imm),
        Insn::Bltu { rs1, rs2, imm } => branches(pc, regs.get(rs1) < regs.get(rs2), imm),
        Insn::Bgeu { rs1, rs2, imm } => branches(pc, regs.get(rs1) >= regs.get(rs2), imm),
        Insn::Lb { rd, rs1, imm } => loads(sum(regs, rs1, imm), 1, true, rd),
        Insn::Lh { rd, rs1, imm } => loads(sum(regs, rs1, imm), 2, true, rd),
        Insn::Lw { rd, rs1, imm } => loads(sum(regs, rs1, imm), 4, true, rd),
        Insn::Ld { rd, rs1, imm } => loads(sum(regs, rs1, imm), 8, false, rd),
        Insn::Lbu { rd, rs1, imm } => loads(sum(regs, rs1, imm), 1, false, rd),
        Insn::Lhu { rd, rs1, imm } => loads(sum(regs, rs1, imm), 2, false, rd),
        Insn::Lwu { rd, rs1, imm } => loads(sum(regs, rs1, imm), 4, false, rd),
        Insn::Sb { rs1, rs2, imm } => stores(sum(regs, rs1, imm), 1, regs.get(rs2)),
        Insn::Sh { rs1, rs2, imm } => stores(sum(regs, rs1, imm), 2, regs.get(rs2)),
        Insn::Sw { rs1, rs2, imm } => stores(sum(regs, rs1, imm), 4, regs.get(rs2)),
        Insn::Sd { rs1, rs2, imm } => stores(sum(regs, rs1, imm), 8, regs.get(rs2)),
        Insn::Addi { rd, rs1, imm } => goes_on(pc, rd, sum(regs, rs1, imm)),
        Insn::Slti { rd, rs1, imm } => sets(
            pc,
            rd,
            is_less_signed(regs.get(rs1), imm.cast_unsigned()),
        ),
        Insn::Sltiu { rd, rs1, imm } => sets(pc, rd, regs.get(rs1) < imm.cast_unsigned()),
        Insn::Xori { rd, rs1, imm } => goes_on(pc, rd, regs.get(rs1) ^ imm.cast_unsigned()),
        Insn::Ori { rd, rs1, imm } => goes_on(pc, rd, regs.get(rs1) | imm.cast_unsigned()),
        Insn::Andi { rd, rs1, imm } => goes_on(pc, rd, regs.get(rs1) & imm.cast_unsigned()),
        Insn::Slli { rd, rs1, imm } => goes_on(pc, rd, regs.get(rs1) << imm as u32),
        Insn::Srli { rd, rs1, imm } => goes_on(pc, rd, regs.get(rs1) >> imm as u32),
        Insn::Srai { rd, rs1, imm } => goes_on(pc, rd, right_signed(regs.get(rs1), imm as u32)),
        Insn::Addiw { rd, rs1, imm } => extends(pc, rd, sum(regs, rs1, imm)),
        Insn::Slliw { rd, rs1, imm } => extends(pc, rd, regs.get(rs1) << imm as u32),
        Insn::Srliw { rd, rs1, imm } => extends(pc, rd, low(regs.get(rs1), 32) >> imm as u32),
        Insn::Sraiw { rd, rs1, imm } => shifts_word(pc, rd, regs.get(rs1), imm as u32),
        Insn::Add { rd, rs1, rs2 } => goes_on(pc, rd, regs.get(rs1).wrapping_add(regs.get(rs2))),
        Insn::Sub { rd, rs1, rs2 } => goes_on(pc, rd, regs.get(rs1).wrapping_sub(regs.get(rs2))),
        Insn::Sll { rd, rs1, rs2 } => goes_on(pc, rd, regs.get(rs1) << (regs.get(rs2) % 64)),
        Insn::Slt { rd, rs1, rs2 } => sets(pc, rd, are_rising(regs, rs1, rs2)),
        Insn::Sltu { rd, rs1, rs2 } => sets(pc, rd, regs.get(rs1) < regs.get(rs2)),
        Insn::Xor { rd, rs1, rs2 } => goes_on(pc, rd, regs.get(rs1) ^ regs.get(rs2)),
        Insn::Srl { rd, rs1, rs2 } => goes_on(pc, rd, regs.get(rs1) >> (regs.get(rs2) % 64)),
        Insn::Sra { rd, rs1, rs2 } => goes_on(
            pc,
            rd,
            right_signed(regs.get(rs1), (regs.get(rs2) % 64) as u32),
        ),
        Insn::Or { rd, rs1, rs2 } => goes_on(pc, rd, regs.get(rs1) | regs.get(rs2)),
        Insn::And { rd, rs1, rs2 } => goes_on(pc, rd, regs.get(rs1) & regs.get(rs2)),
        Insn::Addw { rd, rs1, rs2 } => extends(pc, rd, regs.get(rs1).wrapping_add(regs.get(rs2))),
        Insn::Subw { rd, rs1, rs2 } => extends(pc, rd, regs.get(rs1).wrapping_sub(regs.get(rs2))),
        Insn::Sllw { rd, rs1, rs2 } => extends(pc, rd, regs.get(rs1) << (regs.get(rs2) % 32)),
        Insn::Srlw { rd, rs1, rs2 } => extends(
            pc,
            rd,
            low(regs.get(rs1), 32) >> (regs.get(rs2) % 32),
        ),
        Insn::Sraw { rd, rs1, rs2 } => shifts_word(
            pc,
            rd,
            regs.get(rs1),
            (regs.get(rs2) % 32) as u32,
        ),
        Insn::Fence => goes_on(pc, 0, 0),
        Insn::Ecall => Plan::Ecall,
        Insn::Ebreak => Plan::Trap(3),
        Insn::Wfi => Plan::Wfi,
        Insn::Csrrw { rd, rs1, csr } => reaches(csr, CsrMode::Write, regs.get(rs1), true, rd),
        Insn::Csrrs { rd, rs1, csr } => reaches(csr, CsrMode::Set, regs.get(rs1), rs1 != 0, rd),
        Insn::Csrrc { rd, rs1, csr } => reaches(csr, CsrMode::Clear, regs.get(rs1), rs1 != 0, rd),
        Insn::Csrrwi { rd, rs1, csr } => reaches(csr, CsrMode::Write, rs1 as u64, true, rd),
        Insn::Csrrsi { rd, rs1, csr } => reaches(csr, CsrMode::Set, rs1 as u64, rs1 != 0, rd),
        Insn::Csrrci { rd, rs1, csr } => reaches(csr, CsrMode::Clear, rs1 as u64, rs1 != 0, rd),
    }
}
