ghost use Rattle.std.specs.Prelude.{◌≡◌, IfSome};
ghost use Rattle.cove_base.specs.Encodings.{encoded, significant, FieldsFit};
ghost use Rattle.cove_base.specs.Instructions.{decoded, branch_of, load_insn, store_insn, immediate_of, shift_of, shift_of_32, operation_of, operation_of_32, csr_of, whole_word_of};
ghost use Rattle.cove_base.specs.declared.instructions.Insn.{Insn};

use crate::fields::{field, imm_b, imm_i, imm_j, imm_s, imm_u, register};
use cove_base::Insn;

/// The instruction of a word, or None where it is none of RV64I and Zicsr, nor WFI.
pub fn decode(word: u32) -> Option<Insn>
    ensures table { result ≡ decoded word }
    ensures fits { IfSome result FieldsFit }

    // An instruction that is encoded is the word again. A FENCE has fields that aren't looked at.
    ensures again { IfSome result (λ insn. encoded insn ≡ significant word) }
    ensures found { (insn : Insn) → FieldsFit insn → encoded insn ≡ significant word → result ≡ Some insn }
{
    instruction(word)
}

fn instruction(word: u32) -> Option<Insn>
    ensures { result ≡ decoded word }
{
    let funct3 = field(word, 12, 3);
    let rd = register(word, 7);
    let rs1 = register(word, 15);
    let rs2 = register(word, 20);
    match word % 128 {
        0x37 => Some(Insn::Lui {
            rd,
            imm: imm_u(word),
        }),
        0x17 => Some(Insn::Auipc {
            rd,
            imm: imm_u(word),
        }),
        0x6f => Some(Insn::Jal {
            rd,
            imm: imm_j(word),
        }),
        0x67 if funct3 == 0 => Some(Insn::Jalr {
            rd,
            rs1,
            imm: imm_i(word),
        }),
        0x63 => branch(funct3, rs1, rs2, imm_b(word)),
        0x03 => load(funct3, rd, rs1, imm_i(word)),
        0x23 => store(funct3, rs1, rs2, imm_s(word)),
        0x13 if funct3 % 4 == 1 => shift(word >> 26, funct3, rd, rs1, field(word, 20, 6) as i64),
        0x13 => immediate(funct3, rd, rs1, imm_i(word)),
        0x1b if funct3 == 0 => Some(Insn::Addiw {
            rd,
            rs1,
            imm: imm_i(word),
        }),
        0x1b => shift_32(word >> 25, funct3, rd, rs1, rs2 as i64),
        0x33 => operation(word >> 25, funct3, rd, rs1, rs2),
        0x3b => operation_32(word >> 25, funct3, rd, rs1, rs2),
        0x0f if funct3 == 0 => Some(Insn::Fence),
        0x73 if funct3 == 0 => whole_word(word),
        0x73 => csr(funct3, rd, rs1, (word >> 20) as u16),
        _ => None,
    }
}

fn branch(funct3: u32, rs1: u8, rs2: u8, imm: i64) -> Option<Insn>
    ensures { result ≡ branch_of funct3 rs1 rs2 imm }
{
    Some(match funct3 {
        0 => Insn::Beq { rs1, rs2, imm },
        1 => Insn::Bne { rs1, rs2, imm },
        4 => Insn::Blt { rs1, rs2, imm },
        5 => Insn::Bge { rs1, rs2, imm },
        6 => Insn::Bltu { rs1, rs2, imm },
        7 => Insn::Bgeu { rs1, rs2, imm },
        _ => return None,
    })
}

fn load(funct3: u32, rd: u8, rs1: u8, imm: i64) -> Option<Insn>
    ensures { result ≡ load_insn funct3 rd rs1 imm }
{
    Some(match funct3 {
        0 => Insn::Lb { rd, rs1, imm },
        1 => Insn::Lh { rd, rs1, imm },
        2 => Insn::Lw { rd, rs1, imm },
        3 => Insn::Ld { rd, rs1, imm },
        4 => Insn::Lbu { rd, rs1, imm },
        5 => Insn::Lhu { rd, rs1, imm },
        6 => Insn::Lwu { rd, rs1, imm },
        _ => return None,
    })
}

fn store(funct3: u32, rs1: u8, rs2: u8, imm: i64) -> Option<Insn>
    ensures { result ≡ store_insn funct3 rs1 rs2 imm }
{
    Some(match funct3 {
        0 => Insn::Sb { rs1, rs2, imm },
        1 => Insn::Sh { rs1, rs2, imm },
        2 => Insn::Sw { rs1, rs2, imm },
        3 => Insn::Sd { rs1, rs2, imm },
        _ => return None,
    })
}

fn immediate(funct3: u32, rd: u8, rs1: u8, imm: i64) -> Option<Insn>
    ensures { result ≡ immediate_of funct3 rd rs1 imm }
{
    Some(match funct3 {
        0 => Insn::Addi { rd, rs1, imm },
        2 => Insn::Slti { rd, rs1, imm },
        3 => Insn::Sltiu { rd, rs1, imm },
        4 => Insn::Xori { rd, rs1, imm },
        6 => Insn::Ori { rd, rs1, imm },
        7 => Insn::Andi { rd, rs1, imm },
        _ => return None,
    })
}

fn shift(funct6: u32, funct3: u32, rd: u8, rs1: u8, imm: i64) -> Option<Insn>
    ensures { result ≡ shift_of funct6 funct3 rd rs1 imm }
{
    Some(match (funct6, funct3) {
        (0, 1) => Insn::Slli { rd, rs1, imm },
        (0, 5) => Insn::Srli { rd, rs1, imm },
        (0x10, 5) => Insn::Srai { rd, rs1, imm },
        _ => return None,
    })
}

fn shift_32(funct7: u32, funct3: u32, rd: u8, rs1: u8, imm: i64) -> Option<Insn>
    ensures { result ≡ shift_of_32 funct7 funct3 rd rs1 imm }
{
    Some(match (funct7, funct3) {
        (0, 1) => Insn::Slliw { rd, rs1, imm },
        (0, 5) => Insn::Srliw { rd, rs1, imm },
        (0x20, 5) => Insn::Sraiw { rd, rs1, imm },
        _ => return None,
    })
}

fn operation(funct7: u32, funct3: u32, rd: u8, rs1: u8, rs2: u8) -> Option<Insn>
    ensures { result ≡ operation_of funct7 funct3 rd rs1 rs2 }
{
    Some(match (funct7, funct3) {
        (0, 0) => Insn::Add { rd, rs1, rs2 },
        (0, 1) => Insn::Sll { rd, rs1, rs2 },
        (0, 2) => Insn::Slt { rd, rs1, rs2 },
        (0, 3) => Insn::Sltu { rd, rs1, rs2 },
        (0, 4) => Insn::Xor { rd, rs1, rs2 },
        (0, 5) => Insn::Srl { rd, rs1, rs2 },
        (0, 6) => Insn::Or { rd, rs1, rs2 },
        (0, 7) => Insn::And { rd, rs1, rs2 },
        (0x20, 0) => Insn::Sub { rd, rs1, rs2 },
        (0x20, 5) => Insn::Sra { rd, rs1, rs2 },
        _ => return None,
    })
}

fn operation_32(funct7: u32, funct3: u32, rd: u8, rs1: u8, rs2: u8) -> Option<Insn>
    ensures { result ≡ operation_of_32 funct7 funct3 rd rs1 rs2 }
{
    Some(match (funct7, funct3) {
        (0, 0) => Insn::Addw { rd, rs1, rs2 },
        (0, 1) => Insn::Sllw { rd, rs1, rs2 },
        (0, 5) => Insn::Srlw { rd, rs1, rs2 },
        (0x20, 0) => Insn::Subw { rd, rs1, rs2 },
        (0x20, 5) => Insn::Sraw { rd, rs1, rs2 },
        _ => return None,
    })
}

fn csr(funct3: u32, rd: u8, rs1: u8, csr: u16) -> Option<Insn>
    ensures { result ≡ csr_of funct3 rd rs1 csr }
{
    Some(match funct3 {
        1 => Insn::Csrrw { rd, rs1, csr },
        2 => Insn::Csrrs { rd, rs1, csr },
        3 => Insn::Csrrc { rd, rs1, csr },
        5 => Insn::Csrrwi { rd, rs1, csr },
        6 => Insn::Csrrsi { rd, rs1, csr },
        7 => Insn::Csrrci { rd, rs1, csr },
        _ => return None,
    })
}

fn whole_word(word: u32) -> Option<Insn>
    ensures { result ≡ whole_word_of word }
{
    Some(match word {
        0x0000_0073 => Insn::Ecall,
        0x0010_0073 => Insn::Ebreak,
        0x1050_0073 => Insn::Wfi,
        _ => return None,
    })
}
