ghost use Rattle.std.specs.Prelude.{◌<◌};

use cove_base::{CsrMode, Plan, Regs};
use cove_exec::{decode, finish, merge, pick, plan_of};
use std::test::Fail;

// The plan of a word at 0x10000, with a value in one register.
fn plan(word: u32, register: u8, value: u64) -> Plan
    requires { register < 32 }
{
    let mut regs = Regs::new();
    regs.set(register, value);
    regs.pc = 0x10000;
    match decode(word) {
        Some(insn) => plan_of(&regs, insn),
        None => Plan::Trap(2),
    }
}

#[test]
fn words_of_a_guest(rt: HostRuntime) -> Result<(), Fail> {
    assert!(rt; matches!(plan(0, 0, 0), Plan::Trap(2)));
    assert!(rt;
        matches!(
            plan(0x0001_12b7, 0, 0),
            Plan::Done {
                rd: 5,
                value: 0x11000,
                pc: 0x10004
            }
        )
    );
    assert!(rt;
        matches!(
            plan(0x41f2_d29b, 5, 0x8000_0000),
            Plan::Done {
                rd: 5,
                value: 0xffff_ffff_ffff_ffff,
                pc: 0x10004
            }
        )
    );
    assert!(rt;
        matches!(
            plan(0x0000_006f, 0, 0),
            Plan::Done {
                rd: 0,
                value: _,
                pc: 0x10000
            }
        )
    );
    assert!(rt;
        matches!(
            plan(0x0205_1063, 10, 1),
            Plan::Done {
                rd: 0,
                value: _,
                pc: 0x10020
            }
        )
    );
    assert!(rt; matches!(plan(0x0022_8067, 5, 0x10000), Plan::Trap(0)));
    assert!(rt;
        matches!(
            plan(0x0002_b303, 5, 0x11000),
            Plan::Load {
                addr: 0x11000,
                size: 8,
                signed: false,
                rd: 6
            }
        )
    );
    assert!(rt;
        matches!(
            plan(0x15c0_2373, 0, 0),
            Plan::Csr {
                csr: 0x15c,
                mode: CsrMode::Set,
                source: 0,
                writes: false,
                rd: 6
            }
        )
    );
    Ok(())
}

#[test]
fn a_word_is_put_and_taken(rt: HostRuntime) -> Result<(), Fail> {
    let word = merge(0x8877_6655_4433_2211, 2, 2, 0xffff_eeee);
    assert_eq!(rt; word, 0x8877_6655_eeee_2211);
    assert_eq!(rt; pick(word, 2, 2, true), 0xffff_ffff_ffff_eeee);
    let mut regs = Regs::new();
    finish(&mut regs, 0, word, 4);
    assert_eq!(rt; regs.get(0), 0);
    assert_eq!(rt; regs.pc, 4);
    Ok(())
}
