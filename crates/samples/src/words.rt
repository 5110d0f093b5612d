// Words that were worked out by hand, and all words in turn.
use isa::{Condition, ImmediateField, ImmediateForm, Instruction, read, write};
use std::test::Fail;

#[test]
fn words_by_hand(rt: HostRuntime) -> Result<(), Fail> {
    assert_eq!(rt;
        write(Instruction::Addi {
            rd: 1,
            ra: 1,
            imm: 4,
        })?,
        0x2114
    );
    assert_eq!(rt;
        write(Instruction::Lw {
            rd: 2,
            ra: 1,
            imm: 15,
        })?,
        0x521F
    );
    assert_eq!(rt;
        write(Instruction::Addi {
            rd: 0,
            ra: 5,
            imm: 15,
        })?,
        0x205F
    );
    assert_eq!(rt;
        write(Instruction::Branch {
            condition: Condition::Br,
            displacement: 0xFE,
        })?,
        0xB0FE
    );
    assert_eq!(rt; write(Instruction::Imm { imm12: 0x123 })?, 0xD123);
    Ok(())
}

#[test]
fn each_word_is_written_back_or_unknown(rt: HostRuntime) -> Result<(), Fail> {
    let mut unknown = 0u32;
    for word in 0..=u16::MAX {
        match read(word) {
            Ok(instruction) => assert_eq!(rt; write(instruction)?, word),
            Err(refusal) => {
                assert_eq!(rt; refusal.number(), 18);
                unknown = unknown.saturating_add(1);
            }
        }
    }
    assert_eq!(rt; unknown, 16384);
    Ok(())
}

#[test]
fn immediates_by_form(rt: HostRuntime) {
    let signed = ImmediateField {
        form: ImmediateForm::Signed,
        bits: 15,
    };
    let word_offset = ImmediateField {
        form: ImmediateForm::WordOffset,
        bits: 1,
    };
    assert_eq!(rt; signed.value(None), 0xFFFF);
    assert_eq!(rt; signed.value(Some(0x123)), 0x123F);
    assert_eq!(rt; word_offset.value(None), 16);
    assert_eq!(rt; word_offset.value(Some(0)), 1);
}

#[test]
fn branch_reaches_both_ends(rt: HostRuntime) {
    assert_eq!(rt; isa::branch_target(0x1000, 0x80), 0x0F04);
    assert_eq!(rt; isa::branch_target(0x1000, 0x7F), 0x1102);
}
