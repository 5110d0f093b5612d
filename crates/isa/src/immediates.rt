// The sixteen bits that an instruction works with: immediates and branch targets.
ghost use Rattle.std.specs.Prelude.{◌≡◌};
ghost use Rattle.isa.specs.Immediates as spec;

use crate::instructions::{ImmediateField, ImmediateForm, Instruction};

impl Instruction {
    // The four-bit immediate, for an instruction that has one.
    pub fn immediate_field(self) -> Option<ImmediateField>
        ensures { result ≡ spec.immediate_field self }
    {
        match self {
            Instruction::Addi { imm, .. } | Instruction::Immediate { imm, .. } => Some(
                ImmediateField {
                    form: ImmediateForm::Signed,
                    bits: imm,
                },
            ),
            Instruction::Lb { imm, .. } | Instruction::Sb { imm, .. } => Some(ImmediateField {
                form: ImmediateForm::ByteOffset,
                bits: imm,
            }),
            Instruction::Lw { imm, .. }
            | Instruction::Sw { imm, .. }
            | Instruction::Jal { imm, .. } => Some(ImmediateField {
                form: ImmediateForm::WordOffset,
                bits: imm,
            }),
            _ => None,
        }
    }
}

impl ImmediateField {
    // The immediate that the field forms with the pending prefix, or by its form where none is pending.
    pub fn value(self, prefix: Option<u16>) -> u16
        ensures { result ≡ spec.formed self prefix }
    {
        let bits = u16::from(self.bits);
        match (prefix, self.form) {
            (Some(imm12), _) => imm12.wrapping_mul(16).wrapping_add(bits),
            (None, ImmediateForm::Signed) => {
                if bits < 8 {
                    bits
                } else {
                    bits.wrapping_sub(16)
                }
            }
            (None, ImmediateForm::ByteOffset) => bits,
            (None, ImmediateForm::WordOffset) => bits / 2 * 2 + bits % 2 * 16,
        }
    }
}

// Where a branch at an address goes: the displacement counts words from the second word after it.
pub fn branch_target(address: u16, displacement: u8) -> u16
    ensures { result ≡ spec.branch_target address displacement }
{
    let words = i16::from(displacement.cast_signed());
    address
        .wrapping_add(4)
        .wrapping_add((words * 2).cast_unsigned())
}
