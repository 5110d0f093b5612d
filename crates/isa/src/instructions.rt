// An instruction by its kind and the fields of its word.
#[derive(Clone, Copy, PartialEq, Eq)]
pub enum RegisterFunction {
    And,
    Or,
    Xor,
    Andn,
    Adc,
    Sbc,
}

#[derive(Clone, Copy, PartialEq, Eq)]
pub enum ImmediateFunction {
    Andi,
    Ori,
    Xori,
    Andni,
    Adci,
    Sbci,
    Srli,
    Srai,
    Slli,
    Srxi,
    Slxi,
}

#[derive(Clone, Copy, PartialEq, Eq)]
pub enum Condition {
    Br = 0,
    Beq = 2,
    Bne,
    Bc,
    Bnc,
    Bv,
    Bnv,
    Blt,
    Bge,
    Ble,
    Bgt,
    Bltu,
    Bgeu,
    Bleu,
    Bgtu,
}

#[derive(Clone, Copy, PartialEq, Eq)]
pub enum Instruction {
    Add {
        rd: u8,
        ra: u8,
        rb: u8,
    },
    Sub {
        rd: u8,
        ra: u8,
        rb: u8,
    },
    Addi {
        rd: u8,
        ra: u8,
        imm: u8,
    },
    Register {
        function: RegisterFunction,
        rd: u8,
        rb: u8,
    },
    Immediate {
        function: ImmediateFunction,
        rd: u8,
        imm: u8,
    },
    Lw {
        rd: u8,
        ra: u8,
        imm: u8,
    },
    Lb {
        rd: u8,
        ra: u8,
        imm: u8,
    },
    Sw {
        rd: u8,
        ra: u8,
        imm: u8,
    },
    Sb {
        rd: u8,
        ra: u8,
        imm: u8,
    },
    Jal {
        rd: u8,
        ra: u8,
        imm: u8,
    },
    Branch {
        condition: Condition,
        displacement: u8,
    },
    Call {
        imm12: u16,
    },
    Imm {
        imm12: u16,
    },
}

// How the four bits of an immediate become sixteen where no prefix is pending.
#[derive(Clone, Copy, PartialEq, Eq)]
pub enum ImmediateForm {
    Signed,
    ByteOffset,
    WordOffset,
}

// The four-bit immediate of an instruction.
#[derive(Clone, Copy, PartialEq, Eq)]
pub struct ImmediateField {
    pub form: ImmediateForm,
    pub bits: u8,
}
