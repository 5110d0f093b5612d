// What a record means.
ghost use Rattle.std.specs.Prelude.{◌≡◌};
ghost use Rattle.listing.specs.Meaning as spec;

use crate::items::{Body, First, Item, Rest, Section};
use crate::operands::NOP;
use crate::records::{Operation, Record};
use isa::{ImmediateForm, ImmediateFunction, Instruction};

// Words that are made without negating the value.
fn words(first: First, rest: Rest) -> Item
    ensures { result ≡ spec.words first rest }
{
    Item::Words(Body {
        first,
        rest,
        negated: false,
    })
}

fn alone(first: First) -> Item
    ensures { result ≡ spec.alone first }
{
    words(first, Rest::Nothing)
}

fn plain(i: Instruction) -> Item
    ensures { result ≡ spec.plain i }
{
    alone(First::Word(i))
}

fn immediate(form: ImmediateForm, i: Instruction) -> Item
    ensures { result ≡ spec.immediate form i }
{
    alone(First::Field(form, i))
}

fn negated_sum(rd: u8, ra: u8) -> Item
    ensures { result ≡ spec.negated_sum rd ra }
{
    let i = Instruction::Addi { rd, ra, imm: 0 };
    Item::Words(Body {
        first: First::Field(ImmediateForm::Signed, i),
        rest: Rest::Nothing,
        negated: true,
    })
}

fn signed_load(rd: u8, ra: u8) -> Item
    ensures { result ≡ spec.signed_load rd ra }
{
    let i = Instruction::Lb { rd, ra, imm: 0 };
    words(First::Field(ImmediateForm::ByteOffset, i), Rest::Sign(rd))
}

fn jump(ra: u8) -> Instruction
    ensures { result ≡ spec.jump ra }
{
    Instruction::Jal { rd: 0, ra, imm: 0 }
}

fn function_item(function: ImmediateFunction, rd: u8) -> Item
    ensures { result ≡ spec.function_item function rd }
{
    match function {
        ImmediateFunction::Srli
        | ImmediateFunction::Srai
        | ImmediateFunction::Slli
        | ImmediateFunction::Srxi
        | ImmediateFunction::Slxi => alone(First::Repeat(function, rd)),
        _ => immediate(
            ImmediateForm::Signed,
            Instruction::Immediate {
                function,
                rd,
                imm: 0,
            },
        ),
    }
}

impl Record {
    // What the record means.
    pub fn meaning(self) -> Item
        ensures { result ≡ spec.meaning self }
    {
        let Record { rd, ra, rb, .. } = self;
        match self.operation {
            Operation::Add => plain(Instruction::Add { rd, ra, rb }),
            Operation::Sub => plain(Instruction::Sub { rd, ra, rb }),
            Operation::Addi | Operation::Lea => immediate(
                ImmediateForm::Signed,
                Instruction::Addi { rd, ra, imm: 0 },
            ),
            Operation::Register(function) => plain(Instruction::Register { function, rd, rb }),
            Operation::Immediate(function) => function_item(function, rd),
            Operation::Lw => immediate(
                ImmediateForm::WordOffset,
                Instruction::Lw { rd, ra, imm: 0 },
            ),
            Operation::Lb => immediate(
                ImmediateForm::ByteOffset,
                Instruction::Lb { rd, ra, imm: 0 },
            ),
            Operation::Sw => immediate(
                ImmediateForm::WordOffset,
                Instruction::Sw { rd, ra, imm: 0 },
            ),
            Operation::Sb => immediate(
                ImmediateForm::ByteOffset,
                Instruction::Sb { rd, ra, imm: 0 },
            ),
            Operation::Jal => immediate(
                ImmediateForm::WordOffset,
                Instruction::Jal { rd, ra, imm: 0 },
            ),
            Operation::Call => alone(First::Call),
            Operation::Branch(condition) => alone(First::Branch(condition)),
            Operation::Cmp => plain(Instruction::Sub { rd: 0, ra, rb }),
            Operation::Cmpi => negated_sum(0, ra),
            Operation::J => immediate(ImmediateForm::WordOffset, jump(ra)),
            Operation::Lbs => signed_load(rd, ra),
            Operation::Nop => plain(NOP),
            Operation::Mov => plain(Instruction::Add { rd, ra, rb: 0 }),
            Operation::Ret => plain(jump(15)),
            Operation::Reti => plain(jump(14)),
            Operation::Sxt => words(First::Move(rd, ra), Rest::Both(rd)),
            Operation::Subi => negated_sum(rd, ra),
            Operation::Zext => words(First::Move(rd, ra), Rest::Zero(rd)),
            Operation::Text => Item::Section(Section::Text),
            Operation::Data => Item::Section(Section::Data),
            Operation::Byte => Item::Byte,
            Operation::Word => Item::Word,
            Operation::Align => Item::Align,
            Operation::Label => Item::Label,
        }
    }
}
