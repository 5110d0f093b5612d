// The program of the display: each phase goes on by its speed, its height is looked up, and the sum is stored.
ghost use Rattle.std.specs.Prelude.{◌<◌};

use crate::constituents::{Constituent, constituents};
use crate::drafts::{Draft, Label, constant, define, plain, reference, registers, word};
use isa::{Condition, ImmediateFunction, RegisterFunction};
use listing::{Operation, Record};
use machine::ServiceRange;
use std::alloc::Global;

// How many heights make one tide, half an hour apart.
pub(crate) const HEIGHTS: usize = 26;

// What the sum begins with, in millimetres above the chart's datum.
pub(crate) const MEAN_LEVEL: i32 = 4200;

pub(crate) const SERVICE: ServiceRange = ServiceRange {
    low: 0x0010,
    high: 0x0028,
};

// Where the service counts its ticks.
pub(crate) const TICKS: u16 = 0x0024;

// A block holds a constituent's phase and speed, high halves first; a table holds its heights.
pub(crate) const BLOCK_SIZE: u16 = 8;

const TABLE_SIZE: u16 = 32;

// How many constituents a turn of the inner loop sums.
const GROUP: u16 = 5;

// Where the heights are stored, from the beginning of the data.
pub(crate) const CURVE: u16 = 1202;

// The registers of the program.
const ZERO: u8 = 0;

const BLOCK: u8 = 1;

const PHASE_HIGH: u8 = 3;

const PHASE_LOW: u8 = 4;

const SPEED_HIGH: u8 = 5;

const SPEED_LOW: u8 = 6;

const SUM: u8 = 7;

const HEIGHT: u8 = 8;

const COLUMN: u8 = 9;

const TABLE: u8 = 11;

const BLOCKS_END: u8 = 12;

const CURVE_END: u8 = 13;

// What may be wrong with a program.
#[derive(Clone, Copy, PartialEq, Eq)]
pub(crate) enum Fault {
    // The service does not give back the register that it counts with.
    KeepsRegister,
    // The high half of the speed is loaded between the sum and its carry.
    PartsCarry,
}

// A tick is counted, with a register that is saved first.
fn counting() -> [Record; 4] {
    [
        reference(Operation::Sw, 1, ZERO, Label::Kept),
        reference(Operation::Lw, 1, ZERO, Label::Ticks),
        constant(Operation::Addi, 1, 1, 1),
        reference(Operation::Sw, 1, ZERO, Label::Ticks),
    ]
}

// The service ends, and after it stand its two words of data.
fn closing() -> [Record; 5] {
    [
        plain(Operation::Reti),
        define(Label::Ticks),
        word(0),
        define(Label::Kept),
        word(0),
    ]
}

// The service routine: it counts a tick and gives back the register that it counts with.
fn put_service(draft: &mut Draft, fault: Option<Fault>) -> anyhow::Result<()> {
    draft.put(&counting())?;
    if fault == Some(Fault::KeepsRegister) {
        draft.put(&[plain(Operation::Nop), plain(Operation::Nop)])?;
    } else {
        draft.put(&[reference(Operation::Lw, 1, ZERO, Label::Kept)])?;
    }
    draft.put(&closing())
}

// What is done once, before the first height.
fn beginning() -> [Record; 4] {
    [
        define(Label::Start),
        reference(Operation::Lea, COLUMN, ZERO, Label::Curve),
        reference(Operation::Lea, CURVE_END, ZERO, Label::CurveEnd),
        reference(Operation::Lea, BLOCKS_END, ZERO, Label::BlocksEnd),
    ]
}

// What is done before the constituents of a height are summed.
fn before_height() -> [Record; 5] {
    [
        define(Label::NextHeight),
        reference(Operation::Lea, BLOCK, ZERO, Label::Blocks),
        reference(Operation::Lea, TABLE, ZERO, Label::Tables),
        constant(Operation::Addi, SUM, ZERO, MEAN_LEVEL),
        define(Label::Group),
    ]
}

// One of the constituents of a group, by its number there.
#[derive(Clone, Copy)]
struct Member {
    number: u16,
    ghost grouped: { number < 5 },
}

impl Member {
    // Where its block begins, from the first block of the group.
    fn block(self) -> u16
        ensures { result < 40 }
    {
        self.number * BLOCK_SIZE
    }

    // Where its table begins, from the first table of the group.
    fn table(self) -> u16 {
        self.number * TABLE_SIZE
    }
}

// A load or a store of a block's half, or of its first byte, at an offset.
fn in_block(operation: Operation, register: u8, offset: u16) -> Record {
    constant(operation, register, BLOCK, i32::from(offset))
}

// The halves of the phase and the speed are loaded.
fn loading(member: Member) -> [Record; 4] {
    let block = member.block();
    [
        in_block(Operation::Lw, PHASE_LOW, block + 2),
        in_block(Operation::Lw, SPEED_LOW, block + 6),
        in_block(Operation::Lw, SPEED_HIGH, block + 4),
        in_block(Operation::Lw, PHASE_HIGH, block),
    ]
}

// The carry goes into the high half, and both halves are stored.
fn carrying(member: Member) -> [Record; 3] {
    let block = member.block();
    [
        registers(
            Operation::Register(RegisterFunction::Adc),
            PHASE_HIGH,
            0,
            SPEED_HIGH,
        ),
        in_block(Operation::Sw, PHASE_LOW, block + 2),
        in_block(Operation::Sw, PHASE_HIGH, block),
    ]
}

// The upper four bits of the phase choose the height, which is added to the sum.
fn looking_up(member: Member) -> [Record; 6] {
    [
        in_block(Operation::Lb, HEIGHT, member.block()),
        constant(
            Operation::Immediate(ImmediateFunction::Andi),
            HEIGHT,
            0,
            0x00F0,
        ),
        constant(Operation::Immediate(ImmediateFunction::Srli), HEIGHT, 0, 3),
        registers(Operation::Add, HEIGHT, HEIGHT, TABLE),
        constant(Operation::Lw, HEIGHT, HEIGHT, i32::from(member.table())),
        registers(Operation::Add, SUM, SUM, HEIGHT),
    ]
}

// The phase of one constituent goes on by its speed, and its height is added.
fn put_constituent(draft: &mut Draft, member: Member, fault: Option<Fault>) -> anyhow::Result<()> {
    draft.put(&loading(member))?;
    draft.put(&[registers(Operation::Add, PHASE_LOW, PHASE_LOW, SPEED_LOW)])?;
    if fault == Some(Fault::PartsCarry) {
        draft.put(&[in_block(Operation::Lw, SPEED_HIGH, member.block() + 4)])?;
    }
    draft.put(&carrying(member))?;
    draft.put(&looking_up(member))
}

// The next group, until all constituents are summed.
fn next_group() -> [Record; 4] {
    [
        constant(Operation::Addi, BLOCK, BLOCK, i32::from(GROUP * BLOCK_SIZE)),
        constant(Operation::Addi, TABLE, TABLE, i32::from(GROUP * TABLE_SIZE)),
        registers(Operation::Cmp, 0, BLOCK, BLOCKS_END),
        reference(Operation::Branch(Condition::Bne), 0, 0, Label::Group),
    ]
}

// The sum is stored for the display, and the next height follows, until the tide is over.
fn next_height() -> [Record; 7] {
    [
        reference(Operation::Sw, SUM, ZERO, Label::Display),
        constant(Operation::Sw, SUM, COLUMN, 0),
        constant(Operation::Addi, COLUMN, COLUMN, 2),
        registers(Operation::Cmp, 0, COLUMN, CURVE_END),
        reference(Operation::Branch(Condition::Bne), 0, 0, Label::NextHeight),
        define(Label::Done),
        reference(Operation::Branch(Condition::Br), 0, 0, Label::Done),
    ]
}

fn put_text(draft: &mut Draft, fault: Option<Fault>) -> anyhow::Result<()> {
    draft.put(&[
        reference(Operation::J, 0, ZERO, Label::Start),
        constant(Operation::Align, 0, 0, 16),
    ])?;
    put_service(draft, fault)?;
    draft.put(&beginning())?;
    draft.put(&before_height())?;
    for number in 0..GROUP {
        put_constituent(draft, Member { number }, fault)?;
    }
    draft.put(&next_group())?;
    draft.put(&next_height())
}

// The words of the two halves of a number, the high half first.
fn halves(value: u32) -> [Record; 2] {
    [
        word((value / 0x1_0000) as i32),
        word((value % 0x1_0000) as i32),
    ]
}

fn put_blocks(draft: &mut Draft) -> anyhow::Result<()> {
    for Constituent { start, speed, .. } in constituents() {
        draft.put(&halves(start))?;
        draft.put(&halves(speed))?;
    }
    Ok(())
}

fn put_tables(draft: &mut Draft) -> anyhow::Result<()> {
    for constituent in constituents() {
        draft.put(&constituent.heights().map(word))?;
    }
    Ok(())
}

// Blocks, tables, and what the display shows.
fn put_data(draft: &mut Draft) -> anyhow::Result<()> {
    draft.put(&[plain(Operation::Data), define(Label::Blocks)])?;
    put_blocks(draft)?;
    draft.put(&[define(Label::BlocksEnd), define(Label::Tables)])?;
    put_tables(draft)?;
    draft.put(&[define(Label::Display), word(0), define(Label::Curve)])?;
    draft.put(&[word(0); HEIGHTS])?;
    draft.put(&[define(Label::CurveEnd)])
}

// The whole listing, of the program as it should be or with one fault.
pub(crate) fn listing_with(heap: Global, fault: Option<Fault>) -> anyhow::Result<Vec<u8>> {
    let mut draft = Draft::new(heap);
    put_text(&mut draft, fault)?;
    put_data(&mut draft)?;
    Ok(draft.finish())
}

// The sum of all heights after so many half hours, in 32 bits and without the core.
pub(crate) fn expected_height(half_hours: u32) -> i32 {
    constituents().iter().fold(MEAN_LEVEL, |sum, constituent| {
        sum.wrapping_add(constituent.height_after(half_hours))
    })
}
