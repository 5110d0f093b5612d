// Listings built from records, and the words that they make.
ghost use Rattle.std.specs.Prelude.{◌≤◌};

use assembler::{LARGEST_IMAGE, assemble};
use isa::{Condition, ImmediateFunction, Refusal};
use listing::{Operation, Record};
use std::test::Fail;

// 0x800 records of one word each, and one record after them.
const LISTING: usize = 0x4008;

// Their words, padded to a multiple of 16.
const IMAGE: usize = 0x1010;

// One record more than a listing may have.
const LONGEST: usize = 4097 * 8;

// A record with the fields that these listings use.
fn record(operation: Operation, rd: u8, ra: u8, constant: i32) -> Record {
    Record {
        operation,
        rd,
        ra,
        rb: 0,
        reference: 0,
        label: 0,
        constant,
    }
}

// Writes a record in each place of eight bytes.
fn fill(listing: &mut [u8], record: Record) -> Result<(), Refusal> {
    let (places, _) = listing.as_chunks_mut::<8>();
    places.fill(record.write()?);
    Ok(())
}

// The number of a refusal, where there is one.
fn number_of<T: Drop>(answer: Result<T, Refusal>) -> Option<u8> {
    answer.err().map(|refusal| refusal.number())
}

// The word of a branch at 0x1000.
fn branch_at_0x1000(target: i32) -> Result<u16, Refusal> {
    let mut listing = [0u8; LISTING];
    let (words, branch) = listing.split_at_mut(LISTING - 8);
    fill(words, record(Operation::Word, 0, 0, 0x3000))?;
    fill(
        branch,
        record(Operation::Branch(Condition::Br), 0, 0, target),
    )?;
    let mut image = [0u8; IMAGE];
    assemble(&listing, &mut image)?;
    Ok(u16::from_be_bytes([image[0x1000], image[0x1001]]))
}

// The number of the refusal of so many equal records, with its index; none where they are accepted.
fn refusal_of_equal(record: Record, count: usize) -> Result<Option<(u8, usize)>, Refusal>
    requires { count ≤ 4097 }
{
    let mut listing = [0u8; LONGEST];
    let mut image = [0u8; LARGEST_IMAGE];
    let records = &mut listing[..8 * count];
    fill(records, record)?;
    let answer = assemble(records, &mut image);
    Ok(
        answer
            .err()
            .map(|refused| (refused.refusal.number(), refused.index)),
    )
}

#[test]
fn byte_offsets_above_15_take_a_prefix(rt: HostRuntime) -> Result<(), Fail> {
    let listing = record(Operation::Lb, 2, 1, 16).write()?;
    let mut image = [0u8; 16];
    assemble(&listing, &mut image).map_err(Refusal::from)?;
    assert_eq!(rt; u16::from_be_bytes([image[0], image[1]]), 0xD001);
    assert_eq!(rt; u16::from_be_bytes([image[2], image[3]]), 0x6210);
    Ok(())
}

#[test]
fn branches_reach_both_ends_and_no_farther(rt: HostRuntime) {
    assert_eq!(rt; branch_at_0x1000(0x0F04), Ok(0xB080));
    assert_eq!(rt; branch_at_0x1000(0x1102), Ok(0xB07F));
    assert_eq!(rt; number_of(branch_at_0x1000(0x0F02)), Some(12));
    assert_eq!(rt; number_of(branch_at_0x1000(0x1104)), Some(12));
}

#[test]
fn listings_are_refused_past_their_limits_and_not_at_them(rt: HostRuntime) -> Result<(), Fail> {
    let nop = record(Operation::Nop, 0, 0, 0);
    let shift = record(Operation::Immediate(ImmediateFunction::Srli), 1, 0, 15);
    assert_eq!(rt; refusal_of_equal(nop, 4096)?, None);
    assert_eq!(rt; refusal_of_equal(nop, 4097)?, Some((2, 4097)));
    assert_eq!(rt; refusal_of_equal(shift, 2176)?, None);
    assert_eq!(rt; refusal_of_equal(shift, 2177)?, Some((9, 2177)));
    Ok(())
}

#[test]
fn a_field_that_is_too_large_is_not_written(rt: HostRuntime) {
    let written = record(Operation::Addi, 16, 1, 0).write();
    assert_eq!(rt; number_of(written), Some(4));
}
