// Flat and mapped memory at their edges.
use isa::Refusal;
use memory::{FlatMemory, MappedMemory, Memory, PageTable, agree, store_word};
use std::test::Fail;

// Page i at frame i, all open.
fn straight() -> [u16; 16] {
    std::array::from_fn(|page| 0x8000 + page as u16)
}

#[test]
fn flat_memory_ends_at_its_buffer(rt: HostRuntime) {
    let mut buffer = [0u8; 4];
    let mut memory = FlatMemory::new(&mut buffer);
    store_word(&mut memory, 3, 0x1234);
    assert!(rt; memory.is_open(3));
    assert!(rt; !memory.is_open(4));
    assert_eq!(rt; memory.read(3), 0x12);
    assert_eq!(rt; memory.read(4), 0xFF);
    assert_eq!(rt; buffer[3], 0x12);
}

#[test]
fn page_tables_refuse_what_is_malformed(rt: HostRuntime) {
    let mut equal = straight();
    equal[3] = 0x0002;
    let mut bit_14 = straight();
    bit_14[0] = 0xC000;
    let mut frame_32 = straight();
    frame_32[15] = 32;
    assert_eq!(rt; PageTable::new(equal), Err(Refusal::Page));
    assert_eq!(rt; PageTable::new(bit_14), Err(Refusal::Page));
    assert_eq!(rt; PageTable::new(frame_32), Err(Refusal::Page));
    assert!(rt; PageTable::new(straight()).is_ok());
}

#[test]
fn mapped_memory_goes_through_its_table(rt: HostRuntime) -> Result<(), Fail> {
    let mut words = straight();
    words[0] = 0x8001;
    words[1] = 0x0000;
    let table = PageTable::new(words)?;
    let mut buffer = [7u8; 8192];
    let mut memory = MappedMemory::new(table, &mut buffer);
    memory.store(5, 9);
    memory.store(0x1005, 9);
    assert_eq!(rt; memory.read(5), 9);
    assert_eq!(rt; memory.read(0x1005), 7);
    assert_eq!(rt; memory.read(0x2000), 0xFF);
    assert!(rt; !memory.is_open(0x1005));
    assert_eq!(rt; buffer[0x1005], 9);
    Ok(())
}

#[test]
fn memories_of_two_types_agree(rt: HostRuntime) -> Result<(), Fail> {
    let mut first = [7u8; 4096];
    let mut second = [7u8; 4096];
    let table = PageTable::new(straight())?;
    let mut flat = FlatMemory::new(&mut first);
    let mut mapped = MappedMemory::new(table, &mut second);
    assert!(rt; agree(&flat, &mapped));
    store_word(&mut flat, 4095, 0x0102);
    assert!(rt; !agree(&flat, &mapped));
    store_word(&mut mapped, 4095, 0x0102);
    assert!(rt; agree(&flat, &mapped));
    Ok(())
}
