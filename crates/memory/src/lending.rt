// What a lent buffer holds once the memory over it is gone.
ghost use Rattle.memory.specs.Lending.{FlatBytes, MappedBytes};

use crate::flat::FlatMemory;
use crate::mapped::MappedMemory;
use crate::page_tables::PageTable;
use crate::storing::store_image;

// Stores an image in a buffer through flat memory.
pub fn store_image_in(buffer: &mut [u8], image: &[u8])
    ensures { FlatBytes image.now buffer.old buffer.new }
{
    let mut flat = FlatMemory::new(buffer);
    store_image(&mut flat, image);
}

// Stores an image in a buffer of frames through mapped memory: its promise speaks of page words and frames, which flat memory has not.
pub fn store_mapped_image_in(table: PageTable, buffer: &mut [u8], image: &[u8])
    ensures { MappedBytes table.words image.now buffer.old buffer.new }
{
    let mut mapped = MappedMemory::new(table, buffer);
    store_image(&mut mapped, image);
}
