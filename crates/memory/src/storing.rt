// What is done over any memory: words, images, and the comparison of two memories.
ghost use Rattle.std.specs.Prelude.{◌≡◌, Decides};
ghost use Rattle.memory.specs.Meaning.{AgreeAt};
ghost use Rattle.memory.specs.Words.{stored_image, stored_word, word_at};

use crate::interface::Memory;

// The big-endian word at an address and the next one.
pub fn load_word<M: Memory>(memory: &M, address: u16) -> u16
    ensures { result ≡ word_at (M.Memory.means memory.now).byte address }
{
    u16::from_be_bytes([memory.read(address), memory.read(address.wrapping_add(1))])
}

// Stores a word big-endian, each byte by itself.
pub fn store_word<M: Memory>(memory: &mut M, address: u16, value: u16)
    ensures meaning { M.Memory.means memory.new ≡ stored_word (M.Memory.means memory.old) address value }
    ensures lent { M.Memory.loan memory.new ≡ M.Memory.loan memory.old }
{
    let [high, low] = value.to_be_bytes();
    memory.store(address, high);
    memory.store(address.wrapping_add(1), low);
}

// Stores an image from address 0 on; what lies past the last address is not stored. By address: by enumerate and `u16::try_from` a
// load took nearly twice the time, and a zip with the addresses left the loop's proof open.
pub fn store_image<M: Memory>(memory: &mut M, image: &[u8])
    ensures meaning { M.Memory.means memory.new ≡ stored_image (M.Memory.means memory.old) image.now }
    ensures lent { M.Memory.loan memory.new ≡ M.Memory.loan memory.old }
{
    for address in 0..=u16::MAX {
        let Some(&value) = image.get(usize::from(address)) else {
            return;
        };
        memory.store(address, value);
    }
}

fn agree_at<M: Memory, N: Memory>(first: &M, second: &N, address: u16) -> bool
    ensures { Decides result (AgreeAt (M.Memory.means first.now) (N.Memory.means second.now) address) }
{
    first.read(address) == second.read(address) && first.is_open(address) == second.is_open(address)
}

// Whether two memories, of one type or of two, have the same byte and the same mark at every address.
pub fn agree<M: Memory, N: Memory>(first: &M, second: &N) -> bool
    ensures { Decides result (M.Memory.means first.now ≡ N.Memory.means second.now) }
{
    (0..=u16::MAX).all(|address| agree_at(first, second, address))
}
