// What the lender of a buffer learns once the bottom over it is let go.
ghost use Rattle.std.specs.Prelude.{◌≡◌, is_ok, if◌then◌else◌, vec_len, vec_capacity};
ghost use Rattle.cells.specs.Calls.{ReadBy, write_answer};
ghost use Rattle.bottoms.specs.Memories.{cell_size, memory, memory_buffer};
ghost use Rattle.bottoms.specs.Pages.{flash};

use bottoms::flash::Flash;
use bottoms::memory::Memory;
use cells::fault::StoreFault;
use cells::store::Store;

/// Writes to a `Vec` that is lent as memory: its room and its length stay.
// What is written is told of a slice, below: the check does not follow the bytes of a `Vec` that is lent on as a slice into a store.
pub fn write_vec_memory(
    buf: &mut Vec<u8>,
    wished: usize,
    p: usize,
    bytes: &[u8],
) -> Result<(), StoreFault>
    ensures room { vec_capacity buf.new ≡ vec_capacity buf.old }
    ensures length { vec_len buf.new ≡ vec_len buf.old }
    ensures answer { result ≡ write_answer (memory (cell_size wished) buf.old.items) p bytes.now }
{
    Memory::new(buf, wished).write(p, bytes)
}

/// Writes to a `Vec` that is lent as flash: its room and its length stay.
pub fn write_vec_flash(buf: &mut Vec<u8>, p: usize, bytes: &[u8]) -> Result<(), StoreFault>
    ensures room { vec_capacity buf.new ≡ vec_capacity buf.old }
    ensures length { vec_len buf.new ≡ vec_len buf.old }
    ensures answer { result ≡ write_answer (flash buf.old.items) p bytes.now }
{
    Flash::new(buf).write(p, bytes)
}

/// Reads a cell of a slice that is lent as memory, and then writes to it, lending it once more.
pub fn read_then_write(
    buf: &mut [u8],
    wished: usize,
    p: usize,
    out: &mut [u8],
) -> Result<(), StoreFault>
    ensures read { ReadBy (memory (cell_size wished) buf.old) p out.old result out.new }
    ensures written { buf.new ≡ (if is_ok result then memory_buffer (cell_size wished) buf.old p out.new else buf.old) }
{
    Memory::new(buf, wished).read(p, out)?;
    Memory::new(buf, wished).write(p, out)
}
