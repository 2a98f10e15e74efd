// Memory: cells that lie one after another in a buffer, and always take a write.
ghost use Rattle.std.specs.Prelude.{◌≡◌, ◌<◌, ◌≤◌, length, is_ok, if◌then◌else◌};
ghost use Rattle.cells.specs.Calls.{ReadBy, WroteBy};
ghost use Rattle.bottoms.specs.Parts.{whole_parts};
ghost use Rattle.bottoms.specs.Memories.{cell_size, memory, memory_buffer, memory_bounded};

use crate::buffer::Buffer;
use crate::parts::{padded, part, whole_parts};
use cells::fault::StoreFault;
use cells::store::{LARGEST_CELL, Store, admit};

/// The wished size of a cell, brought into 1 to 239.
pub fn memory_size(wished: usize) -> usize
    ensures { result ≡ cell_size wished }
{
    wished.clamp(1, LARGEST_CELL)
}

/// How many cells a buffer of `len` bytes has as memory: as many as fit, at most 512.
pub fn memory_count(len: usize, wished: usize) -> usize
    ensures { result ≡ whole_parts len (cell_size wished) }
{
    whole_parts(len, memory_size(wished))
}

/// Reads the cell `p` of a buffer, as memory over it with cells of the wished size would.
// Kept beside `read_flash`: each is promised over a slice, and what they have in common is `admit`.
pub fn read_memory(buf: &[u8], wished: usize, p: usize, out: &mut [u8]) -> Result<(), StoreFault>
    ensures { ReadBy (memory (cell_size wished) buf.now) p out.old result out.new }
{
    let size = memory_size(wished);
    admit(memory_count(buf.len(), wished), size, p, out.len())?;
    out.copy_from_slice(&part(buf, size, p)[..out.len()]);
    Ok(())
}

/// Memory over a buffer. What the buffer holds beyond its last cell is never touched.
#[derive(Drop)]
pub struct Memory<B> {
    buf: B,
    wished: usize,
}

impl<'a> Memory<&'a mut [u8]> {
    /// Takes a lent buffer as it is, with cells of the wished size, which is brought into 1 to 239. Whatever lends its bytes as a slice will do, and
    /// nothing of it but these bytes is touched.
    pub fn new(buf: &'a mut [u8], wished: usize) -> Memory<&'a mut [u8]>
        ensures bytes { result.buf.now ≡ buf.old }
        ensures lender { result.buf.ghost_name ≡ buf.entry.ghost_name }
        ensures buffer { result.buf ≡ buf.entry }
        ensures wished { result.wished ≡ wished }
    {
        Memory { buf, wished }
    }
}

impl<B: Buffer> Memory<B> {
    /// Takes the buffer of any holder, its own too, as it is, with cells of the wished size, which is brought into 1 to 239.
    pub fn over(buf: B, wished: usize) -> Memory<B>
        ensures buffer { result.buf ≡ buf }
        ensures wished { result.wished ≡ wished }
    {
        Self { buf, wished }
    }

    /// Hands the buffer back.
    pub fn end(self) -> B
        ensures { result ≡ self.buf }
    {
        let Memory { buf, wished: _ } = self;
        buf
    }

    // Makes the cell `p` these bytes, and then zeros.
    fn fill(&mut self, p: usize, bytes: &[u8])
        requires there { p < whole_parts (length (B.bytes self.old.buf)) (cell_size self.old.wished) }
        requires short { length bytes.now ≤ cell_size self.old.wished }
        ensures buffer { B.bytes self.new.buf ≡ memory_buffer (cell_size self.old.wished) (B.bytes self.old.buf) p bytes.now }
        ensures holder { B.name self.new.buf ≡ B.name self.old.buf }
        ensures wished { self.new.wished ≡ self.old.wished }
    {
        let size = self.size();
        let cell = padded::<LARGEST_CELL>(bytes);
        self.buf.put(p * size, &cell[..size]);
    }
}

impl<B: Buffer> Store for Memory<B> {
    ghost meaning = { λ s. memory (cell_size s.wished) (B.bytes s.buf) };

    ghost bounds = { λ s. memory_bounded s.wished (B.bytes s.buf) };

    fn count(&self) -> usize {
        memory_count(self.buf.bytes().len(), self.wished)
    }

    fn size(&self) -> usize {
        memory_size(self.wished)
    }

    fn read(&self, p: usize, out: &mut [u8]) -> Result<(), StoreFault> {
        read_memory(self.buf.bytes(), self.wished, p, out)
    }

    // Every byte of the buffer: an accepted write changes those of its cell and no other.
    #[tactic(auto, using(crate::proofs::MemoryWrites::memory_wrote))]
    fn write(&mut self, p: usize, bytes: &[u8]) -> Result<(), StoreFault>
        ensures store { WroteBy (memory (cell_size self.old.wished) (B.bytes self.old.buf)) p bytes.now result (memory (cell_size self.new.wished) (B.bytes self.new.buf)) }
        ensures buffer { B.bytes self.new.buf ≡ (if is_ok result then memory_buffer (cell_size self.old.wished) (B.bytes self.old.buf) p bytes.now else B.bytes self.old.buf) }
        ensures holder { B.name self.new.buf ≡ B.name self.old.buf }
        ensures wished { self.new.wished ≡ self.old.wished }
    {
        admit(self.count(), self.size(), p, bytes.len())?;
        self.fill(p, bytes);
        Ok(())
    }
}
