// Flash: pages of 256 bytes, each with a cell of 239, filler, and the number of erases left to it.
ghost use Rattle.std.specs.Prelude.{◌≡◌, ◌-◌, ◌*◌, ◌/◌, ◌<◌, ◌≤◌, length, is_ok, if◌then◌else◌, Ok, Err, nat_lt};
ghost use Rattle.std.specs.Simd.{first_chunks};
ghost use Rattle.cells.specs.declared.fault.StoreFault.TheVariants.{Worn};
ghost use Rattle.cells.specs.Calls.{ReadBy, WroteBy};
ghost use Rattle.bottoms.specs.Parts.{whole_parts};
ghost use Rattle.bottoms.specs.Pages.{page_bytes, flash_cell, erases_left, page_end, page_at, flash, flash_buffer, flash_bounded, FlashLaws};

use crate::buffer::Buffer;
use crate::parts::whole_parts;
use cells::fault::StoreFault;
use cells::store::{Store, admit};

/// The bytes of a page.
pub const FLASH_PAGE: usize = 256;

/// The bytes of a page's cell.
pub const FLASH_CELL: usize = 239;

/// Where in a page the number of erases left begins, after the filler.
pub const ERASES_LEFT: usize = 252;

type Page = [u8; FLASH_PAGE];

// The number of erases left that a page tells.
fn erases_left(page: &Page) -> u32
    ensures { result ≡ erases_left page.now }
{
    let [.., a, b, c, d] = page;
    u32::from_le_bytes([*a, *b, *c, *d])
}

// The whole pages of a buffer.
fn pages(buf: &[u8]) -> &[Page]
    ensures pages { result.now ≡ first_chunks page_bytes (length buf.now / page_bytes) buf.now }
    ensures count { length result.now ≡ length buf.now / page_bytes }
{
    buf.as_chunks().0
}

// The page of the cell `p`.
#[tactic(auto, using(crate::proofs::Partly::chunk_at))]
fn page(buf: &[u8], p: usize) -> &Page
    requires there { p < whole_parts (length buf.now) page_bytes }
    ensures { result.now ≡ page_at buf.now p }
{
    &pages(buf)[p]
}

// What is left of so many erases once one is spent on the cell `p`.
fn spend(left: u32, p: usize) -> Result<u32, StoreFault>
    ensures { result ≡ (if nat_lt 0 left then Ok (left - 1) else Err (Worn p)) }
{
    left.checked_sub(1).ok_or(StoreFault::Worn(p))
}

// What follows the cell in a page with so many erases left.
fn page_end(left: u32) -> [u8; FLASH_PAGE - FLASH_CELL]
    ensures { result ≡ page_end left }
{
    let mut end = [0xff; FLASH_PAGE - FLASH_CELL];
    end[ERASES_LEFT - FLASH_CELL..].copy_from_slice(&left.to_le_bytes());
    end
}

/// How many cells a buffer of `len` bytes has as flash: its whole pages, at most 512.
pub fn flash_count(len: usize) -> usize
    ensures { result ≡ whole_parts len page_bytes }
{
    whole_parts(len, FLASH_PAGE)
}

/// Reads the cell `p` of a buffer of pages, as flash over it would.
pub fn read_flash(buf: &[u8], p: usize, out: &mut [u8]) -> Result<(), StoreFault>
    ensures { ReadBy (flash buf.now) p out.old result out.new }
{
    admit(flash_count(buf.len()), FLASH_CELL, p, out.len())?;
    out.copy_from_slice(&page(buf, p)[..FLASH_CELL][..out.len()]);
    Ok(())
}

/// What an accepted write makes of a buffer of pages: the cell is the bytes and then zeros, its filler 0xFF and its erases left one less; every other
/// page stays, and so does the length. Answers how many laws these are.
#[tactic(auto, using(crate::proofs::PageWrites::flash_laws))]
pub fn flash_laws_hold() -> u8
    ensures count { result ≡ 5 }
    ensures laws { FlashLaws }
{
    5
}

/// Flash over the whole pages of a buffer, at most 512 of them. What lies beyond them is never touched.
#[derive(Drop)]
pub struct Flash<B> {
    buf: B,
}

impl<'a> Flash<&'a mut [u8]> {
    /// Takes a lent buffer as it is: the erases left are what its pages say. Whatever lends its bytes as a slice will do, and nothing of it but these
    /// bytes is touched.
    pub fn new(buf: &'a mut [u8]) -> Flash<&'a mut [u8]>
        ensures bytes { result.buf.now ≡ buf.old }
        ensures lender { result.buf.ghost_name ≡ buf.entry.ghost_name }
        ensures buffer { result.buf ≡ buf.entry }
    {
        Flash { buf }
    }
}

impl<B: Buffer> Flash<B> {
    /// Takes the buffer of any holder, its own too, as it is: the erases left are what its pages say.
    pub fn over(buf: B) -> Flash<B>
        ensures { result.buf ≡ buf }
    {
        Self { buf }
    }

    /// Hands the buffer back.
    pub fn end(self) -> B
        ensures { result ≡ self.buf }
    {
        let Flash { buf } = self;
        buf
    }

    // Makes the page of the cell `p` anew, if it has an erase left. Kept apart from `write`, whose exit so needs no answer written out.
    fn renew(&mut self, p: usize, bytes: &[u8]) -> Result<(), StoreFault>
        requires there { p < whole_parts (length (B.bytes self.old.buf)) page_bytes }
        requires short { length bytes.now ≤ flash_cell }
        ensures store { WroteBy (flash (B.bytes self.old.buf)) p bytes.now result (flash (B.bytes self.new.buf)) }
        ensures buffer { B.bytes self.new.buf ≡ (if is_ok result then flash_buffer (B.bytes self.old.buf) p bytes.now else B.bytes self.old.buf) }
        ensures holder { B.name self.new.buf ≡ B.name self.old.buf }
    {
        let left = spend(erases_left(page(self.buf.bytes(), p)), p)?;
        // Kept: three parts and no page made beside the buffer, which would be copied twice.
        let at = p * FLASH_PAGE;
        self.buf.put(at, bytes);
        self.buf
            .put(at + bytes.len(), &[0; FLASH_CELL][bytes.len()..]);
        self.buf.put(at + FLASH_CELL, &page_end(left));
        Ok(())
    }
}

impl<B: Buffer> Store for Flash<B> {
    ghost meaning = { λ s. flash (B.bytes s.buf) };

    ghost bounds = { λ s. flash_bounded (B.bytes s.buf) };

    fn count(&self) -> usize {
        flash_count(self.buf.bytes().len())
    }

    fn size(&self) -> usize {
        FLASH_CELL
    }

    fn read(&self, p: usize, out: &mut [u8]) -> Result<(), StoreFault> {
        read_flash(self.buf.bytes(), p, out)
    }

    // Every byte of the buffer: an accepted write makes its page anew, and changes no other byte.
    fn write(&mut self, p: usize, bytes: &[u8]) -> Result<(), StoreFault>
        ensures store { WroteBy (flash (B.bytes self.old.buf)) p bytes.now result (flash (B.bytes self.new.buf)) }
        ensures buffer { B.bytes self.new.buf ≡ (if is_ok result then flash_buffer (B.bytes self.old.buf) p bytes.now else B.bytes self.old.buf) }
        ensures holder { B.name self.new.buf ≡ B.name self.old.buf }
    {
        admit(self.count(), FLASH_CELL, p, bytes.len())?;
        self.renew(p, bytes)
    }
}
