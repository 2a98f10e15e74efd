// The expected bytes are worked out by hand.
ghost use Rattle.std.specs.Prelude.{◌≡◌, is_ok, if◌then◌else◌};
ghost use Rattle.cells.specs.Calls.{WroteBy};
ghost use Rattle.bottoms.specs.Memories.{cell_size, memory, memory_buffer};
ghost use Rattle.bottoms.specs.Pages.{flash, flash_buffer};

use crate::lenders::{read_then_write, write_vec_flash, write_vec_memory};
use bottoms::flash::{ERASES_LEFT, FLASH_PAGE, Flash};
use bottoms::memory::Memory;
use cells::fault::StoreFault;
use cells::store::Store;
use either::Either;
use layers::spares::Spares;
use layers::window::Window;
use std::alloc::AllocError;
use std::process::Abort;

// A write of two bytes to a cell, and what it is answered.
type Step = (usize, [u8; 2], Result<(), StoreFault>);

// Either bottom, over an array.
type Bottom = Either<Memory<[u8; 12]>, Flash<[u8; 256]>>;

// Bytes of a buffer from a place on.
type Part<'a> = (usize, &'a [u8]);

// Leaves one erase to each page of a buffer of zeros.
fn one_erase_each(buf: &mut [u8]) {
    for page in buf.as_chunks_mut::<FLASH_PAGE>().0 {
        page[ERASES_LEFT] = 1;
    }
}

// Each write is answered as it should be.
fn writes<S: Store>(rt: &impl Abort, store: &mut S, steps: &[Step]) {
    for (p, bytes, answer) in steps {
        assert_eq!(rt; store.write(*p, bytes), *answer);
    }
}

// The first two bytes of each cell are these.
fn reads<S: Store>(rt: &impl Abort, store: &S, cells: &[[u8; 2]]) {
    assert_eq!(rt; store.count(), cells.len());
    for (p, bytes) in cells.iter().enumerate() {
        let mut out = [0xa5; 2];
        assert_eq!(rt; store.read(p, &mut out), Ok(()));
        assert_eq!(rt; out, *bytes);
    }
}

fn has(buf: &[u8], from: usize, want: &[u8]) -> bool {
    buf.get(from..).is_some_and(|rest| rest.starts_with(want))
}

// The buffer has these parts.
fn parts(rt: &impl Abort, buf: &[u8], parts: &[Part<'_>]) {
    for (from, want) in parts {
        assert!(rt; has(buf, *from, want));
    }
}

#[test]
fn sizes_of_memory(rt: HostRuntime) {
    let mut buf = [7; 600];
    let bytes = Memory::new(&mut buf, 0);
    assert_eq!(rt; (bytes.count(), bytes.size()), (512, 1));
    let large = Memory::new(bytes.end(), 1000);
    assert_eq!(rt; (large.count(), large.size()), (2, 239));
    let mut whole = Memory::new(large.end(), 101);
    assert_eq!(rt; (whole.count(), whole.size()), (5, 101));
    writes(
        &rt,
        &mut whole,
        &[(4, [1, 2], Ok(())), (5, [3, 3], Err(StoreFault::Place(5)))],
    );
    assert_eq!(rt; whole.write(4, &[9; 102]), Err(StoreFault::Length(4)));
    parts(
        &rt,
        whole.end(),
        &[(403, &[7, 1, 2, 0, 0]), (504, &[0, 7, 7])],
    );
}

#[test]
fn one_page_of_flash(rt: HostRuntime) {
    let mut buf = [0x11; 300];
    buf[ERASES_LEFT..FLASH_PAGE].copy_from_slice(&257u32.to_le_bytes());
    let mut flash = Flash::new(&mut buf);
    assert_eq!(rt; (flash.count(), flash.size()), (1, 239));
    assert_eq!(rt; flash.write(0, &[1, 2, 3]), Ok(()));
    assert_eq!(rt; flash.write(0, &[]), Ok(()));
    assert_eq!(rt; flash.write(0, &[4]), Ok(()));
    assert_eq!(rt; flash.write(1, &[5]), Err(StoreFault::Place(1)));
    let mut out = [0xa5; 240];
    assert_eq!(rt; flash.read(0, &mut out), Err(StoreFault::Length(0)));
    assert!(rt; has(&out, 0, &[0xa5; 240]));
    parts(
        &rt,
        flash.end(),
        &[
            (0, &[4, 0, 0]),
            (238, &[0, 0xff]),
            (250, &[0xff, 0xff, 254, 0, 0, 0, 0x11, 0x11]),
        ],
    );
}

// Cells 1 and 2 of three, and two spares: each cell is worn out, then its spare.
#[test]
fn window_on_spares_on_flash(rt: HostRuntime) {
    let mut buf = [0; 1283];
    one_erase_each(&mut buf);
    buf[0] = 0x11;
    buf[1280] = 0x11;
    let mut pile = Window::new(Spares::new(Flash::new(&mut buf), 2), 1, 9);
    writes(
        &rt,
        &mut pile,
        &[
            (0, [0x0a, 1], Ok(())),
            (0, [0x0b, 2], Ok(())),
            (1, [0x0c, 3], Ok(())),
            (1, [0x0d, 4], Ok(())),
            (0, [0x0e, 5], Err(StoreFault::Worn(0))),
            (1, [0x0f, 6], Err(StoreFault::Worn(1))),
            (2, [0x10, 7], Err(StoreFault::Place(2))),
        ],
    );
    assert_eq!(rt; pile.write(1, &[0; 240]), Err(StoreFault::Length(1)));
    reads(&rt, &pile, &[[0x0b, 2], [0x0d, 4]]);
    parts(
        &rt,
        pile.end().end().end(),
        &[
            (0, &[0x11, 0]),
            (252, &[1, 0, 0, 0, 0x0a, 1]),
            (508, &[0, 0, 0, 0, 0x0c, 3]),
            (764, &[0, 0, 0, 0, 0x0b, 2]),
            (1020, &[0, 0, 0, 0, 0x0d, 4]),
            (1274, &[0xff, 0xff, 0, 0, 0, 0, 0x11, 0, 0]),
        ],
    );
}

// The upper layer's spare is the lower layer's third cell, and the lower layer's is the fourth page.
#[test]
fn spares_on_spares_on_flash(rt: HostRuntime) {
    let mut buf = [0; 1024];
    one_erase_each(&mut buf);
    let mut pile = Spares::new(Spares::new(Flash::new(&mut buf), 1), 1);
    writes(
        &rt,
        &mut pile,
        &[
            (0, [1, 1], Ok(())),
            (0, [2, 2], Ok(())),
            (0, [3, 3], Ok(())),
            (0, [4, 4], Err(StoreFault::Worn(0))),
            (1, [5, 5], Ok(())),
            (1, [6, 6], Err(StoreFault::Worn(1))),
        ],
    );
    reads(&rt, &pile, &[[3, 3], [5, 5]]);
    parts(
        &rt,
        pile.end().end().end(),
        &[(0, &[1, 1]), (256, &[5, 5]), (512, &[3, 3]), (768, &[2, 2])],
    );
}

// Memory does not wear out, so the spare stays unused.
#[test]
fn spares_on_window_on_memory(rt: HostRuntime) {
    let mut buf = [7; 60];
    let mut pile = Spares::new(Window::new(Memory::new(&mut buf, 12), 1, 3), 1);
    assert_eq!(rt; pile.write(1, &[2; 12]), Ok(()));
    writes(
        &rt,
        &mut pile,
        &[
            (0, [1, 1], Ok(())),
            (1, [3, 3], Ok(())),
            (2, [4, 4], Err(StoreFault::Place(2))),
        ],
    );
    assert_eq!(rt; pile.write(0, &[5; 13]), Err(StoreFault::Length(0)));
    reads(&rt, &pile, &[[1, 1], [3, 3]]);
    parts(
        &rt,
        pile.end().end().end(),
        &[
            (10, &[7, 7, 1, 1, 0]),
            (23, &[0, 3, 3, 0]),
            (34, &[0, 0, 7, 7]),
            (58, &[7, 7]),
        ],
    );
}

#[test]
fn window_past_the_end(rt: HostRuntime) {
    let mut buf = [0; 10];
    let pile = Window::new(Memory::new(&mut buf, 2), 5, 1);
    assert_eq!(rt; pile.count(), 0);
    let wide = Window::new(pile.end(), usize::MAX, usize::MAX);
    assert_eq!(rt; wide.count(), 0);
    let mut last = Window::new(wide.end(), 4, usize::MAX);
    writes(
        &rt,
        &mut last,
        &[
            (0, [8, 9], Ok(())),
            (1, [3, 3], Err(StoreFault::Place(1))),
            (usize::MAX, [3, 3], Err(StoreFault::Place(usize::MAX))),
        ],
    );
    let spares = Spares::new(last.end(), usize::MAX);
    assert_eq!(rt; spares.count(), 0);
    let buf = spares.end().end();
    assert!(rt; has(buf, 6, &[0, 0, 8, 9]));
    // Sixteen spares at most: of twenty cells four are left.
    let mut small = [0; 20];
    assert_eq!(rt; Spares::new(Memory::new(&mut small, 1), 17).count(), 4);
}

// The lender of a slice learns what a write made of it, once the bottom is let go.
fn write_memory(buf: &mut [u8], wished: usize, p: usize, bytes: &[u8]) -> Result<(), StoreFault>
    ensures store { WroteBy (memory (cell_size wished) buf.old) p bytes.now result (memory (cell_size wished) buf.new) }
    ensures buffer { buf.new ≡ (if is_ok result then memory_buffer (cell_size wished) buf.old p bytes.now else buf.old) }
{
    Memory::new(buf, wished).write(p, bytes)
}

fn write_flash(buf: &mut [u8], p: usize, bytes: &[u8]) -> Result<(), StoreFault>
    ensures store { WroteBy (flash buf.old) p bytes.now result (flash buf.new) }
    ensures buffer { buf.new ≡ (if is_ok result then flash_buffer buf.old p bytes.now else buf.old) }
{
    Flash::new(buf).write(p, bytes)
}

#[test]
fn lent_slices(rt: HostRuntime) {
    let mut buf = [7; 9];
    assert_eq!(rt; write_memory(&mut buf, 4, 1, &[1, 2]), Ok(()));
    assert_eq!(rt;
        write_memory(&mut buf, 4, 2, &[3]),
        Err(StoreFault::Place(2))
    );
    assert_eq!(rt; buf, [7, 7, 7, 7, 1, 2, 0, 0, 7]);
    let mut pages = [1; 512];
    assert_eq!(rt; write_flash(&mut pages, 1, &[8, 9]), Ok(()));
    parts(
        &rt,
        &pages,
        &[
            (254, &[1, 1, 8, 9, 0]),
            (494, &[0, 0xff]),
            (507, &[0xff, 0, 1, 1, 1]),
        ],
    );
}

#[test]
fn lent_vecs(rt: HostRuntime) -> Result<(), AllocError> {
    let mut buf = vec![in rt.alloc(); 7; 9]?;
    assert_eq!(rt; write_vec_memory(&mut buf, 4, 1, &[1, 2]), Ok(()));
    let mut out = [0; 2];
    assert_eq!(rt; read_then_write(buf.as_mut_slice(), 4, 1, &mut out), Ok(()));
    assert_eq!(rt; out, [1, 2]);
    parts(&rt, buf.as_slice(), &[(0, &[7, 7, 7, 7, 1, 2, 0, 0, 7])]);
    let mut page = vec![in rt.alloc(); 1; 256]?;
    assert_eq!(rt; write_vec_flash(&mut page, 0, &[8, 9]), Ok(()));
    parts(&rt, page.as_slice(), &[(0, &[8, 9, 0]), (238, &[0, 0xff])]);
    Ok(())
}

#[test]
fn memory_of_its_own(rt: HostRuntime) -> Result<(), AllocError> {
    let mut memory = Memory::over(vec![in rt.alloc(); 7; 20]?, 6);
    assert_eq!(rt; (memory.count(), memory.size()), (3, 6));
    writes(
        &rt,
        &mut memory,
        &[(2, [1, 2], Ok(())), (3, [3, 3], Err(StoreFault::Place(3)))],
    );
    reads(&rt, &memory, &[[7, 7], [7, 7], [1, 2]]);
    parts(
        &rt,
        memory.end().as_slice(),
        &[(0, &[7]), (11, &[7, 1, 2, 0, 0, 0, 0, 7, 7])],
    );
    Ok(())
}

#[test]
fn flash_of_its_own(rt: HostRuntime) -> Result<(), AllocError> {
    let mut buf = vec![in rt.alloc(); 0; 600]?;
    one_erase_each(buf.as_mut_slice());
    let mut flash = Flash::over(buf);
    writes(
        &rt,
        &mut flash,
        &[
            (1, [8, 9], Ok(())),
            (1, [1, 1], Err(StoreFault::Worn(1))),
            (2, [1, 1], Err(StoreFault::Place(2))),
        ],
    );
    reads(&rt, &flash, &[[0, 0], [8, 9]]);
    parts(
        &rt,
        flash.end().as_slice(),
        &[
            (252, &[1, 0, 0, 0, 8, 9, 0]),
            (494, &[0, 0xff]),
            (507, &[0xff, 0, 0, 0, 0, 0]),
        ],
    );
    Ok(())
}

#[test]
fn either_bottom(rt: HostRuntime) {
    let mut memory: Bottom = Either::Left(Memory::over([7; 12], 6));
    assert_eq!(rt; (memory.count(), memory.size()), (2, 6));
    writes(
        &rt,
        &mut memory,
        &[
            (1, [1, 2], Ok(())),
            (1, [3, 4], Ok(())),
            (2, [5, 5], Err(StoreFault::Place(2))),
        ],
    );
    reads(&rt, &memory, &[[7, 7], [3, 4]]);
    let mut page = [0; 256];
    one_erase_each(&mut page);
    let mut flash: Bottom = Either::Right(Flash::over(page));
    assert_eq!(rt; (flash.count(), flash.size()), (1, 239));
    writes(
        &rt,
        &mut flash,
        &[(0, [1, 2], Ok(())), (0, [3, 4], Err(StoreFault::Worn(0)))],
    );
    reads(&rt, &flash, &[[1, 2]]);
}

#[test]
fn refusals_as_text(rt: HostRuntime) -> Result<(), AllocError> {
    let heap = rt.alloc();
    let place = format!(in heap; "{}", StoreFault::Place(7))?;
    let length = format!(in heap; "{}", StoreFault::Length(0))?;
    let worn = format!(in heap; "{}", StoreFault::Worn(511))?;
    assert_eq!(rt; place.as_str(), "place cell=7");
    assert_eq!(rt; length.as_str(), "length cell=0");
    assert_eq!(rt; worn.as_str(), "worn cell=511");
    Ok(())
}
