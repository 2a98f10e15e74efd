// Stores as a script writes them, and stores made of that.
use crate::script::{Wrong, length, number, size};
use bottoms::flash::{ERASES_LEFT, FLASH_PAGE, Flash};
use bottoms::memory::Memory;
use cells::store::Store;
use either::{Either, Left, Right};
use hex::FromHex;
use layers::spares::Spares;
use layers::window::Window;
use std::alloc::{AllocError, Global};
use std::iter;

/// Either bottom, with a buffer of its own.
type Bottom = Either<Memory<Vec<u8>>, Flash<Vec<u8>>>;

/// A store with one layer or none.
type Layered<S> = Either<S, Either<Window<S>, Spares<S>>>;

/// A bottom with at most two layers.
pub type Pile = Layered<Layered<Bottom>>;

// The most fields of a store: three of each layer, and four of a bottom. One more is refused, so what follows it need not be cut.
const MOST_FIELDS: usize = 10;

/// A layer by its numbers.
#[derive(Clone, Copy)]
enum Layer {
    Window { from: usize, cells: usize },
    Spares { held: usize },
}

/// A bottom by its numbers.
#[derive(Drop)]
struct BottomPlan {
    length: usize,
    fill: u8,
    kind: Kind,
}

/// What a kind of bottom asks for beside its buffer.
#[derive(Drop)]
enum Kind {
    Memory { wished: usize },
    Flash { erases: Vec<u32> },
}

/// A store by its numbers.
#[derive(Drop)]
pub struct Plan {
    upper: Option<Layer>,
    lower: Option<Layer>,
    bottom: BottomPlan,
}

impl Layer {
    // The layer that the fields begin with, if any, and the fields of what lies below.
    fn read<'f, 'a>(fields: &'f [&'a str]) -> Result<(Option<Layer>, &'f [&'a str]), Wrong> {
        match fields {
            ["window", from, cells, below @ ..] => {
                let (from, cells) = (size(from)?, size(cells)?);
                Ok((Some(Layer::Window { from, cells }), below))
            }
            ["spares", held, below @ ..] => {
                let held = size(held)?;
                Ok((Some(Layer::Spares { held }), below))
            }
            _ => Ok((None, fields)),
        }
    }

    fn put_on<S: Store>(layer: Option<Layer>, store: S) -> Layered<S> {
        match layer {
            None => Left(store),
            Some(Layer::Window { from, cells }) => Right(Left(Window::new(store, from, cells))),
            Some(Layer::Spares { held }) => Right(Right(Spares::new(store, held))),
        }
    }
}

fn fill_byte(fields: &[&str]) -> Result<u8, Wrong> {
    match fields {
        [] => Ok(0),
        [text] => {
            let [fill] = <[u8; 1]>::from_hex(*text)?;
            Ok(fill)
        }
        _ => Err(Wrong),
    }
}

impl Kind {
    fn read(heap: Global, word: &str, text: &str) -> Result<Kind, Wrong> {
        match word {
            "memory" => Ok(Kind::Memory {
                wished: size(text)?,
            }),
            "flash" => Ok(Kind::Flash {
                erases: text.split(',').map(number).try_collect(heap)?,
            }),
            _ => Err(Wrong),
        }
    }
}

// Puts the erases left into the last four bytes of each whole page; the last number holds for all further pages.
fn set_erases(buf: &mut [u8], erases: &[u32]) {
    let last = erases.last().copied().unwrap_or(0);
    let all = erases.iter().copied().chain(iter::repeat(last));
    for (page, left) in buf.chunks_exact_mut(FLASH_PAGE).zip(all) {
        page[ERASES_LEFT..FLASH_PAGE].copy_from_slice(&left.to_le_bytes());
    }
}

impl BottomPlan {
    fn read(heap: Global, fields: &[&str]) -> Result<BottomPlan, Wrong> {
        let [word, buffer, second, fill @ ..] = fields else {
            return Err(Wrong);
        };
        Ok(BottomPlan {
            length: length(buffer)?,
            fill: fill_byte(fill)?,
            kind: Kind::read(heap, word, second)?,
        })
    }

    fn build(self, heap: Global) -> Result<Bottom, AllocError> {
        let mut buf = vec![in heap; self.fill; self.length]?;
        match self.kind {
            Kind::Memory { wished } => Ok(Left(Memory::over(buf, wished))),
            Kind::Flash { erases } => {
                set_erases(buf.as_mut_slice(), erases.as_slice());
                Ok(Right(Flash::over(buf)))
            }
        }
    }
}

impl Plan {
    /// Reads a store: at most two layers, from the topmost down, and a bottom.
    pub(crate) fn read(heap: Global, text: &str) -> Result<Plan, Wrong> {
        let fields: Vec<&str> = text.splitn(MOST_FIELDS + 1, ':').collect(heap)?;
        let (upper, below) = Layer::read(fields.as_slice())?;
        let (lower, below) = Layer::read(below)?;
        Ok(Plan {
            upper,
            lower,
            bottom: BottomPlan::read(heap, below)?,
        })
    }

    /// Makes the store.
    pub(crate) fn build(self, heap: Global) -> Result<Pile, AllocError> {
        let bottom = self.bottom.build(heap)?;
        Ok(Layer::put_on(self.upper, Layer::put_on(self.lower, bottom)))
    }
}
