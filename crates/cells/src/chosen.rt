// Either of two stores, chosen at run time.
ghost use Rattle.either.specs.Either.{either};
ghost use Rattle.cells.specs.Sides.{either_bounded};

use crate::fault::StoreFault;
use crate::store::Store;
use either::{Either, for_both};

/// It means what the store that is there means.
impl<L: Store, R: Store> Store for Either<L, R> {
    ghost meaning = { either L.Store.meaning R.Store.meaning };

    ghost bounds = { either_bounded L.Store.meaning R.Store.meaning L.Store.bounds R.Store.bounds };

    fn count(&self) -> usize {
        for_both!(self, store => store.count())
    }

    fn size(&self) -> usize {
        for_both!(self, store => store.size())
    }

    fn read(&self, p: usize, out: &mut [u8]) -> Result<(), StoreFault> {
        for_both!(self, store => store.read(p, out))
    }

    fn write(&mut self, p: usize, bytes: &[u8]) -> Result<(), StoreFault> {
        for_both!(self, store => store.write(p, bytes))
    }
}
