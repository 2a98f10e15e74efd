// What a store on the bench answers.
use crate::lists::{patterned, spoiled};
use crate::stores::Pile;
use cells::store::Store;
use std::alloc::{AllocError, Global};

// Bytes as a script writes them.
fn hex_text(heap: Global, bytes: &[u8]) -> Result<String, AllocError> {
    if bytes.is_empty() {
        String::from_str(heap, "-")
    } else {
        hex::encode(heap, bytes)
    }
}

/// A word and the size of a store.
pub(crate) fn shape(heap: Global, word: &str, store: &Pile) -> Result<String, AllocError> {
    let c = store.count();
    let z = store.size();
    format!(in heap; "{word} c={c} z={z}")
}

/// The answer to `read`.
pub(crate) fn read(heap: Global, store: &Pile, p: usize, n: usize) -> Result<String, AllocError> {
    let mut out: Vec<u8> = patterned(heap, n)?;
    match store.read(p, out.as_mut_slice()) {
        Ok(()) => {
            let bytes = hex_text(heap, out.as_slice())?;
            format!(in heap; "bytes {bytes}")
        }
        Err(fault) => {
            let end = spoiled(out.as_slice(), 0);
            format!(in heap; "refused {fault}{end}")
        }
    }
}

/// The answer to `write`.
pub(crate) fn write(
    heap: Global,
    store: &mut Pile,
    p: usize,
    bytes: &[u8],
) -> Result<String, AllocError> {
    let written = String::from_str(heap, "written")?;
    match store.write(p, bytes) {
        Ok(()) => Ok(written),
        Err(fault) => format!(in heap; "refused {fault}"),
    }
}
