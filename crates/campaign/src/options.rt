// What the program is asked for on its command line: TABLE [SIZE [SPARES]].
use crate::fault::Fault;
use coding::LARGEST_FRAGMENT;
use std::env;
use std::str::FromStr;

/// The file of the table, the size of a fragment, and how many fragments to send beyond the block's own.
#[derive(Drop)]
pub struct Options {
    pub table: String,
    pub size: u8,
    pub spares: u16,
}

// With a message's three bytes of head this stays near 50 bytes; what a radio carries depends on region and data rate.
const SIZE: u8 = 48;

const SPARES: u16 = 8;

// The next argument, read as its type, or the default where there is none.
fn next_or<T: FromStr<Err: Drop> + Drop>(args: &mut env::Args, default: T) -> Result<T, Fault> {
    args.next()
        .map_or(Ok(default), |text| text.as_str().parse())
        .map_err(|_| Fault::Usage)
}

/// The options, or how to give them.
pub(crate) fn read_options(rt: &HostRuntime) -> Result<Options, Fault> {
    let mut args = env::args(rt)?;
    let _ = args.next();
    let table = args.next().ok_or(Fault::Usage)?;
    let size = next_or(&mut args, SIZE)?;
    let spares = next_or(&mut args, SPARES)?;
    if args.next().is_some() || !(1..=LARGEST_FRAGMENT).contains(&size) {
        return Err(Fault::Usage);
    }
    Ok(Options {
        table,
        size,
        spares,
    })
}
