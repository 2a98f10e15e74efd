// Layers over any store, each again a store: a window on some of its cells, and spares in the place of cells that are worn out.
#![tactic(auto)]

mod scan;
mod spare;
pub mod spares;
pub mod window;
