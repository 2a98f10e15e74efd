// Why the program stopped.
use cutting::coder::Short;
use pitch_text::text::TextFault;
use rules::line_rule::RowFault;
use std::alloc::AllocError;
use std::io;
use thiserror::Error;

/// What the program says when it stops before its end. It keeps the whole path of a file, however long.
#[derive(Debug, Drop, Error)]
pub enum Fault {
    /// The arguments are not what the program takes.
    #[error("usage: campaign TABLE [SIZE [SPARES]]: a pitch table's file, bytes in a fragment (1 to 239), fragments to spare")]
    Usage,
    #[error("{path}: cannot be read")]
    Unread { path: String },
    #[error("{path}: {fault}")]
    Text { path: String, fault: TextFault },
    #[error("no memory for the block")]
    Block,
    #[error("{length} bytes are more than 256 fragments of {size} bytes: choose a larger size")]
    Large { length: usize, size: u8 },
    #[error("{fragments} fragments of {size} bytes are too few for the published rule: choose a smaller size")]
    Small { fragments: u16, size: u8 },
    #[error("a block of {fragments} fragments has at most {most} to spare")]
    Spares { fragments: u16, most: u16 },
    #[error("no such fragment")]
    Row(#[from] RowFault),
    #[error("no such fragment")]
    Short(#[from] Short),
    #[error("{0}")]
    Memory(#[from(alloc)] AllocError),
    #[error("{0}")]
    Stream(#[from] io::Error),
}
