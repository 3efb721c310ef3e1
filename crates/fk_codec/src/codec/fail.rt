//! Why bytes are no image.

use thiserror::Error;

/// The first fault of bytes that are no image: the offset of the field and the reason, from 1 to 8.
#[derive(Clone, Copy, Debug, Error)]
#[error("offset {offset} reason {reason}")]
pub struct ImageError {
    pub offset: u64,
    pub reason: u8,
}

/// Why there is no image.
#[derive(Clone, Copy, Debug, Error)]
pub enum ReadFail {
    /// The bytes are no image.
    #[error("bad image {0}")]
    Image(ImageError),
    /// There is no memory for the image.
    #[error("no memory")]
    NoMemory,
}
