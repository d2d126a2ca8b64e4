//! Why a page isn't written.
use thiserror::Error;

/// Why a page isn't written.
#[derive(Clone, Copy, Debug, PartialEq, Eq, Error)]
pub enum PageFault {
    /// A call of the sink failed, or took nothing of a piece.
    #[error("the page could not be written")]
    WriteFault,
}
