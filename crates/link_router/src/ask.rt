//! A request as it came.
use table_rows::{Bytes, Text};

/// What one request asks.
#[derive(Drop)]
pub struct Ask {
    /// Whether its method is POST, and else it is GET.
    pub post: bool,
    /// Its target, without the query.
    pub path: Text,
    /// Its body. That of a GET is empty.
    pub body: Bytes,
    /// The value of its first `Cookie` header, or nothing.
    pub cookie: Bytes,
}
