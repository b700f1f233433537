//! Which values move between threads.
use super::buffers::Buffer;
use super::lines::LineReport;
use super::lists::Chars;

/// A type whose values move between threads: an `impl` for another one does not compile.
pub trait Moves: Send {}

impl<T: Send> Moves for Buffer<T> {}

impl Moves for Chars {}

impl Moves for LineReport {}
