//! What is logged of a port.

/// What happened beside a port's journal, and after how many of its entries.
#[derive(Drop)]
pub struct Logged<E> {
    pub port: u8,
    pub at: u32,
    pub event: E,
}
