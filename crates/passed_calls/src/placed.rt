//! How calls that the port never sees are kept beside the others.

/// A call that the port never sees, by the script that it stands in among those of its phase, and by its place among
/// the calls there.
#[derive(Clone, Copy)]
pub struct PlacedCall<C> {
    pub script: usize,
    pub place: u64,
    pub call: C,
}
