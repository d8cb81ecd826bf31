//! What a bucket holds of a table or of lists by owner.

/// A value with its key. In lists by owner the key is the owner.
#[derive(Drop)]
pub struct Entry<T> {
    pub(crate) key: u32,
    pub(crate) value: T,
}
