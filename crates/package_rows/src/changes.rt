//! Bytes written over others.

/// Bytes that are written over others, each with its place.
pub type Changes = &'static [(usize, u8)];

/// Writes these bytes over those that stand there.
pub fn change(bytes: &mut [u8], changes: &[(usize, u8)]) {
    for (at, byte) in changes {
        if let Some(x) = bytes.get_mut(*at) {
            *x = *byte;
        }
    }
}
