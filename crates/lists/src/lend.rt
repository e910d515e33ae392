// Does nothing: where an array is lent as a slice, the proof learns its length.
pub fn lend(_x: &[u16]) {}
