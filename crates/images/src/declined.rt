// Bytes that were declined, given back.

/// The bytes that were handed in, and why they were declined.
#[derive(Drop)]
pub struct Declined<R> {
    pub bytes: Vec<u8>,
    pub refusal: R,
}
