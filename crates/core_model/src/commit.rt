/// A commit that has begun and has not ended: whose it is, and its number.
#[derive(Clone, Copy)]
pub struct OpenCommit {
    pub caller: u8,
    pub number: u32,
}
