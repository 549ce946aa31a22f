/// What the frame of a request and the frame of its reply have in common. The version is 1 or 2. In
/// version 1 there are no tags, and the tag is 0.
#[derive(Clone, Copy, Debug, PartialEq, Eq)]
pub struct Head {
    pub version: u8,
    pub tag: u32,
}
