/// Whether a crash leaves one image of the file, or one of two.
#[derive(Clone, Copy, Debug, PartialEq, Eq)]
pub enum State {
    Settled,
    /// The superblock of a commit may have come to the disk or not.
    Doubt,
}
