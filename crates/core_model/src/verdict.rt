/// Whether words are those of a history that leads to given lists, as far as words can show.
#[derive(Clone, Copy, Debug, PartialEq, Eq)]
pub enum Verdict {
    Legal,
    /// The word at this place is the first that does not fit. Where all fit and the lists do not
    /// end as given, it is the number of words; where the start is past the lists, it is 0.
    Illegal { at: u32 },
}
