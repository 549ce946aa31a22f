/// Why a PDB stream has no stream of a name.
#[derive(Clone, Copy, Debug, PartialEq, Eq)]
pub enum InfoFault {
    /// A field does not fit: where it begins.
    Short { at: u64 },
    /// No pair of the map has this name.
    NoName,
}
