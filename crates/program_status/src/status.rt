ghost use Rattle.std.specs.Prelude.{◌≡◌};
ghost use Rattle.program_status.specs.Statuses.{exit_code, status_of, status_of_fault, status_word};

use msf_image::{DamageKind, OpenFault};
use srv_edge::SessionEnd;
use std::fmt;

/// How a run of the program ended.
#[derive(Clone, Copy, Debug, PartialEq, Eq)]
pub enum Status {
    /// The input was read to its end or to a Bye, or the text was written whole.
    Ok,
    /// The words are no form of the program.
    Usage,
    /// The source failed.
    ReadFault,
    /// The sink failed.
    WriteFault,
    /// The device failed.
    DiskFault,
    /// The file fails a test: which, and where.
    Damage { kind: DamageKind, place: u64 },
    /// 2^32 bytes were read, and no other end came.
    TooLong,
    OutOfMemory,
    /// The input ended within a frame.
    CutShort,
    /// A frame's length is 0 or over 65,537.
    BadLength,
    /// The door failed.
    DoorFault,
    /// The device of a new file has bytes already.
    NotEmpty,
}

impl Status {
    /// The exit status of the process.
    pub fn code(self) -> u8
        ensures { result ≡ exit_code self }
    {
        match self {
            Status::Ok => 0,
            Status::Usage => 2,
            Status::ReadFault => 3,
            Status::WriteFault => 4,
            Status::DiskFault => 5,
            Status::Damage { .. } => 6,
            Status::TooLong => 7,
            Status::OutOfMemory => 8,
            Status::CutShort => 9,
            Status::BadLength => 10,
            Status::DoorFault => 11,
            Status::NotEmpty => 12,
        }
    }

    /// The word for it on standard error. A damage has its kind and its place behind it.
    pub fn word(self) -> &'static str
        ensures { result.now ≡ status_word self }
    {
        match self {
            Status::Ok => "ok",
            Status::Usage => "usage",
            Status::ReadFault => "read fault",
            Status::WriteFault => "write fault",
            Status::DiskFault => "disk fault",
            Status::Damage { .. } => "damage",
            Status::TooLong => "too long",
            Status::OutOfMemory => "out of memory",
            Status::CutShort => "cut short",
            Status::BadLength => "bad length",
            Status::DoorFault => "door fault",
            Status::NotEmpty => "not empty",
        }
    }
}

impl fmt::Display for Status {
    fn fmt<W: fmt::Write>(&self, f: &mut fmt::Formatter<W>) -> fmt::Result {
        match self {
            Status::Damage { kind, place } => write!(f, "{} {} {place}", self.word(), kind.name()),
            _ => f.write_str(self.word()),
        }
    }
}

/// The status of a session's end.
pub fn status_of_end(end: SessionEnd) -> Status
    ensures { result ≡ status_of end }
{
    match end {
        SessionEnd::Bye | SessionEnd::Ended => Status::Ok,
        SessionEnd::CutShort => Status::CutShort,
        SessionEnd::BadLength => Status::BadLength,
        SessionEnd::ReadFault => Status::ReadFault,
        SessionEnd::WriteFault => Status::WriteFault,
        SessionEnd::TooLong => Status::TooLong,
    }
}

/// The status where a file did not open.
pub fn status_of_fault(fault: OpenFault) -> Status
    ensures { result ≡ status_of_fault fault }
{
    match fault {
        OpenFault::Damage { kind, place } => Status::Damage { kind, place },
        OpenFault::DiskFault => Status::DiskFault,
        OpenFault::OutOfMemory => Status::OutOfMemory,
    }
}

#[cfg(test)]
mod tests {
    use super::Status;
    use msf_image::DamageKind;
    use std::test::Fail;

    // A status prints its word, and a damage its kind and its place behind it.
    #[test]
    fn printed_texts(rt: HostRuntime) -> Result<(), Fail> {
        let damage = Status::Damage {
            kind: DamageKind::MapAddr,
            place: 52,
        };
        for (status, text) in [
            (Status::ReadFault, "read fault"),
            (damage, "damage map-addr 52"),
        ] {
            assert_eq!(rt; format!(in rt.alloc(); "{status}")?.as_str(), text);
        }
        Ok(())
    }
}
