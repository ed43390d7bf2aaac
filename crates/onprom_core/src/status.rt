//! How a run ends.
ghost use Rattle.std.specs.Prelude.{◌≡◌};
ghost use Rattle.onprom_core.specs.Codes.{code_of};

/// The end of a run, in the order of its exit codes.
#[derive(Clone, Copy, Debug, PartialEq, Eq)]
pub enum Status {
    Done,
    Conflict,
    Usage,
    Refused,
    Absent,
    ReadFault,
    WriteFault,
    ReportFault,
    Limit,
    NoMemory,
    NotAccepted,
}

impl Status {
    /// The exit code, from 0 to 10.
    pub fn code(&self) -> u8
        ensures { result ≡ code_of self.now }
    {
        match self {
            Status::Done => 0,
            Status::Conflict => 1,
            Status::Usage => 2,
            Status::Refused => 3,
            Status::Absent => 4,
            Status::ReadFault => 5,
            Status::WriteFault => 6,
            Status::ReportFault => 7,
            Status::Limit => 8,
            Status::NoMemory => 9,
            Status::NotAccepted => 10,
        }
    }
}
