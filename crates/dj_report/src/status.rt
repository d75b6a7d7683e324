//! How a run of the program ends.

ghost use Rattle.std.specs.Prelude.{◌≡◌};

use dj_words::UsageKind;

/// How a run ended; its exit statuses are 0 to 6 in this order. A place is that of a file in the order of loading.
#[derive(Clone, Copy, Debug, PartialEq, Eq)]
pub enum Status {
    /// Everything was printed.
    Clean,
    /// The report has a line.
    Refused,
    Usage(UsageKind),
    /// A file couldn't be read.
    ReadFault(u32),
    /// The text couldn't be written.
    TextFault,
    /// The report couldn't be written.
    ReportFault,
    /// There is too much to load: a file, all of them together, or names.
    TooMuch(u32),
}

impl Status {
    ghost use Rattle.dj_report.specs.Status.{exit_code_of};

    /// The exit status of the program.
    pub fn exit_code(&self) -> u8
        ensures code { result ≡ exit_code_of self.now }
    {
        match self {
            Status::Clean => 0,
            Status::Refused => 1,
            Status::Usage(_) => 2,
            Status::ReadFault(_) => 3,
            Status::TextFault => 4,
            Status::ReportFault => 5,
            Status::TooMuch(_) => 6,
        }
    }
}
