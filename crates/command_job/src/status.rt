// How a command ends, and what it answers.
ghost use Rattle.std.specs.Prelude.{◌≡◌};

/// How a command ends. The program's exit code is the variant's number.
#[derive(Clone, Copy, Debug, PartialEq, Eq)]
pub enum Status {
    /// The answer is yes: the packet arrives.
    Yes,
    /// The answer is no: the packet is stopped.
    No,
    /// The words are no command.
    Words,
    /// The description is refused.
    Description,
    /// The question about the description is refused.
    Query,
    /// A report would be too long.
    More,
    /// A file could not be read.
    Read,
    /// The answer could not be written.
    Write,
    /// Memory was refused.
    Memory,
    /// Neither a yes nor a no: the answer depends on packets that leave the networks which are described.
    Unknown,
}

impl Status {
    ghost use Rattle.command_job.specs.Status.{code_of};

    /// The exit code.
    pub fn code(&self) -> u8
        ensures { result ≡ code_of self.now }
    {
        match self {
            Status::Yes => 0,
            Status::No => 1,
            Status::Words => 2,
            Status::Description => 3,
            Status::Query => 4,
            Status::More => 5,
            Status::Read => 6,
            Status::Write => 7,
            Status::Memory => 8,
            Status::Unknown => 9,
        }
    }
}

/// A status with its text.
#[derive(Drop)]
pub struct Answer {
    pub status: Status,
    pub text: Vec<u8>,
}
