ghost use Rattle.std.specs.Prelude.{◌≡◌};
ghost use Rattle.tm_run.specs.Faults.{status_of_fault};

use tm_report::FileFault;

/// How a run ended. The place of each, counted from 0, is the status that the program ends with.
#[derive(Clone, Copy, PartialEq, Eq, Debug)]
pub enum Status {
    /// The report was written, and each answer is yes.
    AllYes,
    /// The report was written, and some answer isn't yes.
    Mixed,
    /// The words aren't in form, and the usage line was written.
    Usage,
    /// The input isn't a question file, and the line that says so was written.
    BadText,
    /// A count passes its limit, and the line that says so was written.
    Limit,
    /// Reading failed, and nothing was written.
    ReadFault,
    /// Writing failed, and a part of what was to be written was, from its front on.
    WriteFault,
    /// Memory was wanting, and nothing was written.
    Memory,
    /// A name in the file is at fault, and the line that says so was written.
    IllFormed,
    /// A question was asked of by a number that the file doesn't have, and the line that says so was written.
    NoQuestion,
}

/// How a run ends whose file has the fault.
pub fn fault_status(fault: FileFault) -> Status
    ensures { result ≡ status_of_fault fault }
{
    match fault {
        FileFault::Passed(_, _) => Status::Limit,
        FileFault::Names(_, _) => Status::IllFormed,
        FileFault::NoQuestion(_) => Status::NoQuestion,
        _ => Status::BadText,
    }
}
