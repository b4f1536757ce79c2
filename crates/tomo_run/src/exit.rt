// How a status is told.
ghost use Rattle.std.specs.Prelude.{◌≡◌};
ghost use Rattle.tomo_run.specs.Text.{fault_text, status_number};

use answers::Status;

/// The exit status of the program.
pub fn exit_status(status: Status) -> u8
    ensures { result ≡ status_number status }
{
    match status {
        Status::Done => 0,
        Status::Negative => 1,
        Status::Usage => 2,
        Status::BadInput => 3,
        Status::ReadFault => 4,
        Status::WriteFault => 5,
        Status::NoMemory => 6,
    }
}

/// What is printed to standard error for a status.
pub fn fault_line(status: &Status) -> &'static str
    ensures { result.now ≡ fault_text status.now }
{
    match status {
        Status::Usage => "tomo: usage",
        Status::ReadFault => "tomo: read fault",
        Status::WriteFault => "tomo: write fault",
        Status::NoMemory => "tomo: no memory",
        _ => "",
    }
}
