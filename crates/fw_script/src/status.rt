//! How a run of the program ends, and what is told of it.
ghost use Rattle.std.specs.Prelude.{◌≡◌, ◌++◌};
ghost use Rattle.fw_base.specs.Causes.{HasCause};
ghost use Rattle.fw_base.specs.Streams.{Writes};
ghost use Rattle.fw_script.specs.Statuses.{Tells, exit_number, line_text, status_of};

use fw_base::{Failed, Sink};
use fw_run::Ended;
use itoa::Buffer;

/// How a run ends. The first status that is met ends it.
#[derive(Clone, Copy, Debug, PartialEq, Eq)]
pub enum Status {
    /// The whole input was read and run.
    Done,
    /// This line, counted from 1, is the first outside the grammar or over its limit of 1,048,576 bytes.
    BadScript { line: u64 },
    /// A read of the input failed.
    ReadFault,
    /// A write of the output failed.
    WriteFault,
    /// The input is longer than 67,108,864 bytes.
    InputTooLong,
    /// The words of the command line are none that the program takes.
    Usage,
    /// No memory was found.
    Memory,
}

impl Status {
    /// The status of a script's run.
    pub fn of(ended: Ended) -> Status
        ensures { result ≡ status_of ended }
    {
        match ended {
            Ended::Done => Status::Done,
            Ended::BadScript { line } => Status::BadScript { line },
            Ended::InputTooLong => Status::InputTooLong,
            Ended::ReadFault => Status::ReadFault,
            Ended::WriteFault => Status::WriteFault,
            Ended::Memory => Status::Memory,
        }
    }
}

/// Tells of a status, in one line, unless it is Done, and gives the number with which the process ends.
///
/// Where the line can't be written, the number is the same.
pub fn tell<E: Sink>(status: Status, errors: &mut E) -> u8
    ensures number { result ≡ exit_number status }
    ensures told { Tells (line_text status) (E.written errors.old) (E.written errors.new) (E.faults errors.old) (E.faults errors.new) }
{
    let _ = write_line(status, errors);
    exit_number(status)
}

fn exit_number(status: Status) -> u8
    ensures { result ≡ exit_number status }
{
    match status {
        Status::Done => 0,
        Status::BadScript { .. } => 2,
        Status::ReadFault => 3,
        Status::WriteFault => 4,
        Status::InputTooLong => 9,
        Status::Usage => 64,
        Status::Memory => 71,
    }
}

/// Writes the line of a status.
fn write_line<E: Sink>(status: Status, errors: &mut E) -> Result<(), Failed>
    ensures writes { Writes (E.written errors.old) (E.written errors.new) result (line_text status) }
    ensures cause { HasCause (E.faults errors.old) (E.faults errors.new) result }
{
    match status {
        Status::Done => errors.write(b""),
        Status::BadScript { line } => {
            let mut buffer = Buffer::new();
            write_three(
                errors,
                b"fwd: bad-script ",
                buffer.format(line).as_bytes(),
                b"\n",
            )
        }
        Status::ReadFault => errors.write(b"fwd: read-fault\n"),
        Status::WriteFault => errors.write(b"fwd: write-fault\n"),
        Status::InputTooLong => errors.write(b"fwd: input-too-long\n"),
        Status::Usage => errors.write(b"fwd: usage\n"),
        Status::Memory => errors.write(b"fwd: memory\n"),
    }
}

/// Writes three pieces one behind the other.
fn write_three<E: Sink>(
    errors: &mut E,
    first: &[u8],
    second: &[u8],
    third: &[u8],
) -> Result<(), Failed>
    ensures writes { Writes (E.written errors.old) (E.written errors.new) result (first.now ++ (second.now ++ third.now)) }
    ensures cause { HasCause (E.faults errors.old) (E.faults errors.new) result }
{
    errors.write(first)?;
    write_two(errors, second, third)
}

fn write_two<E: Sink>(errors: &mut E, first: &[u8], second: &[u8]) -> Result<(), Failed>
    ensures writes { Writes (E.written errors.old) (E.written errors.new) result (first.now ++ second.now) }
    ensures cause { HasCause (E.faults errors.old) (E.faults errors.new) result }
{
    errors.write(first)?;
    errors.write(second)
}
