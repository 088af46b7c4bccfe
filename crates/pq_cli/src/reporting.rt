//! The line that says why there is no answer.

ghost use Rattle.std.specs.Prelude.{◌≡◌, ◌≤◌, [], length};
ghost use Rattle.pq_cli.specs.Reports.{fault_text, bad_input_text, cause_text, node_limit_text, full_text};
ghost use Rattle.pq_cli.specs.Runs.{IsReported};
ghost use Rattle.pq_cli.specs.Streams.{change};

use crate::status::Status;
use arrayvec::ArrayString;
use itoa::Buffer;
use pq_io::{BadInput, Cause, Sink, put_all};

// More than the longest line has.
const LINE_ROOM: usize = 64;

/// Writes the line of the status, where it has one. Where that fails, the status is `WriteFault` from then on.
///
/// It takes no memory.
pub fn report<E: Sink>(status: Status, faults: &mut E) -> Status
    ensures { IsReported status result (change E.written E.faults faults.old faults.new) }
{
    let line = fault_line(status);
    let bytes = line.as_str().as_bytes();
    if bytes.is_empty() {
        return status;
    }
    match put_all(faults, bytes) {
        Ok(()) => status,
        Err(_) => Status::WriteFault,
    }
}

// The line of the status.
fn fault_line(status: Status) -> ArrayString<LINE_ROOM>
    ensures { result.bytes ≡ fault_text status }
{
    let mut line = ArrayString::new();
    match status {
        Status::Ok | Status::Illegal => {}
        Status::BadWords => line.push_str("bad words\n"),
        Status::BadInput(fault) => push_fault(&mut line, fault),
        Status::NodeLimit { asked, limit } => push_node_limit(&mut line, asked, limit),
        Status::Full { place } => push_full(&mut line, place),
        Status::ReadFault => line.push_str("read fault\n"),
        Status::WriteFault => line.push_str("write fault\n"),
        Status::NoMemory => line.push_str("no memory\n"),
        Status::ProofLimit => line.push_str("proof limit\n"),
    }
    line
}

// Where the input is bad, and why.
fn push_fault(line: &mut ArrayString<LINE_ROOM>, fault: BadInput)
    requires { line.old.bytes ≡ [] }
    ensures { line.new.bytes ≡ bad_input_text fault }
{
    line.push_str("line ");
    line.push_str(Buffer::new().format(fault.line));
    line.push_str(": ");
    line.push_str(name_of(fault.cause));
    line.push_str("\n");
}

// How many nodes were asked for, and how many are allowed.
fn push_node_limit(line: &mut ArrayString<LINE_ROOM>, asked: u64, limit: u32)
    requires { line.old.bytes ≡ [] }
    ensures { line.new.bytes ≡ node_limit_text asked limit }
{
    line.push_str("node limit: asked ");
    line.push_str(Buffer::new().format(asked));
    line.push_str(", limit ");
    line.push_str(Buffer::new().format(limit));
    line.push_str("\n");
}

// Where the queue was full.
fn push_full(line: &mut ArrayString<LINE_ROOM>, place: u32)
    requires { line.old.bytes ≡ [] }
    ensures { line.new.bytes ≡ full_text place }
{
    line.push_str("full at place ");
    line.push_str(Buffer::new().format(place));
    line.push_str("\n");
}

// How the cause is called.
fn name_of(cause: Cause) -> &'static str
    ensures name { result.now ≡ cause_text cause }
    ensures short { length result.now ≤ 9 }
{
    match cause {
        Cause::Number => "number",
        Cause::Word => "word",
        Cause::Missing => "missing",
        Cause::Extra => "extra",
        Cause::Range => "range",
        Cause::TooLarge => "too large",
    }
}
