// The calls of a day, up to the first line that cannot be read.
ghost use Rattle.std.specs.Prelude.{◌≡◌, length, IfOk};
ghost use Rattle.text.specs.Tokens.{ahead};
ghost use Rattle.callfile.specs.Scripts.{leftover, script_of, calls_of, Scripted};

use crate::lines::read_call;
use calls::calls::Call;
use dayfile::sections::read_count;
use faults::fault::{Fault, Refusal};
use std::alloc::{AllocError, Global};
use text::reader::Reader;

// Each call with the place of its line, and the fault of the text that ends the reading, if any: a value here and no error,
// since the calls before it stand.
// Two lists and not one of pairs: a history takes the calls alone as a slice, and a report the lines.
#[derive(Drop)]
pub struct Script {
    pub lines: Vec<usize>,
    pub calls: Vec<Call>,
    pub fault: Option<Fault>,
}

// The fault of a text that goes on where it should end.
fn past_end(reader: &Reader) -> Option<Fault>
    ensures { result ≡ leftover reader.now.at (ahead reader.now) }
{
    if reader.rest().is_empty() {
        None
    } else {
        Some(Refusal::Misfit(reader.at).in_line(reader.at))
    }
}

// As many call lines as there are calls.
fn read_lines(heap: Global, reader: &mut Reader, n: u32) -> Result<Script, AllocError>
    ensures { IfOk result (λ s. Scripted s (script_of n reader.old.at (ahead reader.old))) }
{
    let mut lines = Vec::new(heap);
    let mut calls = Vec::new(heap);
    for _ in 0..n {
        let line = reader.at;
        let call = match read_call(reader) {
            Ok(call) => call,
            Err(fault) => {
                return Ok(Script {
                    lines,
                    calls,
                    fault: Some(fault),
                });
            }
        };
        lines.push(line)?;
        calls.push(call)?;
    }
    Ok(Script {
        lines,
        calls,
        fault: past_end(reader),
    })
}

// The calls of a day, to the end of the text.
pub fn read_calls(heap: Global, reader: &mut Reader) -> Result<Script, AllocError>
    ensures script { IfOk result (λ s. Scripted s (calls_of reader.old.at (ahead reader.old))) }
    ensures even { IfOk result (λ s. length s.lines.items ≡ length s.calls.items) }
{
    match read_count(reader, b"calls", 0, 4096) {
        Ok(n) => read_lines(heap, reader, n),
        Err(fault) => Ok(Script {
            lines: Vec::new(heap),
            calls: Vec::new(heap),
            fault: Some(fault),
        }),
    }
}
