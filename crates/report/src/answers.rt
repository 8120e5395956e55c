// The answers of the calls, a line for each.
ghost use Rattle.std.specs.Prelude.{◌≡◌, ◌++◌, string_bytes, OnOk};
ghost use Rattle.report.specs.Lines.{refused_line, answer_line, answer_lines};

use faults::fault::Fault;
use std::alloc::AllocError;

// The line of a fault as it stands.
pub fn push_fault(out: &mut String, fault: &Fault) -> Result<(), AllocError>
    ensures { OnOk result (string_bytes out.new ≡ string_bytes out.old ++ refused_line fault.now) }
{
    writeln!(out, "no {fault}")
}

fn push_answer(out: &mut String, line: usize, answer: &Result<u32, Fault>) -> Result<(), AllocError>
    ensures { OnOk result (string_bytes out.new ≡ string_bytes out.old ++ answer_line line answer.now) }
{
    match answer {
        Ok(number) => writeln!(out, "ok {number}"),
        Err(fault) => push_fault(out, &fault.refusal.in_line(line)),
    }
}

// The answer of each call, whose line begins at the byte that stands in the same place of `lines`.
pub fn push_answers(
    out: &mut String,
    lines: &[usize],
    answers: &[Result<u32, Fault>],
) -> Result<(), AllocError>
    ensures { OnOk result (string_bytes out.new ≡ string_bytes out.old ++ answer_lines lines.now answers.now) }
{
    for (line, answer) in lines.iter().zip(answers) {
        push_answer(out, *line, answer)?;
    }
    Ok(())
}
