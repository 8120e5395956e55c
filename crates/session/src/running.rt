// The program, as a function from its input to its output.
ghost use Rattle.std.specs.Prelude.{◌≡◌, ◌++◌, Ok as Accepted, string_bytes, OnOk};
ghost use Rattle.report.specs.Final.{prices_refused};
ghost use Rattle.day.specs.Views.{day_of};
ghost use Rattle.session.specs.Output.{published_of, end_text};

use day::days::Day;
use day::phases::Phase;
use faults::fault::Fault;
use report::answers::push_fault;
use report::finals::push_final;
use report::stops::Stop;

// The most bytes that an input may have.
pub const LIMIT: usize = 65_536;

// What is published of a day, if it is final.
fn push_day(out: &mut String, day: &Day) -> Result<(), Stop>
    requires { prices_refused day.now.hours ≡ Accepted tt }
    ensures { OnOk result (string_bytes out.new ≡ string_bytes out.old ++ published_of (day_of day.now) day.now.phase) }
{
    match day.phase() {
        Phase::Open | Phase::Fixed | Phase::Post => Ok(()),
        Phase::Final => {
            push_final(
                out,
                day.rows(),
                day.blocks(),
                day.hours(),
                day.marks(),
                day.posts(),
                day.posted(),
            )
        }
    }
}

// What follows the last answer.
fn push_end(out: &mut String, fault: Option<Fault>, day: &Day) -> Result<(), Stop>
    requires { prices_refused day.now.hours ≡ Accepted tt }
    ensures { OnOk result (string_bytes out.new ≡ string_bytes out.old ++ end_text fault (day_of day.now)) }
{
    match fault {
        Some(fault) => Ok(push_fault(out, &fault)?),
        None => push_day(out, day),
    }
}
