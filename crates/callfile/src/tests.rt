// Examples: a script of calls, and texts whose reading ends with a fault.
use crate::scripts::{Script, read_calls};
use calls::calls::Call;
use calls::posts::Portion;
use faults::fault::{Fault, Refusal};
use std::alloc::{AllocError, Global};
use std::test::Fail;
use text::reader::Reader;

fn script(heap: Global, text: &[u8]) -> Result<Script, AllocError> {
    let mut reader = Reader::new(text);
    read_calls(heap, &mut reader)
}

fn fault(heap: Global, text: &[u8]) -> Result<Option<Fault>, AllocError> {
    Ok(script(heap, text)?.fault)
}

fn at(refusal: Refusal, line: usize) -> Option<Fault> {
    Some(refusal.in_line(line))
}

#[test]
fn three_calls_are_read(rt: HostRuntime) -> Result<(), Fail> {
    let script = script(
        rt.alloc(),
        b"calls 3\nenter 5 7 25 buy market 10\npost 7 3 sell 40 whole\nfix\n",
    )?;
    assert_eq!(rt; script.fault, None);
    assert_eq!(rt; script.lines.len(), 3);
    assert_eq!(rt; script.lines.get(1).copied(), Some(35));
    assert_eq!(rt; script.lines.get(2).copied(), Some(58));
    match script.calls.get(1) {
        Some(Call::Post(order)) => {
            assert_eq!(rt; order.portion, Portion::Whole);
            Ok(())
        },
        _ => Err(Fail::new("no post")),
    }
}

#[test]
fn a_fault_ends_the_reading(rt: HostRuntime) -> Result<(), Fail> {
    let script = script(rt.alloc(), b"calls 2\nconfirm\nfixed\n")?;
    assert_eq!(rt; script.fault, at(Refusal::Misfit(16), 16));
    assert_eq!(rt; script.calls.len(), 1);
    assert_eq!(rt;
        fault(rt.alloc(), b"calls 1\nfix\nx")?,
        at(Refusal::Misfit(12), 12)
    );
    Ok(())
}

#[test]
fn lines_are_refused_item_by_item(rt: HostRuntime) -> Result<(), Fail> {
    assert_eq!(rt;
        fault(rt.alloc(), b"calls 4097\n")?,
        at(Refusal::OutOfRange(6), 0)
    );
    assert_eq!(rt; fault(rt.alloc(), b"calls 1\n")?, at(Refusal::Misfit(8), 8));
    assert_eq!(rt;
        fault(rt.alloc(), b"calls 1\nfix 1\n")?,
        at(Refusal::Misfit(11), 8)
    );
    assert_eq!(rt;
        fault(rt.alloc(), b"calls 1\nenter\n")?,
        at(Refusal::Misfit(13), 8)
    );
    assert_eq!(rt;
        fault(rt.alloc(), b"calls 1\nwithdraw 256 1\n")?,
        at(Refusal::OutOfRange(17), 8)
    );
    Ok(())
}
