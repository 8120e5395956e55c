// Items at the edges of what fits.
use crate::close::Close;
use crate::page::Page;
use crate::reader::Reader;
use crate::write::{put_number_item, put_word_item};
use faults::fault::{Fault, Refusal};

fn misfit(place: usize) -> Result<u32, Fault> {
    Err(Refusal::Misfit(place).in_line(0))
}

#[test]
fn thirty_digits_are_out_of_range(rt: HostRuntime) {
    let mut reader = Reader::new(b"7 123456789012345678901234567890\n");
    assert_eq!(rt; reader.number(0, 1, 9, Close::Space), Ok(7));
    assert_eq!(rt;
        reader.number(0, 0, 4_294_967_295, Close::Line),
        Err(Refusal::OutOfRange(2).in_line(0))
    );
}

#[test]
fn a_leading_zero_does_not_fit(rt: HostRuntime) {
    let mut reader = Reader::new(b"0 007\n");
    assert_eq!(rt; reader.number(0, 0, 9, Close::Space), Ok(0));
    assert_eq!(rt; reader.number(0, 0, 9, Close::Line), misfit(2));
}

#[test]
fn other_bytes_are_words(rt: HostRuntime) {
    let mut reader = Reader::new(b"\xc3\xa9\xff 1\n");
    assert_eq!(rt; reader.keyword(0, b"\xc3\xa9\xff", Close::Space), Ok(()));
    assert_eq!(rt; reader.number(0, 0, 9, Close::Line), Ok(1));
    let mut again = Reader::new(b"\xc3\xa9 1\n");
    assert_eq!(rt; again.number(0, 0, 9, Close::Space), misfit(0));
}

#[test]
fn the_end_ends_no_item(rt: HostRuntime) {
    let mut empty = Reader::new(b"");
    assert_eq!(rt; empty.number(0, 0, 9, Close::Line), misfit(0));
    let mut cut = Reader::new(b"12");
    assert_eq!(rt; cut.number(0, 0, 99, Close::Line), misfit(2));
}

#[test]
fn what_is_written_is_read(rt: HostRuntime) {
    let mut page: Page<12> = Page::new();
    page.word_item(b"hours", Close::Space);
    page.number_item(24, Close::Line);
    assert_eq!(rt; page.text().len(), 9);
    let mut out = [b'.'; 12];
    out[..9].copy_from_slice(page.text());
    let mut reader = Reader::new(&out);
    assert_eq!(rt; reader.keyword(0, b"hours", Close::Space), Ok(()));
    assert_eq!(rt; reader.number(0, 24, 24, Close::Line), Ok(24));
    assert_eq!(rt; reader.rest(), b"...".as_slice());
}

#[test]
fn what_is_put_is_read(rt: HostRuntime) {
    let mut out = [b'.'; 12];
    let at = put_word_item(&mut out, 0, b"hours", Close::Space);
    let end = put_number_item(&mut out, at, 24, Close::Line);
    assert_eq!(rt; end, 9);
    let mut reader = Reader::new(&out);
    assert_eq!(rt; reader.keyword(0, b"hours", Close::Space), Ok(()));
    assert_eq!(rt; reader.number(0, 24, 24, Close::Line), Ok(24));
    assert_eq!(rt; reader.rest(), b"...".as_slice());
}
