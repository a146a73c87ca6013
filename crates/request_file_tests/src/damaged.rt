use request_file::fault::Fault;
use request_file::reader::Reader;
use std::process::Abort;

// What a file came to: how many records, and the refusal that ended it, if one did.
struct Outcome {
    records: usize,
    fault: Option<Fault>,
}

fn read_all(file: &[u8]) -> Outcome {
    let mut records = 0usize;
    let mut fault = None;
    for item in Reader::over(file) {
        match item {
            Ok(_) => records = records.saturating_add(1),
            Err(found) => fault = Some(found),
        }
    }
    Outcome { records, fault }
}

// A file comes to so many records, and is then ended by no refusal.
fn is_whole(rt: &impl Abort, what: &str, file: &[u8], records: usize) {
    let Outcome {
        records: read,
        fault,
    } = read_all(file);
    assert_eq!(rt; read, records, "{what}");
    assert!(rt; fault.is_none(), "{what}");
}

// A file comes to so many records, and is then ended by the refusal of a number, at an offset.
fn comes_to(rt: &impl Abort, what: &str, file: &[u8], records: usize, refusal: u8, offset: usize) {
    let Outcome {
        records: read,
        fault,
    } = read_all(file);
    assert_eq!(rt; read, records, "{what}");
    let ended = fault.map(|fault| (fault.cause.number(), fault.offset));
    assert_eq!(rt; ended, Some((refusal, offset)), "{what}");
}

#[test]
fn version(rt: HostRuntime) {
    comes_to(&rt, "an empty file", b"", 0, 2, 0);
    comes_to(&rt, "version 0", b"\x00", 0, 2, 0);
    comes_to(&rt, "version 2", b"\x02\x00\x01\x03", 0, 2, 0);
    is_whole(&rt, "the version byte alone", b"\x01", 0);
}

#[test]
fn cut_short(rt: HostRuntime) {
    comes_to(&rt, "one byte left", b"\x01\x00", 0, 3, 1);
    comes_to(
        &rt,
        "a length and nothing after it",
        b"\x01\x00\x01",
        0,
        3,
        1,
    );
    comes_to(
        &rt,
        "one byte left after a record",
        b"\x01\x00\x01\x03\x00",
        1,
        3,
        4,
    );
    comes_to(&rt, "a length past the end", b"\x01\x00\x02\x03", 0, 3, 1);
    comes_to(&rt, "the longest length", b"\x01\xff\xff\x03", 0, 3, 1);
    comes_to(
        &rt,
        "an entry without its last byte",
        b"\x01\x00\x10\x01\x01\x01\x01\x00\x00\x00\x01\x00\x00\x00\x01\x00\x00\x00",
        0,
        3,
        1,
    );
}

#[test]
fn kinds_and_lengths(rt: HostRuntime) {
    comes_to(&rt, "length 0", b"\x01\x00\x00", 0, 4, 1);
    comes_to(&rt, "kind 0", b"\x01\x00\x01\x00", 0, 4, 1);
    comes_to(&rt, "kind 5", b"\x01\x00\x01\x05", 0, 4, 1);
    comes_to(&rt, "an entry of one byte", b"\x01\x00\x01\x01", 0, 4, 1);
    comes_to(&rt, "a call of two bytes", b"\x01\x00\x02\x03\x00", 0, 4, 1);
    comes_to(
        &rt,
        "a halt of two bytes, after a good one",
        b"\x01\x00\x01\x04\x00\x02\x04\x00",
        1,
        4,
        4,
    );
    comes_to(
        &rt,
        "a cancel of five bytes",
        b"\x01\x00\x05\x02\x01\x00\x00\x00",
        0,
        4,
        1,
    );
    comes_to(
        &rt,
        "a cancel of seven bytes",
        b"\x01\x00\x07\x02\x01\x00\x00\x00\x01\x00",
        0,
        4,
        1,
    );
}

#[test]
fn nothing_after_the_end(rt: HostRuntime) {
    let mut ended = Reader::over(b"\x01\x00\x01\x05\x00\x01\x03");
    assert!(rt; ended.next().is_some());
    assert!(rt; ended.next().is_none(), "after a refusal");
    let mut whole = Reader::over(b"\x01\x00\x01\x03");
    assert!(rt; whole.next().is_some());
    assert!(rt; whole.next().is_none(), "after the last record");
    assert!(rt; whole.next().is_none(), "and ever after");
}
