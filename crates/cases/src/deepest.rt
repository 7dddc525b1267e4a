// The deepest design that reads: 64 instances, each of which calls the one below it, at depth 16 of its body. It records 64 calls.
use print::Page;

// The levels 2 to 15 of a body: blocks of one statement.
fn nest(file: &mut Page) {
    for _ in 2..16 {
        file.word(b"\x07\x01\x09");
    }
}

// The innermost expression of method i: 5, or a call of the method below.
fn innermost(file: &mut Page, i: u8) {
    if i == 0 {
        file.word(b"\x01\x05\x00\x00\x00");
    } else {
        file.word(&[10, i - 1, 0, 0]);
    }
}

// Instance i and its one method, which gives one more than its innermost expression.
fn instance(file: &mut Page, i: u8) {
    file.word(b"UMMD\x00\x01\x00");
    file.put(if i == 0 { 60 } else { 59 });
    file.word(b"\x00\x07\x02\x08");
    nest(file);
    innermost(file, i);
    file.word(b"\x09\x04\x00\x03\x00\x01\x01\x00\x00\x00");
}

// The last instance's rule displays what the method below it gives.
fn rule(file: &mut Page) {
    file.word(b"UMRL\x37\x00\x02\x01\x07\x02\x08");
    nest(file);
    file.word(b"\x0a\x3e\x00\x00\x09\x0b\x03\x00SC\x01\x00");
}

pub fn build(file: &mut Page) {
    file.clear();
    for i in 0..63 {
        instance(file, i);
    }
    rule(file);
}
