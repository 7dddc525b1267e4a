// The one-place queues of document 000, sections 8.2 and 8.3: 0 x, 1 full, 2 data, 3 the queue, 4 main with the rules 0 feed and 1 drain. They
// differ in the ports: `enq` reads and writes by methods of one port, the other methods by those of another.
use print::Page;

// enq: when full is 0, data is the parameter and full is 1
fn enq(file: &mut Page, port: Port) {
    file.word(b"MD\x01\x00\x01\x01\x1f\x00\x06\x04\x02\x0a\x01");
    file.put(port.read);
    file.word(b"\x00\x01\x00\x00\x00\x00\x07\x02\x09\x0a\x02");
    file.put(port.write);
    file.word(b"\x01\x03\x00\x09\x0a\x01");
    file.put(port.write);
    file.word(b"\x01\x01\x01\x00\x00\x00");
}

// notEmpty: full
fn not_empty(file: &mut Page, port: Port) {
    file.word(b"MD\x00\x01\x00\x04\x00\x0a\x01");
    file.put(port.read);
    file.word(b"\x00");
}

// first: when full is 1, data
fn first(file: &mut Page, port: Port) {
    file.word(b"MD\x00\x01\x00\x10\x00\x06\x04\x02\x0a\x01");
    file.put(port.read);
    file.word(b"\x00\x01\x01\x00\x00\x00\x0a\x02");
    file.put(port.read);
    file.word(b"\x00");
}

// deq: when full is 1, full is 0
fn deq(file: &mut Page, port: Port) {
    file.word(b"MD\x01\x00\x00\x15\x00\x06\x04\x02\x0a\x01");
    file.put(port.read);
    file.word(b"\x00\x01\x01\x00\x00\x00\x0a\x01");
    file.put(port.write);
    file.word(b"\x01\x01\x00\x00\x00\x00");
}

// feed puts x into the queue and counts it up; drain, when notEmpty is 1, displays first and takes it out.
fn rules(file: &mut Page, schedule: &[u8]) {
    file.word(
        b"UMRL\x1d\x00\x02\x01\x07\x02\x09\x0a\x03\x00\x01\x0a\x00\x00\x00\
        \x09\x0a\x00\x01\x01\x04\x00\x0a\x00\x00\x00\x01\x01\x00\x00\x00",
    );
    file.word(
        b"RL\x18\x00\x04\x02\x0a\x03\x01\x00\x01\x01\x00\x00\x00\
        \x07\x02\x09\x0b\x0a\x03\x02\x00\x09\x0a\x03\x03\x00",
    );
    file.word(b"SC\x02");
    file.word(schedule);
}

// The methods of a port.
#[derive(Clone, Copy)]
struct Port {
    read: u8,
    write: u8,
}

const PORT_0: Port = Port { read: 0, write: 1 };

const PORT_1: Port = Port { read: 2, write: 3 };

// The queue whose enq goes by the methods `into`, the others by the methods `from`: a read and a write each.
fn build(file: &mut Page, into: Port, from: Port, schedule: &[u8]) {
    file.clear();
    file.word(b"RG\x00\x00\x00\x00CR\x02\x00\x00\x00\x00CR\x02\x00\x00\x00\x00UM");
    enq(file, into);
    not_empty(file, from);
    first(file, from);
    deq(file, from);
    rules(file, schedule);
}

// enq by port 1, the others by port 0
pub fn pipeline(file: &mut Page, schedule: &[u8]) {
    build(file, PORT_1, PORT_0, schedule);
}

// enq by port 0, the others by port 1
pub fn bypass(file: &mut Page, schedule: &[u8]) {
    build(file, PORT_0, PORT_1, schedule);
}
