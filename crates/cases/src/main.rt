// Document 01's cases P1 to P10, document 000's transcripts and the deepest design that reads, each as a line or some.
#![tactic(auto)]

mod deepest;
mod gcd;
mod queues;
mod show;

use crate::show::Case;
use print::Page;
use std::fmt;

// A rule that displays what the cases ask for; yes is 1 and no is 0.
fn arithmetic(out: &mut Page) -> fmt::Result {
    Case {
        name: "P1",
        file: b"UMRL\x0f\x00\x02\x01\x0b\x04\x00\x01\xff\xff\xff\x7f\x01\x01\x00\x00\x00SC\x01\x00",
    }
    .clocks(out, 1)?;
    Case {
        name: "P2",
        file: b"UMRL\x0f\x00\x02\x01\x0b\x04\x01\x01\x00\x00\x00\x80\x01\x01\x00\x00\x00SC\x01\x00",
    }
    .clocks(out, 1)?;
    Case {
        name: "P3",
        file: b"UMRL\x36\x00\x02\x01\x07\x02\
        \x09\x0b\x05\x04\x03\x01\x03\x00\x00\x00\x01\x05\x00\x00\x00\x01\x01\x00\x00\x00\x01\x00\x00\x00\x00\
        \x09\x0b\x05\x04\x03\x01\x05\x00\x00\x00\x01\x05\x00\x00\x00\x01\x01\x00\x00\x00\x01\x00\x00\x00\x00\
        SC\x01\x00",
    }
    .clocks(out, 1)?;
    Case {
        name: "P4",
        file: b"UMRL\x1a\x00\x02\x01\
        \x0b\x05\x04\x03\x01\x00\x00\x00\x80\x01\x01\x00\x00\x00\x01\x01\x00\x00\x00\x01\x00\x00\x00\x00\
        SC\x01\x00",
    }
    .clocks(out, 1)
}

fn conflicts(out: &mut Page) -> fmt::Result {
    Case {
        name: "P5 write 0, read 1:",
        file: b"CR\x02\x00\x00\x00\x00UM\
        RL\x0b\x00\x02\x01\x0a\x00\x01\x01\x01\x07\x00\x00\x00RL\x07\x00\x02\x01\x0b\x0a\x00\x02\x00SC\x02\x00\x01",
    }
    .clocks(out, 1)?;
    Case {
        name: "P5 write 1, read 1:",
        file: b"CR\x02\x00\x00\x00\x00UM\
        RL\x0b\x00\x02\x01\x0a\x00\x03\x01\x01\x07\x00\x00\x00RL\x07\x00\x02\x01\x0b\x0a\x00\x02\x00SC\x02\x00\x01",
    }
    .clocks(out, 1)?;
    Case {
        name: "P6",
        file: b"RG\x05\x00\x00\x00UMRL\x18\x00\x02\x01\x07\x02\
        \x09\x0a\x00\x01\x01\x01\x01\x00\x00\x00\x09\x0a\x00\x01\x01\x01\x02\x00\x00\x00SC\x01\x00",
    }
    .clocks(out, 1)?;
    Case {
        name: "P7",
        file: b"CR\x02\x05\x00\x00\x00UMRL\x14\x00\x02\x01\x07\x02\
        \x09\x0a\x00\x01\x01\x01\x01\x00\x00\x00\x09\x0b\x0a\x00\x02\x00SC\x01\x00",
    }
    .clocks(out, 1)
}

fn answers(out: &mut Page) -> fmt::Result {
    Case {
        name: "P8",
        file: b"RG\x05\x00\x00\x00UMRL\x0e\x00\x01\x01\x00\x00\x00\x0a\x00\x01\x01\x01\x04\x00\x00\x00SC\x01\x00",
    }
    .clocks(out, 1)?;
    Case {
        name: "P9",
        file: b"",
    }
    .clocks(out, 1)?;
    Case {
        name: "P10",
        file: b"RG\x05\x00\x00\x00UMRL\x11\x00\x02\x01\x0a\x00\x01\x01\x04\x00\x0a\x00\x00\x00\
        \x01\x01\x00\x00\x00SC\x01\x00",
    }
    .run(out, 3)
}

fn divisor(out: &mut Page, file: &mut Page) -> fmt::Result {
    gcd::build(file);
    transcript(out, "gcd", 8, file)
}

// Schedule 1 is drain, feed, and schedule 2 feed, drain.
fn pipelines(out: &mut Page, file: &mut Page) -> fmt::Result {
    queues::pipeline(file, &[1, 0]);
    transcript(out, "pipeline 1", 4, file)?;
    queues::pipeline(file, &[0, 1]);
    transcript(out, "pipeline 2", 6, file)
}

fn bypasses(out: &mut Page, file: &mut Page) -> fmt::Result {
    queues::bypass(file, &[1, 0]);
    transcript(out, "bypass 1", 6, file)?;
    queues::bypass(file, &[0, 1]);
    transcript(out, "bypass 2", 4, file)
}

fn transcript(out: &mut Page, name: &str, n: u32, file: &Page) -> fmt::Result {
    Case {
        name,
        file: file.text(),
    }
    .transcript(out, n)
}

fn all(out: &mut Page, file: &mut Page) -> fmt::Result {
    arithmetic(out)?;
    conflicts(out)?;
    answers(out)?;
    divisor(out, file)?;
    pipelines(out, file)?;
    bypasses(out, file)?;
    deepest::build(file);
    Case {
        name: "deepest",
        file: file.text(),
    }
    .clocks(out, 1)
}

fn main() {
    let mut text = [0u8; 8192];
    let mut bytes = [0u8; 8192];
    let mut out = Page::new(&mut text);
    let mut file = Page::new(&mut bytes);
    let _ = all(&mut out, &mut file);
    io::write_all(1, out.text());
}
