//! Runs over readers that read on without end.
use goblin::options::ParseOptions;
use goblin_text::counted::Counted;
use goblin_text::run::{Outcome, run};
use std::alloc::Global;
use std::io;
use std::io::{ErrorKind, Read};

// A reader that is interrupted at each of so many calls, and then ends.
#[derive(Drop)]
struct Interrupted {
    left: u32,
}

impl Read for Interrupted {
    fn read(&mut self, _buf: &mut [u8]) -> io::Result<usize> {
        if self.left == 0 {
            return Ok(0);
        }
        self.left -= 1;
        Err(io::Error::from(ErrorKind::Interrupted))
    }
}

// Whether a run over a reader that is interrupted without end fails after as many calls as it makes.
fn gives_up(alloc: Global) -> bool {
    let mut reader = Counted::new(Interrupted { left: u32::MAX });
    let mut writer = Counted::new(Vec::new(alloc));
    run(alloc, &mut reader, &mut writer, &ParseOptions::strict()) == Outcome::Failed
        && u32::MAX.saturating_sub(reader.into_inner().left) == 33_554_432
        && writer.into_inner().is_empty()
}

#[test]
fn gives_up_after_33554432_reads(rt: HostRuntime) {
    assert!(rt; gives_up(rt.alloc()));
}

// A reader that reads a zero at each call.
#[derive(Drop)]
struct Drops {
    given: u32,
}

impl Read for Drops {
    fn read(&mut self, buf: &mut [u8]) -> io::Result<usize> {
        let Some(first) = buf.first_mut() else {
            return Ok(0);
        };
        *first = 0;
        self.given = self.given.saturating_add(1);
        Ok(1)
    }
}

// Whether a run over zeros without end is refused after one more byte than the limit.
fn is_too_long(alloc: Global) -> bool {
    let line = "refused: input is longer than 16777216 bytes\n";
    let mut reader = Counted::new(Drops { given: 0 });
    let mut writer = Counted::new(Vec::new(alloc));
    run(alloc, &mut reader, &mut writer, &ParseOptions::strict()) == Outcome::Refused
        && reader.into_inner().given == 16_777_217
        && writer.into_inner().as_slice() == line.as_bytes()
}

#[test]
fn is_refused_after_16777217_bytes(rt: HostRuntime) {
    assert!(rt; is_too_long(rt.alloc()));
}
