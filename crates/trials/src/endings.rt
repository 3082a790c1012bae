// The verdicts of every way to end, with numbers of every length.
use effect::Fault;
use nanocore::answer::RunRefusal;
use program::print::text;
use rule::verdict::{too_long, verdict};
use std::rt::Stdout;

pub fn print(out: Stdout) {
    halted(out);
    faults(out);
    limits(out);
    loads(out);
}

fn halted(out: Stdout) {
    for (count, pc) in [(0, 0), (5, 6), (65535, 255)] {
        text(out, verdict(Ok(()), count, pc).as_bytes());
    }
}

fn faults(out: Stdout) {
    let faults = [
        (Fault::InvalidOpcode { opcode: 40, pc: 7 }, 12, 7),
        (
            Fault::InvalidOpcode {
                opcode: 255,
                pc: 255,
            },
            0,
            255,
        ),
        (Fault::StackFull(234), 21, 42),
        (Fault::StackEmpty(255), 9, 10),
        (Fault::DivisorZero(28), 99, 100),
        (Fault::DivisorZero(31), 999, 99),
        (Fault::NoInput, 1000, 9),
        (Fault::NoRoom, 9999, 1),
    ];
    for (fault, count, pc) in faults {
        text(
            out,
            verdict(Err(RunRefusal::Fault(fault)), count, pc).as_bytes(),
        );
    }
}

fn limits(out: Stdout) {
    for (limit, pc) in [(0, 0), (1024, 0), (65535, 199)] {
        text(
            out,
            verdict(Err(RunRefusal::LimitReached(limit)), limit, pc).as_bytes(),
        );
    }
}

fn loads(out: Stdout) {
    for (length, start) in [(2, 255), (257, 0), (300, 0), (usize::MAX, 255)] {
        text(out, too_long(length, start).as_bytes());
    }
}
