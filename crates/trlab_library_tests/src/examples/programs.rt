//! The examples of driver programs, from lines to machine.

use std::alloc::Global;
use trlab_asm::{assemble, disassemble};
use trlab_code::{Code, Input, Instr, Kind, MotionView, Register, decode, encode};
use trlab_lines::{cut, next_line};
use trlab_machine::run_motion;
use trlab_notes::{AbstractValue, level_between};
use trlab_verify::{Motion, verify_motion};
use trlab_words::{Key, words};

/// From `trlab_lines`: whether a text is split into the expected parts.
fn split() -> Option<bool> {
    let (line, rest) = next_line(b"road 1\nlanes 2\n")?;
    let (name, number) = cut(line, b' ')?;
    let is_right = name == b"road".as_slice()
        && number == b"1".as_slice()
        && rest == b"lanes 2\n".as_slice();
    Some(is_right)
}

/// From `trlab_code`: the number of bytes and of instructions of a program.
fn encode_gap(alloc: Global) -> Option<(usize, usize)> {
    let instrs = vec![in alloc;
        Instr::Get(Register::R0, Input::Gap),
        Instr::Go(Register::R0),
    ]
    .ok()?;
    let code = Code::new(Kind::Motion, instrs)?;
    let bytes = encode(alloc, &code).ok()?;
    let same = decode(alloc, &bytes).ok()?;
    Some((bytes.len(), same.instrs().len()))
}

/// From `trlab_asm`: whether the canonical text of a program is as expected.
fn print_gap(alloc: Global) -> Option<bool> {
    let code = assemble(alloc, Kind::Motion, b"get r0,gap ; all of it\ngo r0").ok()?;
    let text = disassemble(alloc, &code).ok()?;
    Some(text.as_slice() == b"get r0, gap\ngo r0\n".as_slice())
}

/// From `trlab_notes`: the level between two values.
fn compare() -> u8 {
    let (slow, fast) = (AbstractValue::Between(0, 2), AbstractValue::Between(3, 5));
    let (is_same, known_level) = (false, 0);
    let level = level_between(slow, fast, is_same, known_level);
    level
}

/// From `trlab_verify`: an accepted program.
fn verify(alloc: Global) -> Option<Motion> {
    let text = b"get r0, gap\nget r1, limit\nmin r0, r0, r1\ngo r0";
    let code = assemble(alloc, Kind::Motion, text).ok()?;
    let motion = verify_motion(alloc, code).ok()?;
    Some(motion)
}

/// From `trlab_machine`: the new speed of a car, and the number of executed instructions.
fn run(motion: &Motion) -> Option<(u32, u32)> {
    let (speed, limit, gap, headspeed) = (2, 5, 3, 0);
    let view = MotionView::new(speed, limit, gap, headspeed)?;
    let (road, car, step) = (0, 0, 0);
    let moved = run_motion(motion, view, &words(&Key([0; 32]), road, car, step));
    let (speed, steps) = (moved.speed, moved.steps);
    Some((speed, steps))
}

#[test]
fn programs_come_from_lines(rt: HostRuntime) {
    let alloc = rt.alloc();
    assert!(rt; split() == Some(true) && encode_gap(alloc) == Some((24, 2)));
    assert!(rt; print_gap(alloc) == Some(true) && compare() == 2);
}

#[test]
fn accepted_programs_drive(rt: HostRuntime) {
    let motion = verify(rt.alloc()).expect(&rt, "memory");
    assert!(rt; run(&motion) == Some((3, 4)));
}
