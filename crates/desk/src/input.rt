// The lines of the input. A line feed ends a line, and the end of the input ends the last one;
// after a last line feed there is no further line.
use crate::buffers::Buffers;
use crate::line::answer_line;
use std::io::Read;
use talk::{Line, print};

// The present line as far as it has come, and whether there was room for all of it.
#[derive(Drop)]
struct Present<'a> {
    line: Line<'a>,
    is_whole: bool,
}

// Answers the line.
fn answer_present(rt: &impl Print, present: &Present, buffers: &mut Buffers) {
    if present.is_whole {
        answer_line(rt, present.line.as_slice(), buffers);
    } else {
        print(rt, b"bad line\n");
    }
}

// Takes the next byte of the input, and answers the line that it ends.
fn take_byte(rt: &impl Print, byte: u8, present: &mut Present, buffers: &mut Buffers) {
    if byte == b'\n' {
        answer_present(rt, present, buffers);
        present.line.clear();
        present.is_whole = true;
    } else if present.line.room_left() == 0 {
        present.is_whole = false;
    } else {
        present.line.byte(byte);
    }
}

// Reads once and takes what came, and gives whether the input goes on. Nothing more comes where it has
// ended or cannot be read.
fn take_some(
    rt: &impl Print,
    input: &mut impl Read,
    present: &mut Present,
    buffers: &mut Buffers,
) -> bool {
    let mut chunk = [0u8; 4096];
    match input.read(&mut chunk) {
        Ok(n) if 0 < n => {
            for byte in &chunk[..n] {
                take_byte(rt, *byte, present, buffers);
            }
            true
        }
        _ => false,
    }
}

// Answers all lines of the input. Nothing says that the input ends, so the turns are counted up to a
// number that no run reaches.
pub fn answer_all(rt: &(impl Input + Print), room: &mut [u8], buffers: &mut Buffers) {
    let mut input = rt.reader();
    let mut present = Present {
        line: Line::new(room),
        is_whole: true,
    };
    for _ in 0..u64::MAX {
        if !take_some(rt, &mut input, &mut present, buffers) {
            break;
        }
    }
    if !present.line.as_slice().is_empty() {
        answer_present(rt, &present, buffers);
    }
}
