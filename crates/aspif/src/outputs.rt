// All output lines, read.
ghost use Rattle.std.specs.Prelude.{◌≤◌, length};
ghost use Rattle.aspif.specs.Lining.{OutputsSeen};

use crate::lines::put_output;
use crate::scan::skip_text;

// How many output lines there are, and where the text goes on.
#[derive(Clone, Copy)]
pub struct Outputs {
    pub count: usize,
    pub next: usize,
}

// Reads the output lines from `at` on, as many as there are, each that of the next atom: the line is
// written, and the text has it or not.
pub fn read_outputs(text: &[u8], at: usize) -> Outputs
    requires { at ≤ length text.now }
    ensures { OutputsSeen text.now at result }
{
    let mut line = [0u8; 64];
    let mut count = 0;
    let mut next = at;
    loop {
        let size = put_output(count, &mut line, 0);
        let Some(end) = skip_text(text, next, &line[..size]) else {
            return Outputs { count, next };
        };
        count += 1;
        next = end;
    }
}
