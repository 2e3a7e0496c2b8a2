// A reading as text: its number, and a row of bytes that is a set of atoms, 1 for an atom in it. What
// does not fit is lost, byte by byte.
ghost use Rattle.std.specs.Prelude.{◌≡◌, ◌+◌, ◌≤◌, length};
ghost use Rattle.talk.specs.Gathered.{gather, gathered};
ghost use Rattle.listing.specs.Text.{number_text, place_text, places_text, line_text};

use system::decimal;
use talk::Line;

fn put_text(text: &[u8], line: &mut Line)
    ensures { gathered line.new ≡ gather text.now (gathered line.old) }
{
    for byte in text {
        line.byte(*byte);
    }
}

// The number in decimal.
fn put_number(n: u64, line: &mut Line)
    ensures { gathered line.new ≡ gather (number_text n) (gathered line.old) }
{
    let mut digits = [0u8; 20];
    let count = decimal(n, &mut digits);
    put_text(&digits[..count], line);
}

// A space and the place's number, where its byte is the one that is asked for.
fn put_place(a: usize, byte: u8, asked: u8, line: &mut Line)
    ensures { gathered line.new ≡
        gather (place_text asked a byte) (gathered line.old) }
{
    if byte == asked {
        line.byte(b' ');
        put_number(a as u64, line);
    }
}

// A space and its number for each place of the row that has the byte asked for.
pub fn put_places(row: &[u8], asked: u8, line: &mut Line)
    ensures { gathered line.new ≡
        gather (places_text asked 0 row.now) (gathered line.old) }
{
    for (a, byte) in row.iter().enumerate() {
        put_place(a, *byte, asked, line);
    }
}

// A space and its number for each atom of the row.
pub fn put_set(row: &[u8], line: &mut Line)
    ensures { gathered line.new ≡
        gather (places_text 1 0 row.now) (gathered line.old) }
{
    put_places(row, 1, line);
}

// The line of a reading: its number, a colon and its atoms. There is room for all of it.
pub fn put_line(n: u64, row: &[u8], line_end: u8, line: &mut Line)
    requires { (gathered line.old).held + length (line_text n row.now line_end)
        ≤ length (gathered line.old).bytes }
    ensures { gathered line.new ≡
        gather (line_text n row.now line_end) (gathered line.old) }
{
    put_number(n, line);
    line.byte(b':');
    put_set(row, line);
    line.byte(line_end);
}
