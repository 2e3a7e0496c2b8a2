// The readings of a page, written: without names in large pieces, each while there is still room for
// the longest line.
ghost use Rattle.std.specs.Prelude.{◌≡◌, ◌-◌, ◌≤◌, length};
ghost use Rattle.meaning.specs.Choice.{if_lt};
ghost use Rattle.talk.specs.Gathered.{gathered};
ghost use Rattle.listing.specs.Text.{longest_line, HasRoom};

use crate::named::print_line;
use crate::rows::put_line;
use talk::Line;

// The longest line of a listing has a number, a colon, 255 atoms and a line end.
const LONGEST_LINE: usize = 20 + 1 + 255 * 4 + 1;

// Writes the piece where there may be no room for another line, and it is empty then.
fn print_full(rt: &impl Print, piece: &mut Line)
    ensures bytes { (gathered piece.new).bytes ≡ (gathered piece.old).bytes }
    ensures held { (gathered piece.new).held ≡
        if_lt (length (gathered piece.old).bytes - (gathered piece.old).held)
        longest_line 0 (gathered piece.old).held }
{
    if piece.room_left() < LONGEST_LINE {
        piece.print(rt);
        piece.clear();
    }
}

// Writes the line of a reading: with names at once, and without them it goes into the piece.
fn print_row(rt: &impl Print, n: u64, row: &[u8], line_end: u8, names: &[u8], piece: &mut Line)
    requires { (length row.now ≤ 255) × HasRoom (gathered piece.old) }
    ensures { HasRoom (gathered piece.new) }
{
    if !names.is_empty() {
        return print_line(rt, n, row, names);
    }
    put_line(n, row, line_end, piece);
    print_full(rt, piece);
}

// Writes the lines of the first rows of a page, with names where there are any; `before` readings were
// listed before. No byte is lost: before each line there is room for the longest one.
pub fn print_page(
    rt: &impl Print,
    page: &[u8],
    atoms: usize,
    rows: u64,
    before: u64,
    line_end: u8,
    names: &[u8],
)
    requires { atoms ≤ 255 }
{
    let mut room = [0u8; 65536];
    let mut piece = Line::new(&mut room);
    let mut rest = page;
    for row in 1..=rows {
        let Some((set, others)) = rest.split_at_checked(atoms) else {
            break;
        };
        print_row(
            rt,
            before.wrapping_add(row),
            set,
            line_end,
            names,
            &mut piece,
        );
        rest = others;
    }
    piece.print(rt);
}
