// The lines of a text, written into a buffer that has room for them.
ghost use Rattle.std.specs.Prelude.{◌++◌, map, ◌+◌, ◌≤◌, ◌<◌, length};
ghost use Rattle.meaning.specs.Books.{atom_no, rule};
ghost use Rattle.book.specs.ReadBook.{the_book};
ghost use Rattle.decimal.specs.Fewest.{decimal, Stored};
ghost use Rattle.aspif.specs.Text.{part_bytes, rule_line, rule_lines, output_line, output_lines};

use book::{ReadBook, wide};
use decimal::put_number;
use meaning::RuleNo;

// Writes the word from place `at` on; where it ends.
pub fn put_text(word: &[u8], out: &mut [u8], at: usize) -> usize
    requires { at + length word.now ≤ length out.old }
    ensures { Stored word.now at out.old result out.new }
{
    let end = at + word.len();
    out[at..end].copy_from_slice(word);
    end
}

// Writes the word and the number behind it; where they end.
fn put_item(word: &[u8], n: usize, out: &mut [u8], at: usize) -> usize
    requires { at + length (word.now ++ decimal n) ≤ length out.old }
    ensures { Stored (word.now ++ decimal n) at
        out.old result out.new }
{
    let end = put_text(word, out, at);
    put_number(n, out, end)
}

// Writes the atoms of one part of a body, each one more and behind the sign.
fn put_part(part: &[u8], sign: &[u8], out: &mut [u8], at: usize) -> usize
    requires { at + length (part_bytes sign.now (map atom_no part.now)) ≤ length out.old }
    ensures { Stored (part_bytes sign.now (map atom_no part.now)) at
        out.old result out.new }
{
    let mut end = at;
    for n in part {
        end = put_item(sign, wide(*n) + 1, out, end);
    }
    end
}

// Writes the line of rule r.
fn put_rule(book: &ReadBook, r: RuleNo, out: &mut [u8], at: usize) -> usize
    requires { (r.0 < book.now.shape.rules)
        × (at + length (rule_line (rule (the_book book.now) r)) ≤ length out.old) }
    ensures { Stored (rule_line (rule (the_book book.now) r)) at
        out.old result out.new }
{
    let pos = book.positives(r);
    let neg = book.negatives(r);
    let headed = put_item(b"1 0 1 ", wide(book.head(r).0) + 1, out, at);
    let counted = put_item(b" 0 ", pos.len() + neg.len(), out, headed);
    let positive = put_part(pos, b" ", out, counted);
    let negative = put_part(neg, b" -", out, positive);
    put_text(b"\n", out, negative)
}

// Writes the lines of all rules.
pub fn put_rules(book: &ReadBook, out: &mut [u8], at: usize) -> usize
    requires { at + length (rule_lines (the_book book.now).rules) ≤ length out.old }
    ensures { Stored (rule_lines (the_book book.now).rules) at
        out.old result out.new }
{
    let mut end = at;
    for r in 0..book.shape.rules {
        end = put_rule(book, RuleNo(r), out, end);
    }
    end
}

// Writes the line of atom n.
pub fn put_output(n: usize, out: &mut [u8], at: usize) -> usize
    requires { (at + length (output_line n) ≤ length out.old) × (n < 18446744073709551615) }
    ensures { Stored (output_line n) at out.old result out.new }
{
    // The name is written first in its own place, to know how long it is.
    let mut digits = [0u8; 20];
    let width = put_number(n, &mut digits, 0);
    let sized = put_item(b"4 ", 1 + width, out, at);
    let named = put_item(b" x", n, out, sized);
    let numbered = put_item(b" 1 ", n + 1, out, named);
    put_text(b"\n", out, numbered)
}

// Writes the lines of the atoms below `atoms`.
pub fn put_outputs(atoms: u8, out: &mut [u8], at: usize) -> usize
    requires { at + length (output_lines 0 atoms) ≤ length out.old }
    ensures { Stored (output_lines 0 atoms) at out.old result out.new }
{
    let mut end = at;
    for n in 0..atoms {
        end = put_output(wide(n), out, end);
    }
    end
}
