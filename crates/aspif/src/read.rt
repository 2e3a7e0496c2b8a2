// A text for other solvers, read back as a book.
ghost use Rattle.aspif.specs.Handing.{Restores};

use crate::answer::Unrestored;
use crate::whole::read_text;
use book::{BOOK_BYTES, copy_front, finish_book};

// The bytes of the text's book from byte 0 of the buffer on. On a refusal the buffer stays as it
// is. The whole text is read before it is asked whether its book fits: a fault of form comes first.
pub fn restore(text: &[u8], out: &mut [u8]) -> Result<usize, Unrestored>
    ensures { Restores text.now out.old result out.new }
{
    let mut draft = [0u8; BOOK_BYTES];
    let Some((making, atoms)) = read_text(text, &mut draft) else {
        return Err(Unrestored::Outside);
    };
    if !making.fits {
        return Err(Unrestored::NoFit);
    }
    if 255 < atoms {
        return Err(Unrestored::NoFit);
    }
    let n = finish_book(&mut draft, making, atoms as u8);
    if out.len() < n {
        return Err(Unrestored::NoFit);
    }
    copy_front(&draft[..n], out);
    Ok(n)
}
