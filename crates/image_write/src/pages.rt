// The page tables to their bytes, eight entries at a time.
ghost use Rattle.std.specs.Prelude.{◌+◌, ◌*◌, ◌/◌, ◌%◌, ◌<◌, ◌≤◌, ◌≡◌, length};
ghost use Rattle.bits.specs.Fields.{times, each};
ghost use Rattle.bits.specs.Cursor.{Wrote};
ghost use Rattle.image_write.specs.Image.{page_widths, page_fields, byte_at};
ghost use Rattle.image_write.specs.Pages.{PagesFit};

use crate::words::quad_word;
use bits::cursor::Cursor;
use memory::page::Page;

// Eight entries in the 11 bytes from a place on. A slice of eight, as a part of a table that goes by number is.
fn put_eight(img: &mut [u8], at: usize, g: &[Page])
    requires { (at + 11 ≤ length img.old) × (length g.now ≡ 8) × PagesFit 8 g.now }
    ensures { Wrote img.old img.new (byte_at at) (byte_at (at + 11)) (times 8 page_widths) (each page_fields g.now) }
{
    let mut c = Cursor::at_byte(at);
    // Two whole words of 44 bits, not a loop over the entries: the widths are constants here.
    c.put(img, 44, quad_word(g[0], g[1], g[2], g[3]));
    c.put(img, 44, quad_word(g[4], g[5], g[6], g[7]));
}

// A table of whole eights from a place on.
pub fn put_pages(img: &mut [u8], at: usize, pages: &[Page])
    requires { (length pages.now % 8 ≡ 0) × (at + length pages.now / 8 * 11 ≤ length img.old) × PagesFit (length pages.now) pages.now }
    ensures { Wrote img.old img.new (byte_at at) (byte_at (at + length pages.now / 8 * 11))
        (times (length pages.now) page_widths) (each page_fields pages.now) }
{
    // By number (F4): both the place and the entries go by it, and `chunks` would be zipped with the places.
    for k in 0..pages.len() / 8 {
        put_eight(img, at + k * 11, &pages[k * 8..k * 8 + 8]);
    }
}
