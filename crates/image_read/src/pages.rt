// The page tables of their bytes, eight entries at a time.
ghost use Rattle.std.specs.Prelude.{◌≡◌, [], ◌∷◌, ◌+◌, ◌*◌, ◌/◌, ◌%◌, ◌^◌, ◌<◌, ◌≤◌, length};
ghost use Rattle.bits.specs.Fields.{times};
ghost use Rattle.memory.specs.Page.{page_of};
ghost use Rattle.bits.specs.Cursor.{Read};
ghost use Rattle.image_write.specs.Image.{page_widths, byte_at};
ghost use Rattle.image_read.specs.Reading.{is_set, pages_of};
ghost use Rattle.image_read.specs.Sections.{fields_at};
ghost use Rattle.image_read.specs.Pages.{eight_fields};

use bits::words::load;
use memory::page::Page;

// The words of eight entries: four in 44 bits, then four in 44 bits.
#[derive(Clone, Copy)]
pub struct Eight {
    pub first: u64,
    pub last: u64,
}

// An entry of its 11 bits.
fn page_of(w: u64) -> Page
    requires { w < 2 ^ 11 }
    ensures { result ≡ page_of (1024 * (w / 2)) (is_set (w % 2)) }
{
    Page::new((w / 2 * 1024) as usize, w % 2 == 1)
}

// The eight entries in the 11 bytes from a place on.
fn eight_words(img: &[u8], at: usize) -> Eight
    requires { at + 11 ≤ length img.now }
    ensures { Read img.now (byte_at at) (byte_at (at + 11)) (44 ∷ 44 ∷ []) (result.first ∷ result.last ∷ []) }
{
    let a = load(img, at, 4, 0);
    let b = load(img, at + 4, 4, 0);
    let c = load(img, at + 8, 3, 0);
    Eight {
        first: a * 4096 + b / 0x0010_0000,
        last: b % 0x0010_0000 * 0x0100_0000 + c,
    }
}

// Each entry is cut out by its own constant.
fn eight_of(w: Eight) -> [Page; 8]
    requires { (w.first < 2 ^ 44) × (w.last < 2 ^ 44) }
    ensures { (result ≡ pages_of (eight_fields w)) × (length result ≡ 8) }
{
    let a = w.first;
    let b = w.last;
    let p = page_of(a / 0x0002_0000_0000);
    let q = page_of(a / 0x0040_0000 % 2048);
    let r = page_of(a / 2048 % 2048);
    let s = page_of(a % 2048);
    let t = page_of(b / 0x0002_0000_0000);
    let u = page_of(b / 0x0040_0000 % 2048);
    let v = page_of(b / 2048 % 2048);
    let x = page_of(b % 2048);
    [p, q, r, s, t, u, v, x]
}

// A table of whole eights from a place on.
pub fn get_pages(img: &[u8], at: usize, pages: &mut [Page])
    requires { (length pages.old % 8 ≡ 0) × (at + length pages.old / 8 * 11 ≤ length img.now) }
    ensures { pages.new ≡ pages_of (fields_at (times (length pages.old) page_widths) img.now at (length pages.old / 8 * 11)) }
{
    // By number (F4), as image_write's `put_pages`.
    for k in 0..pages.len() / 8 {
        let g = eight_of(eight_words(img, at + k * 11));
        pages[k * 8..k * 8 + 8].copy_from_slice(&g);
    }
}
