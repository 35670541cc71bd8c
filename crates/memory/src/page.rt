// Page entries.
ghost use Rattle.std.specs.Prelude.{◌^◌, ◌<◌, ◌≡◌};
ghost use Rattle.memory.specs.Page.{page_of, offset_of, writable_of};

// An entry of a page table: a byte offset into the arena and a flag.
#[derive(Clone, Copy, PartialEq, Eq)]
pub struct Page(pub u32);

impl Page {
    pub const OFFSET_MASK: u32 = 0x3FFF_FFFF;

    pub const WRITABLE: u32 = 1 << 31;

    // Shows the zero page and drops writes.
    pub const UNMAPPED: Page = Page(0);

    pub fn new(offset: usize, writable: bool) -> Page
        ensures { result ≡ page_of offset writable }
    {
        let low = (offset & Page::OFFSET_MASK as usize) as u32;
        if writable {
            Page(low | Page::WRITABLE)
        } else {
            Page(low)
        }
    }

    pub fn offset(self) -> usize
        ensures { (result ≡ offset_of self) × (result < 2 ^ 30) }
    {
        (self.0 & Page::OFFSET_MASK) as usize
    }

    pub fn is_writable(self) -> bool
        ensures { result ≡ writable_of self }
    {
        self.0 & Page::WRITABLE != 0
    }
}
