// A step at each of a run of entries of a page table.
ghost use Rattle.std.specs.Prelude.{ℕ, ◌+◌, ◌^◌, ◌<◌, ◌≡◌};
ghost use Rattle.memory_map.specs.Windows.{each_page, StepIs};

use memory::page::Page;

// `step` makes each of so many entries from a slot on, round the table's end, of its number and of what it was.
pub fn each_page<const N: usize, F: Fn(usize, Page) -> Page>(
    pages: &mut [Page; N],
    slot: usize,
    count: usize,
    step: F,
)
    requires some { 0 < N }
    requires small { slot + count < 2 ^ 64 }
    requires callable { (i : ℕ) (p : Page) → i < count → F.pre step i p }
    ensures { (f : ℕ → Page → Page) → StepIs (F.post step) f count → pages.new ≡ each_page N f slot count pages.old }
{
    for i in 0..count {
        let at = (slot + i) % N;
        pages[at] = step(i, pages[at]);
    }
}
