// A mask of the entries of a table.
ghost use Rattle.std.specs.Prelude.{ℕ, Bool, ◌≤◌, ◌<◌, ◌≡◌};
ghost use Rattle.memory.specs.Mask.{mask_from, TestIs};

// Bit i is set where entry i passes. From the last entry down, so that entry 0 ends in bit 0.
pub fn mask_of<F: Fn(usize) -> bool>(count: usize, passes: F) -> u64
    requires small { count ≤ 64 }
    requires callable { (i : ℕ) → i < count → F.pre passes i }
    ensures { (p : ℕ → Bool) → TestIs (F.post passes) p count → result ≡ mask_from p 0 count }
{
    let mut mask: u64 = 0;
    for i in (0..count).rev() {
        mask = mask * 2 + passes(i) as u64;
    }
    mask
}
