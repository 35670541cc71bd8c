// A bit cursor: fields of any number of bits, most significant first, whole bytes stored or taken as they fill. What is known of one stands
// in the contracts (`Held`, `Behind`) and not in the type: a reader's fact is about the bytes that it reads, which are lent to each call. A
// width is at most 56, since up to 7 bits are held before a field. It is a constant at each call, where a type for it would only be made.
ghost use Rattle.std.specs.Prelude.{◌+◌, ◌*◌, ◌^◌, ◌<◌, ◌≤◌, ◌≡◌, [], ◌∷◌, length, replicate};
ghost use Rattle.bits.specs.Fields.{Fit};
ghost use Rattle.bits.specs.Words.{eights};
ghost use Rattle.bits.specs.Cursor.{Held, Wrote, Behind, Read};

use crate::words::{copy_from, copy_to, load, low, store};

// A place in a slice of bytes: the next byte, and the n bits held before it. A writer holds bits that are still to be stored, a reader
// bits of the last byte that are still to be read.
#[derive(Clone, Copy)]
pub struct Cursor {
    pub acc: u64,
    pub n: usize,
    pub at: usize,
}

impl Cursor {
    // The start of a byte.
    pub fn at_byte(at: usize) -> Cursor
        ensures { result ≡ record { acc = 0; n = 0; at = at } }
    {
        Cursor { acc: 0, n: 0, at }
    }

    // Writes v in width bits.
    pub fn put(&mut self, img: &mut [u8], width: usize, v: u64)
        requires held { Held self.old }
        requires width_bound { (width ≤ 56) × (v < 2 ^ width) × (self.old.at * 8 + self.old.n + width ≤ length img.old * 8) }
        ensures { Wrote img.old img.new self.old self.new (width ∷ []) (v ∷ []) }
    {
        let n = self.n + width;
        let m = n % 8;
        let k = n / 8;
        let acc = (self.acc << width) + v;
        store(img, self.at, k, acc >> m);
        *self = Cursor {
            acc: low(acc, m),
            n: m,
            at: self.at + k,
        };
    }

    // Reads width bits.
    pub fn get(&mut self, img: &[u8], width: usize) -> u64
        requires behind { Behind img.now self.old }
        requires width_bound { (width ≤ 56) × (self.old.at * 8 + width ≤ length img.now * 8 + self.old.n) }
        ensures { Read img.now self.old self.new (width ∷ []) (result ∷ []) }
    {
        let k = (width + 7 - self.n) / 8;
        let m = self.n + k * 8 - width;
        let acc = load(img, self.at, k, self.acc);
        *self = Cursor {
            acc: low(acc, m),
            n: m,
            at: self.at + k,
        };
        acc >> m
    }

    // Writes each of xs in width bits.
    pub fn put_run(&mut self, img: &mut [u8], width: usize, xs: &[u32])
        requires held { Held self.old }
        requires width_bound { (width ≤ 56) × Fit (replicate (length xs.now) width) xs.now
            × (self.old.at * 8 + self.old.n + length xs.now * width ≤ length img.old * 8) }
        ensures { Wrote img.old img.new self.old self.new (replicate (length xs.now) width) xs.now }
    {
        for x in xs {
            self.put(img, width, u64::from(*x));
        }
    }

    // Reads each of xs in width bits.
    pub fn get_run(&mut self, img: &[u8], width: usize, xs: &mut [u32])
        requires behind { Behind img.now self.old }
        requires width_bound { (width ≤ 32) × (self.old.at * 8 + length xs.old * width ≤ length img.now * 8 + self.old.n) }
        ensures { Read img.now self.old self.new (replicate (length xs.old) width) xs.new }
    {
        for x in xs.iter_mut() {
            *x = self.get(img, width) as u32;
        }
    }

    // Writes whole bytes at a byte's start.
    pub fn put_bytes(&mut self, img: &mut [u8], xs: &[u8])
        requires { (self.old.n ≡ 0) × (self.old.acc ≡ 0) × (self.old.at + length xs.now ≤ length img.old) }
        ensures { Wrote img.old img.new self.old self.new (eights (length xs.now)) xs.now }
    {
        copy_to(img, self.at, xs);
        self.at += xs.len();
    }

    // Reads whole bytes at a byte's start.
    pub fn get_bytes(&mut self, img: &[u8], xs: &mut [u8])
        requires { (self.old.n ≡ 0) × (self.old.acc ≡ 0) × (self.old.at + length xs.old ≤ length img.now) }
        ensures { Read img.now self.old self.new (eights (length xs.old)) xs.new }
    {
        copy_from(img, self.at, xs);
        self.at += xs.len();
    }
}
