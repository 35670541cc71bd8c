// Bytes that are put one after the other into lent bytes, up to their number. What no longer fits is left out.
ghost use Rattle.std.specs.Prelude.{◌≡◌, ◌≤◌, [], length, take, IsTrue, ◌↔◌};
ghost use Rattle.replay_text.specs.Decimal.{decimal_of};
ghost use Rattle.replay_text.specs.Hex.{hex_of, hex8, hex16, hex32, hex64};
ghost use Rattle.replay_text.specs.Out.{Put, put_none, put_one, put_all};

use crate::hex::glyph;
use std::marker::Model;

#[derive(Drop)]
pub struct Out<'a> {
    bytes: &'a mut [u8],
    // How many are put.
    len: usize,
}

// Clauses see the bytes that are put and the room.
impl<'a> Model for Out<'a> {
    ghost use Rattle.std.specs.Prelude.{take, length, ◌≤◌};
    ghost use Rattle.replay_text.specs.Out.{Put};

    ghost Value = { Put };

    ghost view = { λ o. record { bytes = take o.len o.bytes.now; room = length o.bytes.now } };

    ghost invariant = { λ o. o.len ≤ length o.bytes.now };
}

impl<'a> Out<'a> {
    // The room is all of the lent bytes.
    pub fn new(bytes: &'a mut [u8]) -> Out<'a>
        ensures { result ≡ put_none (length bytes.old) }
    {
        Out { bytes, len: 0 }
    }

    pub fn as_slice(&self) -> &[u8]
        ensures { result.now ≡ self.now.bytes }
    {
        &self.bytes[..self.len]
    }

    pub fn len(&self) -> usize
        ensures { result ≡ length self.now.bytes }
    {
        self.len
    }

    pub fn is_full(&self) -> bool
        ensures { IsTrue result ↔ (length self.now.bytes ≡ self.now.room) }
    {
        self.len == self.bytes.len()
    }

    pub fn clear(&mut self)
        ensures { self.new ≡ put_none self.old.room }
    {
        self.len = 0;
    }

    #[tactic(auto, unfolding(crate::specs::Out::put_one))]
    pub fn put(&mut self, b: u8)
        ensures { self.new ≡ put_one self.old b }
    {
        if self.len < self.bytes.len() {
            self.bytes[self.len] = b;
            self.len += 1;
        }
    }

    #[inline(always)]
    pub fn put_all(&mut self, bytes: &[u8])
        ensures { self.new ≡ put_all self.old bytes.now }
    {
        let room = self.bytes.len() - self.len;
        // Where all fit, as nearly always, their number is the caller's, and a few bytes are stored without a call.
        if bytes.len() <= room {
            self.bytes[self.len..self.len + bytes.len()].copy_from_slice(bytes);
            self.len += bytes.len();
        } else {
            self.bytes[self.len..].copy_from_slice(&bytes[..room]);
            self.len += room;
        }
    }

    pub fn put_decimal(&mut self, n: u64)
        ensures { self.new ≡ put_all self.old (decimal_of n) }
    {
        let mut digits = [0u8; 20];
        let k = io::decimal(n, &mut digits);
        self.put_all(&digits[..k]);
    }

    // A byte's two upper case digits; below, those of wider numbers, high half first.
    pub fn put_hex8(&mut self, n: u8)
        ensures { self.new ≡ put_all self.old (hex8 n) }
    {
        self.put(glyph(n / 16));
        self.put(glyph(n % 16));
    }

    pub fn put_hex16(&mut self, n: u16)
        ensures { self.new ≡ put_all self.old (hex16 n) }
    {
        // All four at once: an answer can have thousands of them.
        let digits = [
            glyph((n / 256 / 16) as u8),
            glyph((n / 256 % 16) as u8),
            glyph((n % 256 / 16) as u8),
            glyph((n % 256 % 16) as u8),
        ];
        self.put_all(&digits);
    }

    pub fn put_hex32(&mut self, n: u32)
        ensures { self.new ≡ put_all self.old (hex32 n) }
    {
        self.put_hex16((n / 65_536) as u16);
        self.put_hex16((n % 65_536) as u16);
    }

    pub fn put_hex64(&mut self, n: u64)
        ensures { self.new ≡ put_all self.old (hex64 n) }
    {
        self.put_hex32((n / 4_294_967_296) as u32);
        self.put_hex32((n % 4_294_967_296) as u32);
    }

    // Two digits for each byte.
    pub fn put_hex(&mut self, bytes: &[u8])
        ensures { self.new ≡ put_all self.old (hex_of bytes.now) }
    {
        for &b in bytes {
            self.put_hex8(b);
        }
    }
}

#[cfg(test)]
mod tests {
    use super::*;

    // The lent bytes are the room.
    #[test]
    fn makes_room(rt: HostRuntime) {
        let mut room = [0u8; 2];
        let mut out = Out::new(&mut room);
        out.put_all(b"ok!");
        assert_eq!(rt; out.as_slice(), b"ok".as_slice());
    }
}
