// The pieces of an answer line.
use memory::changes::Changed;
use refusals::Refusal;
use replay_text::adler::adler32;
use replay_text::out::Out;

// Ends an answer line.
pub fn end_line(out: &mut Out) {
    out.put(b'\n');
}

pub fn error(out: &mut Out, wrong: &[u8]) {
    out.put_all(b"error: ");
    out.put_all(wrong);
    end_line(out);
}

pub fn spaced(out: &mut Out, n: u64) {
    out.put(b' ');
    out.put_decimal(n);
}

pub fn spaced_hex32(out: &mut Out, n: u32) {
    out.put(b' ');
    out.put(b'$');
    out.put_hex32(n);
}

// Where a call is accepted `ok`, and what `accepted` puts of what it gave; else the refusal's number.
pub fn answer<T: Drop, F: FnOnce(&mut Out, T) + Drop>(
    out: &mut Out,
    given: Result<T, Refusal>,
    accepted: F,
)
    requires { F.IsAlwaysCallable accepted }
{
    match given {
        Ok(value) => {
            out.put_all(b"ok");
            accepted(out, value);
        }
        Err(refusal) => {
            out.put_all(b"refused");
            spaced(out, u64::from(u8::from(refusal)));
        }
    }
    end_line(out);
}

pub fn ok(out: &mut Out, given: Result<(), Refusal>) {
    answer(out, given, |_, ()| {});
}

pub fn byte(out: &mut Out, given: Result<u8, Refusal>) {
    answer(out, given, |out, value| {
        out.put_all(b" $");
        out.put_hex8(value);
    });
}

// Two numbers: what `sram` answers (M13).
pub fn pair(out: &mut Out, given: Result<(u64, u64), Refusal>) {
    answer(out, given, |out, (first, second)| {
        spaced(out, first);
        spaced(out, second);
    });
}

// L15: how many entries of a page table changed, and the lowest of them.
fn counts(out: &mut Out, count: u32, lowest: u32) {
    spaced(out, u64::from(count));
    spaced(out, u64::from(lowest));
}

pub fn written(out: &mut Out, given: Result<Changed, Refusal>) {
    answer(out, given, |out, Changed { prg, chr }| {
        out.put_all(b" $");
        out.put_hex64(prg.mask);
        counts(out, prg.count, prg.lowest);
        out.put_all(b" $");
        out.put_hex16(chr.mask);
        counts(out, chr.count, chr.lowest);
    });
}

// A float's bits. A run makes no NaN, whose bits are not defined.
fn bits(x: f32) -> u32 {
    if x.is_nan() { 0x7FC0_0000 } else { x.to_bits() }
}

// A run: how many samples, the clock of the rise, and the bits of so many of the samples.
pub fn ran(out: &mut Out, given: Result<(u32, usize), Refusal>, samples: &[f32]) {
    answer(out, given, |out, (rise, made)| {
        spaced(out, made as u64);
        spaced(out, u64::from(rise));
        // So many of all: that a slice of them is there would have to be shown where the run was called.
        for &x in samples.iter().take(made) {
            spaced_hex32(out, bits(x));
        }
    });
}

// The arena's length and its sum.
pub fn arena(out: &mut Out, bytes: &[u8]) {
    out.put_all(b"ok");
    spaced(out, bytes.len() as u64);
    spaced_hex32(out, adler32(bytes));
    end_line(out);
}

// An image's bytes, two digits each.
pub fn image(out: &mut Out, given: Result<&[u8], Refusal>) {
    answer(out, given, |out, bytes| {
        out.put(b' ');
        out.put_hex(bytes);
    });
}
