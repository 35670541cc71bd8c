// Many reads, as a game makes them that keeps data in the battery-backed sound RAM.
ghost use Rattle.std.specs.Prelude.{◌≡◌, length};
ghost use Rattle.sound_port.specs.Block.{reads, after_reads};

use crate::lent::Port;

impl Port {
    // Fills the lent bytes with one read each.
    pub fn read_block(&mut self, out: &mut [u8])
        ensures out_after { out.new ≡ reads (length out.old) self.old }
        ensures port_after { self.new ≡ after_reads (length out.old) self.old }
    {
        for byte in out.iter_mut() {
            *byte = self.read();
        }
    }
}
