// What lasts from line to line, and the answer to a line.
use board_state::State;
use replay_answers::answers;
use replay_calls::call::{Call, parse_call};
use replay_calls::name::{Name, name_of};
use replay_text::out::Out;
use replay_text::words::word;

// What lasts beside the lent bytes.
#[derive(Clone, Copy)]
pub struct Player {
    // None before the first accepted load.
    pub(crate) state: Option<State>,
    // How much of the arena's bytes the cartridge has.
    pub(crate) arena_len: usize,
    // The blocks of the log.
    pub(crate) directory: [u64; 256],
}

impl Player {
    pub fn new() -> Player {
        Player {
            state: None,
            arena_len: 0,
            directory: [0; 256],
        }
    }
}

// A player with the bytes that it is lent.
#[derive(Drop)]
pub struct Session<'a> {
    pub(crate) player: Player,
    // Room for the largest arena; the loaded cartridge's is at its start.
    pub(crate) arena: &'a mut [u8],
    // The answers that are not written yet.
    pub out: Out<'a>,
}

impl<'a> Session<'a> {
    pub fn new(player: Player, arena: &'a mut [u8], out: Out<'a>) -> Session<'a> {
        Session { player, arena, out }
    }

    // A full line was too long. The bytes that a `fill` names are put into `bytes`.
    pub fn answer(&mut self, line: &Out, bytes: &mut [u8]) {
        if line.is_full() {
            return self.error(b"the line has more than 1048700 bytes");
        }
        match line.as_slice() {
            [] | [b'#', ..] => {}
            words => self.answer_words(words, bytes),
        }
    }

    // A line that is neither empty nor a comment.
    fn answer_words(&mut self, line: &[u8], bytes: &mut [u8]) {
        let name = name_of(word(line, 0));
        match name.and_then(|name| parse_call(name, line, bytes)) {
            Some(call) => self.answer_call(call),
            None => self.malformed(name),
        }
    }

    fn malformed(&mut self, name: Option<Name>) {
        let usage = name.map_or("one of the calls' names", |name| name.usage());
        self.out.put_all(b"error: expected ");
        self.out.put_all(usage.as_bytes());
        answers::end_line(&mut self.out);
    }

    fn error(&mut self, wrong: &[u8]) {
        answers::error(&mut self.out, wrong);
    }

    // A log has a directory from its first cartridge on.
    fn answer_call(&mut self, call: Call) {
        match (call, self.player.state) {
            (Call::Load(cartridge), _) => self.load(cartridge),
            (_, None) => self.error(b"no cartridge is loaded"),
            (Call::Read(addr), Some(s)) => self.read(s, addr),
            (Call::Peek(addr), Some(s)) => self.peek(s, addr),
            (Call::Write(addr, val), Some(s)) => self.write(s, addr, val),
            (Call::Preview(addr, val), Some(s)) => self.preview(s, addr, val),
            (Call::ChrRead(addr), Some(s)) => self.chr_read(s, addr),
            (Call::ChrWrite(addr, val), Some(s)) => self.chr_write(s, addr, val),
            (Call::Fill(src, bytes), Some(s)) => self.fill(s, src, bytes),
            (Call::RegionPeek(src, offset), Some(s)) => self.region_peek(s, src, offset),
            (Call::RegionWrite(src, offset, val), Some(s)) => self.region_write(
                s, src, offset, val,
            ),
            (Call::Sram, Some(s)) => self.sram(s),
            (Call::Run(clocks, room), Some(s)) => self.run(s, clocks, room),
            (Call::Reset(kind), Some(s)) => self.reset(s, kind),
            (Call::SyncBattery, Some(s)) => self.sync_battery(s),
            (Call::RestoreBattery, Some(s)) => self.restore_battery(s),
            (Call::Image(len), Some(s)) => self.image(s, len),
            (Call::Arena, Some(_)) => self.arena(),
            (Call::Register(start, len, number), Some(_)) => self.register(start, len, number),
            (Call::Lookup(start), Some(_)) => self.lookup(start),
            (Call::Directory, Some(_)) => replay_answers::blocks::directory(
                &mut self.out,
                &self.player.directory,
            ),
        }
    }
}
