// Each call on the cartridge and its directory, and its answer.
use crate::player::Session;
use board_chip::reset::ResetKind;
use board_state::State;
use call_blocks::writes as blocks;
use call_cpu::calls as board;
use call_load::Cartridge;
use image_write::sections::IMAGE_BYTES;
use image_write::writing::write_image;
use memory::layout::{Layout, MemoryLayout, Src};
use refusals::Refusal;
use replay_answers::answers;
use replay_calls::call::{IMAGE_ROOM, SAMPLES_ROOM};

// The length of the arena that a load is lent: none for a layout over a limit.
fn arena_len(sizes: MemoryLayout) -> usize {
    if sizes.within_limits() {
        Layout::new(sizes).arena_len()
    } else {
        0
    }
}

// The loaded cartridge's arena: so many of the lent bytes.
fn loaded(arena: &mut [u8], len: usize) -> &mut [u8] {
    let within = len.min(arena.len());
    &mut arena[..within]
}

// The calls that may change the state.
impl Session<'_> {
    // The state after a call; a refused one leaves it.
    fn keep(&mut self, after: Result<State, Refusal>) {
        if let Ok(state) = after {
            self.player.state = Some(state);
        }
    }

    // A refused load leaves the old cartridge, whose bytes lie in the same array.
    pub(crate) fn load(&mut self, cartridge: Cartridge) {
        let lent = arena_len(cartridge.sizes).min(self.arena.len());
        let given = call_blocks::calls::load(
            &mut self.player.directory,
            &mut self.arena[..lent],
            cartridge,
        );
        if let Ok(fresh) = given {
            self.player.state = Some(fresh);
            self.player.arena_len = lent;
        }
        answers::ok(&mut self.out, given.map(|_| ()));
    }

    pub(crate) fn read(&mut self, s: State, addr: u16) {
        let read = board::cpu_read(s, loaded(self.arena, self.player.arena_len), addr);
        self.keep(read.map(|r| r.state));
        answers::byte(&mut self.out, read.map(|r| r.byte));
    }

    pub(crate) fn write(&mut self, s: State, addr: u16, val: u8) {
        let written = blocks::cpu_write(
            &mut self.player.directory,
            s,
            loaded(self.arena, self.player.arena_len),
            addr,
            val,
        );
        self.keep(written.map(|w| w.state));
        answers::written(&mut self.out, written.map(|w| w.changed));
    }

    // Lends the first `room` of the samples.
    pub(crate) fn run(&mut self, s: State, clocks: u64, room: usize) {
        let mut samples = [0.0f32; SAMPLES_ROOM];
        let lent = room.min(SAMPLES_ROOM);
        let ran = call_run::run::run(s, clocks, &mut samples[..lent]);
        self.keep(ran.map(|r| r.state));
        answers::ran(&mut self.out, ran.map(|r| (r.rise, r.made)), &samples);
    }

    pub(crate) fn reset(&mut self, s: State, kind: ResetKind) {
        let after = call_reset::reset(s, u64::from(kind)); // by its number, as C calls it (N3)
        self.keep(after);
        answers::ok(&mut self.out, after.map(|_| ()));
    }

    pub(crate) fn restore_battery(&mut self, s: State) {
        let after = call_battery::restore_battery(s, loaded(self.arena, self.player.arena_len));
        self.keep(after);
        answers::ok(&mut self.out, after.map(|_| ()));
    }
}

// The calls that leave the state as it is.
impl Session<'_> {
    pub(crate) fn peek(&mut self, s: State, addr: u16) {
        answers::byte(
            &mut self.out,
            board::cpu_peek(s, loaded(self.arena, self.player.arena_len), addr),
        );
    }

    pub(crate) fn preview(&mut self, s: State, addr: u16, val: u8) {
        let changed = blocks::preview(
            &self.player.directory,
            s,
            loaded(self.arena, self.player.arena_len),
            addr,
            val,
        );
        answers::written(&mut self.out, changed);
    }

    pub(crate) fn chr_read(&mut self, s: State, addr: u16) {
        answers::byte(
            &mut self.out,
            call_regions::chr_read(s, loaded(self.arena, self.player.arena_len), addr),
        );
    }

    pub(crate) fn chr_write(&mut self, s: State, addr: u16, val: u8) {
        let answer = blocks::chr_write(
            &mut self.player.directory,
            s,
            loaded(self.arena, self.player.arena_len),
            addr,
            val,
        );
        answers::ok(&mut self.out, answer);
    }

    pub(crate) fn fill(&mut self, s: State, src: Src, bytes: &[u8]) {
        let answer = call_blocks::calls::fill(
            &mut self.player.directory,
            s,
            loaded(self.arena, self.player.arena_len),
            src,
            bytes,
        );
        answers::ok(&mut self.out, answer);
    }

    pub(crate) fn region_peek(&mut self, s: State, src: Src, offset: u64) {
        let byte = call_regions::region_peek(
            s,
            loaded(self.arena, self.player.arena_len),
            src,
            offset,
        );
        answers::byte(&mut self.out, byte);
    }

    pub(crate) fn region_write(&mut self, s: State, src: Src, offset: u64, val: u8) {
        let answer = blocks::region_write(
            &mut self.player.directory,
            s,
            loaded(self.arena, self.player.arena_len),
            src,
            offset,
            val,
        );
        answers::ok(&mut self.out, answer);
    }

    pub(crate) fn sram(&mut self, s: State) {
        let span = call_regions::sram(s);
        let pair = span.map(|p| (p.start as u64, p.len as u64));
        answers::pair(&mut self.out, pair);
    }

    pub(crate) fn sync_battery(&mut self, s: State) {
        let answer = call_blocks::calls::sync_battery(
            &mut self.player.directory,
            s,
            loaded(self.arena, self.player.arena_len),
        );
        answers::ok(&mut self.out, answer);
    }

    pub(crate) fn arena(&mut self) {
        answers::arena(&mut self.out, loaded(self.arena, self.player.arena_len));
    }

    // The image in so many bytes, or at its shorter length.
    pub(crate) fn image(&mut self, s: State, len: Option<usize>) {
        let mut room = [0u8; IMAGE_ROOM];
        let lent = len.unwrap_or(IMAGE_BYTES).min(IMAGE_ROOM);
        let answer = write_image(s, &mut room[..lent]);
        answers::image(&mut self.out, answer.map(|()| &room[..lent]));
    }
}

// The calls on the directory alone, which take neither state nor arena.
impl Session<'_> {
    pub(crate) fn register(&mut self, start: u16, len: u64, number: u32) {
        let answer = directory::register(&mut self.player.directory, start, len, number);
        answers::ok(&mut self.out, answer);
    }

    pub(crate) fn lookup(&mut self, start: u16) {
        let found = directory::lookup(&self.player.directory, start);
        replay_answers::blocks::found(&mut self.out, found);
    }
}
