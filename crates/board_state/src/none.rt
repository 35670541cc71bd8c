// The state that N21 has for a refused load or image: one that no call accepts. No call gives it, since a refused one gives its `Refusal`
// alone. Each field is named, since a derived default says less.
ghost use Rattle.std.specs.Prelude.{◌≡◌};
ghost use Rattle.board_state.specs.None.{no_state};

use crate::State;
use board_chip::namco163::{Board, Namco163, Regs};
use memory::Memory;
use memory::layout::Layout;
use memory::mirroring::Mirroring;
use memory::page::Page;
use sound::audio::Audio;

#[tactic(auto, unfolding(crate::specs::None::no_state))]
fn no_chip() -> Namco163
    ensures { result ≡ no_state.chip }
{
    Namco163 {
        regs: Regs::new(),
        board: Board::Unknown,
        mapper_num: 0,
        submapper_num: 0,
        audio: Audio {
            current_channel: 0,
            ..Audio::new()
        },
        auto_detect_board: false,
        mirroring: Mirroring::Vertical,
        prg_ram_written_to: false,
        nt_bank_enable: [false; 12],
        chr_banks: [0; 12],
        prg_banks: [0; 3],
    }
}

#[tactic(auto, unfolding(crate::specs::None::no_state))]
pub fn no_state() -> State
    ensures { result ≡ no_state }
{
    let layout = Layout {
        prg_rom: 0,
        prg_ram: 0,
        battery_ext: 0,
        chr: 0,
        chr_writable: false,
        ciram: 0,
    };
    let memory = Memory {
        layout,
        battery_ext_len: 0,
        prg_pages: [Page::UNMAPPED; 64],
        chr_pages: [Page::UNMAPPED; 16],
    };
    State {
        chip: no_chip(),
        memory,
        f800_protects: false,
    }
}
