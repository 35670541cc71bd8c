// A host's look before a write, on a state (L18): the word that the write would answer (H6).
#![tactic(auto)]

ghost use Rattle.std.specs.Prelude.{◌≡◌, []};
ghost use Rattle.refusals.specs.Refusal.{word_of};
ghost use Rattle.host_state.specs.HostState.{write_on};

use call_preview::preview_known;
use call_refusals::known::KnownState;
use host_state::changes_word;
use refusals::Refusal;
use refusals::word::Word;

pub fn preview_on(s: KnownState, arena: &[u8], addr: u16, val: u8) -> Result<Word, Refusal>
    ensures { word_of result ≡ (write_on s.state [] arena.now addr val).word }
{
    Ok(changes_word(preview_known(s, arena, addr, val)?))
}
