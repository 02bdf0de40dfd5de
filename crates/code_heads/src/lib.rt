// The head of a code item, and how far its tries are from it.
// `s` ends where the data section ends, `item` is the place of the code item.
#![tactic(auto)]

ghost use Rattle.std.specs.Prelude.{◌≡◌};
ghost use Rattle.code_heads.specs.Heads.{code_head_at, padding, body_size};
ghost use Rattle.code_heads.specs.Answers.{code_head_outcome};

use frame::Frame;
use refusal::Refusal;

// The head of a code item, in stored order.
#[derive(Clone, Copy)]
pub struct CodeHead {
    pub registers: u16,
    pub ins: u16,
    pub outs: u16,
    pub tries: u16,
    pub debug: u32,
    pub units: u32,
}

// The head: 9 where a field is missing, 8 for the debug offset before what is stored after it.
pub fn head_at(s: &[u8], frame: Frame, item: usize) -> Result<CodeHead, Refusal>
    ensures { code_head_outcome result ≡ code_head_at s.now frame item }
{
    let order = frame.order;
    if s.len() < item {
        return Err(refusal::runs_past(item));
    }
    if s.len() - item < 12 {
        return Err(refusal::runs_past(item));
    }
    let debug = word::u32_at(s, item + 8, order);
    if frame::is_allowed_or_absent(frame.start, s.len(), false, debug as usize) {
        if s.len() - item < 16 {
            return Err(refusal::runs_past(item));
        }
        return Ok(CodeHead {
            registers: word::u16_at(s, item, order),
            ins: word::u16_at(s, item + 2, order),
            outs: word::u16_at(s, item + 4, order),
            tries: word::u16_at(s, item + 6, order),
            debug,
            units: word::u32_at(s, item + 12, order),
        });
    }
    Err(refusal::wrong_offset(item))
}

// Two bytes of padding after an odd unit count, only if there are tries.
fn padding_of(tries: u16, units: u32) -> u8
    ensures { result ≡ padding tries units }
{
    if 0 < tries {
        if units % 2 == 1 {
            return 2;
        }
        return 0;
    }
    0
}

// How far from the item the tries are.
pub fn body_size(h: CodeHead) -> usize
    ensures { result ≡ body_size h }
{
    16 + 2 * h.units as usize + padding_of(h.tries, h.units) as usize
}
