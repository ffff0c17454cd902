// The calls of the words of a seed.
ghost use Rattle.std.specs.Prelude.{◌≡◌, ◌≤◌, IfOk, OnOk};
ghost use Rattle.rand_pcg.specs.Lcg.{advance};
ghost use Rattle.rand_pcg.specs.Pcg.{multiplier_64};
ghost use Rattle.sem_gen.specs.Drawn.{drawn_calls};
ghost use Rattle.sem_gen.specs.Generated.{call_of as call_of_spec};

use rand_core::utils::NextWord;
use rand_pcg::Lcg64Xsh32;
use sem_key::{OutOfMemory, RIGHTS};
use sem_msg::{Call, Calls};
use std::alloc::Global;

/// The calls of the next words, made by one of that many VPEs.
pub fn draw_calls(
    alloc: Global,
    words: &mut Lcg64Xsh32,
    vpes: u32,
    calls: u32,
) -> Result<Calls, OutOfMemory>
    requires some { 1 ≤ vpes }
    requires few { vpes ≤ 128 }
    ensures calls { IfOk result (λ list. list ≡ drawn_calls words.old vpes 0 calls) }
    ensures words { OnOk result (words.new ≡ advance 64 multiplier_64 calls words.old) }
{
    let mut list = Calls::new(alloc);
    for _place in 0..calls {
        list.push(call_of(words.next_word(), vpes))?;
    }
    Ok(list)
}

// The call of a word, made by one of that many VPEs.
fn call_of(word: u32, vpes: u32) -> Call
    requires some { 1 ≤ vpes }
    requires few { vpes ≤ 128 }
    ensures { result ≡ call_of_spec vpes word }
{
    let target = (1 + word / 4 % 15) as u8;
    let source = (word / 256 % 16) as u8;
    let upper = word / 65536;
    let vpe = (upper % vpes) as u16;
    match word % 4 {
        0 => Call::Derive {
            src: source,
            dst: target,
            off: 0,
            len: upper,
            rights: RIGHTS,
        },
        1 => Call::Obtain {
            dst: target,
            vpe,
            src: source,
        },
        2 => Call::Delegate {
            src: source,
            vpe,
            dst: target,
        },
        _ => Call::Revoke { src: target },
    }
}
