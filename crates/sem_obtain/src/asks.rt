ghost use Rattle.std.specs.Prelude.{◌≡◌, true, None};
ghost use Rattle.sem_msg.specs.declared.message.Message.TheVariants.{ObtainReq};
ghost use Rattle.sem_msg.specs.Lookups.{is_declared};
ghost use Rattle.sem_msg.specs.Message.{Fits, IsValidTarget};
ghost use Rattle.sem_msg.specs.Outboxes.{HasSent};
ghost use Rattle.sem_vpe.specs.Telling.{CanAsk};
ghost use Rattle.sem_machine.specs.Asks.{target_vpe};
ghost use Rattle.sem_machine.specs.Sides.{Side, no_side};
ghost use Rattle.sem_machine.specs.Steps.{first_code, unshown};
ghost use Rattle.sem_machine.specs.Calls.{ask_made, destination_tests};
ghost use Rattle.sem_machine.specs.Stores.{with_vpes, with_vpes_parks_outs};

use sem_key::Place;
use sem_msg::{Ask, Message, Outboxes, Parked, Setup, Target};
use sem_park::Park;
use sem_vpe::Vpes;

/// What a VPE asks for, and the selector at which it is to stand.
#[derive(Clone, Copy, Debug)]
pub(crate) struct Wish {
    pub target: Target,
    pub dst: u8,
}

// The message that asks for a capability.
fn request(place: Place, target: Target) -> Message
    requires { IsValidTarget target }
    ensures message { result ≡ ObtainReq place target }
    ensures fits { Fits result }
{
    Message::ObtainReq { place, target }
}

// The VPE draws a number, promises the destination and waits; the VPE of the target gets the ask.
pub(crate) fn make_ask(
    setup: &Setup,
    kernel: u32,
    vpe: u16,
    wish: Wish,
    vpes: &mut Vpes,
    park: &mut Park,
    outs: &mut Outboxes,
)
    requires can { CanAsk setup.now kernel vpe vpes.old outs.old }
    requires asked { is_declared setup.now (target_vpe wish.target) ≡ true }
    requires target { IsValidTarget wish.target }
    requires free { first_code (destination_tests (with_vpes vpes.old.rows no_side) vpe wish.dst)
        ≡ None }
    ensures row { (s : Side) →
        unshown (with_vpes_parks_outs vpes.new.rows park.new outs.new.boxes s)
        ≡ ask_made setup.now kernel vpe wish.dst wish.target
        (with_vpes_parks_outs vpes.old.rows park.old outs.old.boxes s) }
    ensures ours { vpes.new.ours ≡ vpes.old.ours }
    ensures left { HasSent setup.now outs.old outs.new }
{
    let Wish { target, dst } = wish;
    let pe = setup.pe_of(vpe);
    let Ok(number) = vpes.draw(vpe) else {
        unreachable!()
    };
    let Ok(()) = vpes.promise(vpe, dst) else {
        unreachable!()
    };
    park.park(vpe, Parked::ObtainWait { number, sel: dst });
    let place = Place { pe, vpe, number };
    let other = target.vpe();
    let owner = setup.declared_kernel(other);
    if owner == kernel {
        vpes.ask(other, Ask::Obtain { place, target });
    } else {
        outs.send(owner, request(place, target));
    }
}
