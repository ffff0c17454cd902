ghost use Rattle.std.specs.Prelude.{◌≡◌, ◌<◌, true};
ghost use Rattle.sem_key.specs.declared.limits.TheConstants.{NUMBERS};
ghost use Rattle.sem_msg.specs.Lookups.{is_declared};
ghost use Rattle.sem_msg.specs.VpeRows.{drawn, row};
ghost use Rattle.sem_vpe.specs.VpeTable.{IsOurs};
ghost use Rattle.sem_machine.specs.Sides.{no_side};
ghost use Rattle.sem_machine.specs.Calls.{next_key};
ghost use Rattle.sem_machine.specs.Stores.{with_vpes};

use sem_key::{Key, Kind};
use sem_msg::Setup;
use sem_vpe::Vpes;

// The VPE draws its next key, of that kind.
pub fn draw_key(setup: &Setup, vpe: u16, kind: Kind, vpes: &mut Vpes) -> Key
    requires declared { is_declared setup.now vpe ≡ true }
    requires ours { IsOurs vpes.old vpe }
    requires number { (row vpes.old.rows vpe).next_number < NUMBERS }
    ensures key { result ≡ next_key setup.now (with_vpes vpes.old.rows no_side) vpe kind }
    ensures drawn { vpes.new ≡ record vpes.old { rows = drawn vpe vpes.old.rows } }
{
    let pe = setup.pe_of(vpe);
    let Ok(number) = vpes.draw(vpe) else {
        unreachable!()
    };
    Key {
        pe,
        vpe,
        kind,
        number,
    }
}
