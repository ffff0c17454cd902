// Which messages are strays.
ghost use Rattle.std.specs.Prelude.{◌≡◌, ℕ, true};
ghost use Rattle.sem_msg.specs.ParkedStates.{is_delegate_wait, is_obtain_wait};
ghost use Rattle.sem_msg.specs.declared.message.Message.TheVariants.{DelegatePrepared, DelegateReq};
ghost use Rattle.sem_msg.specs.declared.message.Message.TheVariants.{ObtainOk, ObtainReq};
ghost use Rattle.sem_machine.specs.Handles.{is_here, lives_without, is_stray as is_stray_spec};
ghost use Rattle.sem_kernel.specs.KernelStores.{side_of, AreStoresOf};

use crate::stores::Stores;
use sem_key::{Key, Object, Place};
use sem_msg::{Message, Setup, Target};

impl Stores {
    // Whether the message is a stray: it names a VPE that is not declared, or is for another
    // kernel, or no call waits for it.
    pub fn is_stray(&self, setup: &Setup, kernel: u32, message: &Message) -> bool
        requires { AreStoresOf setup.now kernel self.now }
        ensures { result ≡ is_stray_spec setup.now kernel (side_of self.now) message.now }
    {
        match message {
            Message::ObtainReq { place, target } => {
                self.is_stray_obtain(setup, kernel, place, target)
            }
            Message::ObtainOk {
                parent,
                key,
                object,
            } => self.is_stray_grant(setup, kernel, parent, key, object),
            Message::ObtainNo { place, .. } => {
                !setup.is_declared_at(place.pe, place.vpe)
                    || setup.kernel_of(place.vpe) != kernel
                    || self.is_unasked(setup, kernel, place.vpe, place.number)
            }
            Message::DelegateReq {
                parent,
                object,
                vpe,
                ..
            } => self.is_stray_delegate(setup, kernel, parent, object, *vpe),
            Message::DelegatePrepared { parent, key } => {
                self.is_stray_acceptance(setup, kernel, parent, key)
            }
            Message::DelegateNo { parent, .. } => {
                !setup.is_key_declared(parent)
                    || setup.kernel_of(parent.vpe) != kernel
                    || self.is_unoffered(setup, kernel, parent)
            }
            Message::Ack { key, .. } => {
                !setup.is_key_declared(key)
                    || setup.kernel_of(key.vpe) != kernel
                    || self.pendings.get(*key).is_none()
            }
            Message::Orphan { .. }
            | Message::RevokeReq { .. }
            | Message::RevokeDone { .. }
            | Message::Unlink { .. } => false,
        }
    }

    // Whether the request for a capability is a stray.
    fn is_stray_obtain(&self, setup: &Setup, kernel: u32, place: &Place, target: &Target) -> bool
        requires { AreStoresOf setup.now kernel self.now }
        ensures { result ≡ is_stray_spec setup.now kernel (side_of self.now)
            (ObtainReq place.now target.now) }
    {
        !setup.is_declared_at(place.pe, place.vpe)
            || !setup.is_target_declared(target)
            || setup.kernel_of(target.vpe()) != kernel
            || setup.kernel_of(place.vpe) == kernel
    }

    // Whether the grant of a key is a stray.
    fn is_stray_grant(
        &self,
        setup: &Setup,
        kernel: u32,
        parent: &Key,
        key: &Key,
        object: &Object,
    ) -> bool
        requires { AreStoresOf setup.now kernel self.now }
        ensures { result ≡ is_stray_spec setup.now kernel (side_of self.now)
            (ObtainOk parent.now key.now object.now) }
    {
        !setup.is_key_declared(parent)
            || !setup.is_key_declared(key)
            || !setup.is_object_declared(object)
            || setup.kernel_of(key.vpe) != kernel
            || setup.kernel_of(parent.vpe) == kernel
            || self.is_unasked(setup, kernel, key.vpe, key.number)
    }

    // Whether the offer to a VPE is a stray, at whichever selector its child is to stand.
    fn is_stray_delegate(
        &self,
        setup: &Setup,
        kernel: u32,
        parent: &Key,
        object: &Object,
        vpe: u16,
    ) -> bool
        requires { AreStoresOf setup.now kernel self.now }
        ensures { (sel : ℕ) → result ≡ is_stray_spec setup.now kernel (side_of self.now)
            (DelegateReq parent.now object.now vpe sel) }
    {
        !setup.is_key_declared(parent)
            || !setup.is_object_declared(object)
            || setup.kernel_of(vpe) != kernel
            || setup.kernel_of(parent.vpe) == kernel
    }

    // Whether the acceptance of an offer is a stray.
    fn is_stray_acceptance(&self, setup: &Setup, kernel: u32, parent: &Key, key: &Key) -> bool
        requires { AreStoresOf setup.now kernel self.now }
        ensures { result ≡ is_stray_spec setup.now kernel (side_of self.now)
            (DelegatePrepared parent.now key.now) }
    {
        !setup.is_key_declared(parent)
            || !setup.is_key_declared(key)
            || setup.kernel_of(parent.vpe) != kernel
            || setup.kernel_of(key.vpe) == kernel
            || self.is_unoffered(setup, kernel, parent)
    }

    // Whether the VPE, one of this kernel, lives and no asking call of it waits with that number.
    fn is_unasked(&self, setup: &Setup, kernel: u32, vpe: u16, number: u16) -> bool
        requires stores { AreStoresOf setup.now kernel self.now }
        requires here { is_here setup.now kernel vpe ≡ true }
        ensures { result ≡ lives_without (is_obtain_wait number) (side_of self.now) vpe }
    {
        self.vpes.alive(vpe) && !self.park.is_obtain_wait(vpe, number)
    }

    // Whether the VPE of the capability, one of this kernel, lives and no delegate of it waits.
    fn is_unoffered(&self, setup: &Setup, kernel: u32, parent: &Key) -> bool
        requires stores { AreStoresOf setup.now kernel self.now }
        requires here { is_here setup.now kernel parent.now.vpe ≡ true }
        ensures { result ≡ lives_without (is_delegate_wait parent.now)
            (side_of self.now) parent.now.vpe }
    {
        self.vpes.alive(parent.vpe) && !self.park.is_delegate_wait(*parent)
    }
}
