// The call of a line, from its name on.
ghost use Rattle.std.specs.Prelude.{◌≡◌, ℕ, Some, map, IfOk, IfErr};
ghost use Rattle.sem_trace.specs.Forms.{calls, place_fault};
ghost use Rattle.sem_trace.specs.Forms.Place.{Word};
ghost use Rattle.sem_trace.specs.CallForms.{IsRow, call_spelling, call_with};
ghost use Rattle.sem_trace.specs.Places.{CanStandIn};
ghost use Rattle.sem_trace.specs.Readers.{ReadsCall};

use crate::call_forms::{CallForm, CallKind};
use crate::cursor::Words;
use crate::fault::Cause;
use crate::forms::is;
use sem_msg::Call;

impl Words<'_> {
    /// The next words, a call of a text of the version, from its name on.
    pub fn call(&mut self, version: u8) -> Result<Call, Cause>
        ensures { ReadsCall version self.old self.new result }
    {
        let name = self.word()?;
        let form = named(name)?;
        let numbers = self.slot_numbers(form.slots, version, 1)?;
        Ok(call_of(form.kind, numbers))
    }
}

// The form of the calls of that name.
#[inline]
fn named(name: &[u8]) -> Result<&'static CallForm, Cause>
    ensures name { IfOk result (λ form. name.now ≡ form.now.name.now) }
    ensures row { IfOk result (λ form. IsRow form.now) }
    ensures fault { IfErr result (λ cause. (version : ℕ) →
        place_fault (Word (map (λ row. row.0) (calls version))) name.now ≡ Some cause) }
{
    let forms = CallForm::all();
    for form in forms {
        if is(name, form.name) {
            return Ok(form);
        }
    }
    Err(Cause::UnknownWord)
}

// The call with these fields, which are the first of the numbers, in this order.
macro_rules! call {
    ($numbers:ident => $kind:ident { $($field:ident: $number:ty),+ }) => {{
        let [$($field),+, ..] = $numbers;
        Call::$kind {
            $($field: $field as $number),+
        }
    }};
}

// The call of that kind with these numbers.
#[inline]
#[tactic(auto, using(crate::proofs::Nodes::few_vpes), unfolding(crate::specs::Forms::calls))]
fn call_of(kind: CallKind, numbers: [u64; 5]) -> Call
    requires { (version : ℕ) × CanStandIn (call_spelling version kind).1 numbers }
    ensures { result ≡ call_with kind numbers }
{
    match kind {
        CallKind::Derive => {
            call!(numbers => Derive { src: u8, dst: u8, off: u32, len: u32, rights: u8 })
        }
        CallKind::Gate => call!(numbers => Gate { src: u8, dst: u8, label: u32, credits: u8 }),
        CallKind::Obtain => call!(numbers => Obtain { dst: u8, vpe: u16, src: u8 }),
        CallKind::Delegate => call!(numbers => Delegate { src: u8, vpe: u16, dst: u8 }),
        CallKind::OpenSession => call!(numbers => OpenSession { dst: u8, name: u8 }),
        CallKind::AskOffer => call!(numbers => AskOffer { dst: u8, session: u8, index: u8 }),
        CallKind::Revoke => call!(numbers => Revoke { src: u8 }),
        CallKind::Bind => call!(numbers => Bind { ep: u8, src: u8 }),
        CallKind::Read => call!(numbers => Read { ep: u8, off: u32, len: u32 }),
        CallKind::Write => call!(numbers => Write { ep: u8, off: u32, len: u32 }),
        CallKind::Send => call!(numbers => Send { ep: u8, len: u32 }),
        CallKind::Credit => call!(numbers => Credit { ep: u8 }),
        CallKind::Exit => Call::Exit,
        CallKind::Clear => call!(numbers => Clear { src: u8 }),
    }
}
