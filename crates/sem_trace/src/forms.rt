// The places of a line, read from the left.
ghost use Rattle.std.specs.Prelude.{◌≡◌, ◌<◌, ◌≤◌, [], ◌∷◌, map, length, take, drop, decimal};
ghost use Rattle.std.specs.Prelude.{IfOk, OnOk};
ghost use Rattle.std.specs.Bool.{Decides};
ghost use Rattle.std.specs.Result.{result_err};
ghost use Rattle.sem_text.specs.Number.{number_value};
ghost use Rattle.sem_key.specs.declared.limits.TheConstants.{VPES, KERNELS};
ghost use Rattle.sem_msg.specs.declared.limits.TheConstants.{WINDOW as WINDOW_SPEC};
ghost use Rattle.sem_trace.specs.Forms.{place_fault, form_fault, node as node_spec};
ghost use Rattle.sem_trace.specs.Forms.{kernel_count as kernel_count_spec, window as window_spec};
ghost use Rattle.sem_trace.specs.Forms.Place.{Word};
ghost use Rattle.sem_trace.specs.Declarations.{number_at};
ghost use Rattle.sem_trace.specs.Places.{Reads, AreNumbers, number_place, IsWithin, told_fault};
ghost use Rattle.sem_trace.specs.Places.{CanStand, CanStandIn, AreOf};
ghost use Rattle.sem_trace.specs.Slots.{slot_place};

use crate::cursor::Words;
use crate::fault::Cause;
use crate::limits::{most_kernels, most_vpes};
use crate::slots::Slot;
use sem_msg::{ENDPOINTS, WINDOW};
use sem_text::{NumberFault, number};

/// Which numbers can stand in a place.
#[derive(Clone, Copy, Debug)]
pub struct Range {
    pub least: u64,
    pub most: u64,
}

/// A selector, or the name of a service, or an index.
pub const BYTE: Range = Range {
    least: 0,
    most: 255,
};

/// An endpoint.
pub const ENDPOINT: Range = Range {
    least: 0,
    most: ENDPOINTS as u64 - 1,
};

/// Rights, as a mask.
pub const RIGHTS: Range = Range { least: 0, most: 7 };

/// Slots, or credits.
pub const SLOTS: Range = Range { least: 1, most: 64 };

/// Any other number.
pub const WORD: Range = Range {
    least: 0,
    most: 4294967295,
};

/// The code of a reply.
pub const CODE: Range = Range { least: 0, most: 15 };

/// The most numbers side by side in a place.
const MOST_NUMBERS: usize = 5;

/// A PE, or a VPE, in a text of the version.
pub fn node(version: u8) -> Range
    ensures range { number_place result ≡ node_spec version }
    ensures most { result.most < VPES }
{
    Range {
        least: 0,
        most: u64::from(most_vpes(version)) - 1,
    }
}

/// How many kernels there are, in a text of the version.
pub fn kernel_count(version: u8) -> Range
    ensures range { number_place result ≡ kernel_count_spec version }
    ensures most { result.most ≤ KERNELS }
{
    Range {
        least: 1,
        most: u64::from(most_kernels(version)),
    }
}

/// How many messages a link holds, in a text of the version.
pub fn window(version: u8) -> Range
    ensures range { number_place result ≡ window_spec version }
    ensures most { result.most ≤ WINDOW_SPEC }
{
    if version == 1 {
        Range { least: 4, most: 4 }
    } else {
        Range {
            least: 1,
            most: u64::from(WINDOW),
        }
    }
}

// The number of the word, if it can stand in that place.
pub(crate) fn number_in(word: &[u8], range: Range) -> Result<u64, Cause>
    ensures fault { place_fault (number_place range) word.now ≡ result_err result }
    ensures value { IfOk result (λ value. value ≡ number_value word.now) }
    ensures within { IfOk result (λ value. IsWithin range value) }
    ensures printed { IfOk result (λ value. word.now ≡ decimal value) }
{
    match number(word, range.most) {
        Ok(value) if value >= range.least => Ok(value),
        Ok(_) | Err(NumberFault::Range) => Err(Cause::OutOfRange),
        Err(NumberFault::Bad) => Err(Cause::BadNumber),
    }
}

/// Whether the word is that one. Takes no memory.
// Words are short, and most differ from the name in their length or at the first byte.
#[inline]
pub fn is(word: &[u8], name: &[u8]) -> bool
    ensures { Decides result (word.now ≡ name.now) }
{
    if word.len() != name.len() {
        return false;
    }
    for (place, byte) in word.iter().enumerate() {
        if *byte != name[place] {
            return false;
        }
    }
    true
}

impl Words<'_> {
    /// Checks that the next word is that one.
    pub fn fixed(&mut self, name: &[u8]) -> Result<(), Cause>
        ensures { Reads (Word (name.now ∷ []) ∷ []) (λ _. name.now ∷ []) self.old self.new result }
    {
        let word = self.word()?;
        if word == name {
            Ok(())
        } else {
            Err(Cause::UnknownWord)
        }
    }

    /// The next word, a number of that range.
    #[inline]
    pub fn number(&mut self, range: Range) -> Result<u64, Cause>
        ensures reads { Reads (number_place range ∷ []) (λ n. decimal n ∷ []) self.old self.new
            result }
        ensures value { IfOk result (λ n. n ≡ number_at self.old 0) }
        ensures within { IfOk result (IsWithin range) }
    {
        let word = self.word()?;
        number_in(word, range)
    }

    /// The next words, numbers of those ranges, 5 at most.
    pub fn numbers(&mut self, ranges: &[Range]) -> Result<[u64; MOST_NUMBERS], Cause>
        requires { length ranges.now ≤ 5 }
        ensures reads { Reads (map number_place ranges.now)
            (λ ns. map decimal (take (length ranges.now) ns)) self.old self.new result }
        ensures numbers { IfOk result (AreNumbers ranges.now self.old) }
        ensures behind { OnOk result (self.new ≡ drop (length ranges.now) self.old) }
    {
        let mut values = [0; MOST_NUMBERS];
        for (place, range) in ranges.iter().enumerate() {
            values[place] = self.number(*range)?;
        }
        Ok(values)
    }

    /// The next word, the number of that slot, in a text of the version with that many kernels.
    pub fn slot_number(&mut self, slot: Slot, version: u8, kernels: u32) -> Result<u64, Cause>
        ensures reads { Reads (slot_place version kernels slot ∷ []) (λ n. decimal n ∷ [])
            self.old self.new result }
        ensures value { IfOk result (λ n. n ≡ number_at self.old 0) }
        ensures within { IfOk result (CanStand (slot_place version kernels slot)) }
    {
        self.number(slot.range(version, kernels))
    }

    /// The next words, numbers of those slots, 5 at most, in a text of the version with that many
    /// kernels.
    #[inline]
    pub fn slot_numbers(
        &mut self,
        slots: &[Slot],
        version: u8,
        kernels: u32,
    ) -> Result<[u64; MOST_NUMBERS], Cause>
        requires { length slots.now ≤ 5 }
        ensures reads { Reads (map (slot_place version kernels) slots.now)
            (λ ns. map decimal (take (length slots.now) ns)) self.old self.new result }
        ensures within { IfOk result (CanStandIn (map (slot_place version kernels) slots.now)) }
        ensures values { IfOk result (AreOf (length slots.now) self.old) }
        ensures behind { OnOk result (self.new ≡ drop (length slots.now) self.old) }
    {
        let mut values = [0; MOST_NUMBERS];
        for (place, slot) in slots.iter().enumerate() {
            values[place] = self.slot_number(*slot, version, kernels)?;
        }
        Ok(values)
    }

    /// The last words, numbers of those ranges, 5 at most.
    pub fn last_numbers(&mut self, ranges: &[Range]) -> Result<[u64; MOST_NUMBERS], Cause>
        requires { length ranges.now ≤ 5 }
        ensures fault { form_fault (map number_place ranges.now) self.old
            ≡ told_fault result self.new }
        ensures numbers { IfOk result (AreNumbers ranges.now self.old) }
    {
        let values = self.numbers(ranges)?;
        self.no_more()?;
        Ok(values)
    }
}
