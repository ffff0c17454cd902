ghost use Rattle.std.specs.Prelude.{◌≡◌, ℕ, List, None, length, slice_index, ◌<◌, ◌↔◌};
ghost use Rattle.sem_msg.specs.declared.message.Message.{Message};
ghost use Rattle.sem_msg.specs.Message.{Fits};
ghost use Rattle.sem_wire.specs.Records.{record_of, rows_in};
ghost use Rattle.sem_wire.specs.Grammar.{wire_fault};
ghost use Rattle.sem_wire.specs.MessageOfBytes.{message_of};

/// Every fitting message has exactly one record, of 64 bytes, and every record has exactly one
/// message. The grammar finds nothing wrong with 64 bytes exactly if they are the record of a
/// fitting message.
pub fn a_message_has_one_record()
    ensures length { (m : Message) → length (record_of m) ≡ 64 }
    ensures again { (m : Message) → Fits m → message_of (record_of m) ≡ m }
    ensures one { (m n : Message) → Fits m → Fits n → record_of m ≡ record_of n → m ≡ n }
    ensures grammar { (bytes : List ℕ) → length bytes ≡ 64 → ((i : ℕ) → slice_index bytes i < 256) →
        ((wire_fault (rows_in bytes) ≡ None) ↔ ((m : Message) × Fits m × (record_of m ≡ bytes))) }
{}
