use sem_key::Key;
use sem_mem::Account;
use sem_query::Sighting;

/// A question about a report, with what was found for it while the report is checked.
#[derive(Drop)]
pub enum Finding {
    /// Whether it is the report of a complete schedule; this needs nothing else.
    Nothing,
    /// What memory holds.
    Accounted(Account),
    /// Where a key is; the key is followed.
    Sighted(Sighting),
    /// The line of a key.
    Line(Key),
    /// Why that entry denies a call.
    Denial(u64),
}
