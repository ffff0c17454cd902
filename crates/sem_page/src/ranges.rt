// The entries that a page shows.
use sem_chart::Range;
use sem_draw::OutOfMemory;
use std::alloc::Global;

/// The most entries of a page, each with a forest.
pub const MOST_ENTRIES: u64 = 400;

/// The requested entries, out of that many, or why there is no page of them. If no last one is
/// named, it is the last one that the page has room for.
pub fn page_range(
    alloc: Global,
    entries: usize,
    from: Option<u64>,
    to: Option<u64>,
) -> Result<Result<Range, String>, OutOfMemory> {
    let count = entries as u64;
    let first = from.unwrap_or(0);
    let most = first.saturating_add(MOST_ENTRIES);
    let end = match to {
        Some(last) => last.saturating_add(1).min(count),
        None => most.min(count),
    };
    let text = match to {
        Some(last) if first > last => format!(in alloc; "--from {first} is behind --to {last}\n")?,
        _ if first > end => {
            format!(in alloc; "there are no such entries: the report has {count}, from 0 on\n")?
        }
        _ if end > most => format!(in alloc;
            "a page shows {MOST_ENTRIES} entries at most: name fewer by --from and --to\n"
        )?,
        _ => {
            return Ok(Ok(Range {
                from: first as usize,
                to: end as usize,
            }));
        }
    };
    Ok(Err(text))
}
