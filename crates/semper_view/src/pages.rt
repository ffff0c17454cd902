// A report as one page.
use sem_chart::Range;
use sem_draw::{Answer, Ending};
use sem_export::{json_lines, told_lines};
use sem_hint::{no_report, wrong_entry};
use sem_key::OutOfMemory;
use sem_msg::{Audit, Journal, Setup};
use sem_page::{PageParts, page_range, page_text};
use sem_report::read_report;
use sem_tree::{ForestsFault, KEYS, forest_lines};
use sem_view::{stats_as_json, stats_of};
use std::alloc::Global;

/// The page of the report with the entries from `from` up to `to`.
pub fn page(
    alloc: Global,
    from: Option<u64>,
    to: Option<u64>,
    bytes: &[u8],
) -> Result<Answer, OutOfMemory> {
    let (setup, journal, audit) = match read_report(alloc, bytes) {
        Ok(parts) => parts,
        Err(error) => return no_report(alloc, bytes, error),
    };
    match page_range(alloc, journal.len(), from, to)? {
        Ok(range) => page_of(alloc, &setup, &journal, &audit, range),
        Err(text) => Ok(Answer::failed(alloc, Ending::WrongWords, text)),
    }
}

// The page of the entries of a report.
fn page_of(
    alloc: Global,
    setup: &Setup,
    journal: &Journal,
    audit: &Audit,
    range: Range,
) -> Result<Answer, OutOfMemory> {
    let forests = match forest_lines(alloc, setup, journal, range.from, range.to) {
        Ok(lines) => lines,
        Err(ForestsFault::Memory) => return Err(OutOfMemory),
        Err(ForestsFault::Wrong(number)) => return wrong_entry(alloc, number),
        Err(ForestsFault::TooMany(keys)) => {
            let text = format!(in alloc;
                "the forest would have {keys} keys, and {KEYS} are the most: name fewer entries by --to\n"
            )?;
            return Ok(Answer::failed(alloc, Ending::WrongWords, text));
        }
    };
    let report = json_lines(alloc, setup, journal, range, audit)?;
    let told = told_lines(alloc, journal, range)?;
    let stats = stats_as_json(alloc, &stats_of(alloc, setup, journal)?)?;
    let parts = PageParts {
        report: report.as_str(),
        told: told.as_str(),
        forests: forests.as_str(),
        stats: stats.as_str(),
    };
    Ok(Answer::done(
        alloc,
        page_text(alloc, &parts, range, setup.kernels, journal.as_slice())?,
    ))
}
