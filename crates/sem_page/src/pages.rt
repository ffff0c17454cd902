// The text of a page.
use crate::body::BODY;
use crate::script::SCRIPT;
use crate::style::STYLE;
use sem_chart::Range;
use sem_draw::OutOfMemory;
use sem_msg::{Act, Entry};
use std::alloc::Global;

/// The parts of a page. All are texts without a `<`.
#[derive(Clone, Copy, Debug)]
pub struct PageParts<'a> {
    /// The setup, the shown entries, and the audit, as lines of JSON.
    pub report: &'a str,
    /// The lines of these entries, as in the report.
    pub told: &'a str,
    /// The changes of the forest, as lines of JSON: one for the forest before the first shown
    /// entry, and one for each entry.
    pub forests: &'a str,
    /// The counts of the whole run, as JSON.
    pub stats: &'a str,
}

/// The page of those of the entries that are in the range.
pub fn page_text(
    alloc: Global,
    parts: &PageParts<'_>,
    range: Range,
    kernels: u32,
    entries: &[Entry],
) -> Result<String, OutOfMemory> {
    let (count, first) = (entries.len(), range.from);
    let before = &entries[..first.min(count)];
    let early = early_messages(alloc, kernels as usize, before)?;
    let about = format!(in alloc;
        "{{\"entries\":{count},\"first\":{first},\"early\":{{{early}}}}}"
    )?;
    let mut page = String::new(alloc);
    page.push_str("<!doctype html>\n<html lang=\"en\">\n<head>\n<meta charset=\"utf-8\">\n")?;
    page.push_str("<meta name=\"viewport\" content=\"width=device-width\">\n")?;
    page.push_str("<title>A run of semper</title>\n<style>\n")?;
    page.push_str(STYLE)?;
    page.push_str("</style>\n</head>\n<body>\n")?;
    page.push_str(BODY)?;
    push_block(&mut page, "about", about.as_str())?;
    push_block(&mut page, "stats", parts.stats)?;
    push_block(&mut page, "report", parts.report)?;
    push_block(&mut page, "told", parts.told)?;
    push_block(&mut page, "forests", parts.forests)?;
    page.push_str("<script>\n")?;
    page.push_str(SCRIPT)?;
    page.push_str("</script>\n</body>\n</html>\n")?;
    Ok(page)
}

// How many messages these entries sent and did not take, as members of a JSON object named by link,
// as "0 1".
fn early_messages(alloc: Global, kernels: usize, entries: &[Entry]) -> Result<String, OutOfMemory> {
    let mut counts: Vec<u64> = Vec::new(alloc);
    counts.resize(kernels.saturating_mul(kernels), 0)?;
    for entry in entries {
        let own = entry.event.kernel as usize;
        let (from, to, is_sent) = match entry.event.act {
            Act::Flush { to } => (own, to as usize, true),
            Act::Fetch { from } => (from as usize, own, false),
            _ => continue,
        };
        if let Some(count) = counts.get_mut(from.saturating_mul(kernels).saturating_add(to)) {
            *count = if is_sent {
                count.saturating_add(1)
            } else {
                count.saturating_sub(1)
            };
        }
    }
    let mut text = String::new(alloc);
    for from in 0..kernels {
        for to in 0..kernels {
            let place = from.saturating_mul(kernels).saturating_add(to);
            let count = counts.get(place).copied().unwrap_or(0);
            if count > 0 {
                let comma = if text.is_empty() { "" } else { "," };
                text.push_str(format!(in alloc; "{comma}\"{from} {to}\":{count}")?.as_str())?;
            }
        }
    }
    Ok(text)
}

// Appends a block of data, which the script finds by its name.
fn push_block(page: &mut String, name: &str, data: &str) -> Result<(), OutOfMemory> {
    page.push_str("<script type=\"text/plain\" id=\"")?;
    page.push_str(name)?;
    page.push_str("\">\n")?;
    page.push_str(data)?;
    page.push_str("\n</script>\n")
}
