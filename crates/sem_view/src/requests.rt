// Requests about a report, and their answers.
use crate::stats::stats_of;
use crate::stats_json::stats_as_json;
use crate::stats_text::stats_as_text;
use sem_chart::{Range, Shown, chart_of};
use sem_draw::{Answer, Chart, Ending, Picture, chart_as_svg, chart_as_text, fits};
use sem_hint::no_report;
use sem_key::OutOfMemory;
use sem_msg::{Journal, Setup};
use sem_report::read_report;
use sem_waits::{waits_as_text, waits_in};
use std::alloc::Global;

/// The most rows of a chart.
pub const ROWS: usize = 10_000;

/// A request about a report. Entries are named by their numbers, from 0; `to` is the last one
/// shown.
#[derive(Debug, Drop)]
pub enum Request {
    Chart {
        picture: Picture,
        from: Option<u64>,
        to: Option<u64>,
        kernels: Vec<u32>,
    },
    Stats {
        is_json: bool,
    },
    /// The calls that waited: only those of a VPE, and only those of a number, if they are named.
    Waits {
        vpe: Option<u64>,
        call: Option<u64>,
    },
}

/// The answer to the request, with these bytes as the input.
pub fn respond(alloc: Global, request: &Request, bytes: &[u8]) -> Result<Answer, OutOfMemory> {
    match read_report(alloc, bytes) {
        Ok((setup, journal, _)) => respond_with(alloc, request, &setup, &journal),
        Err(error) => no_report(alloc, bytes, error),
    }
}

// The answer to a request on a report with that setup and journal.
fn respond_with(
    alloc: Global,
    request: &Request,
    setup: &Setup,
    journal: &Journal,
) -> Result<Answer, OutOfMemory> {
    match request {
        Request::Chart {
            picture,
            from,
            to,
            kernels,
        } => {
            let shown = Shown {
                kernels: Vec::from_slice(alloc, kernels.as_slice())?,
            };
            let limits = (*from, *to);
            match range_of(alloc, setup, journal.len(), limits, &shown)? {
                Ok(range) => {
                    let chart = chart_of(alloc, setup, journal, range, &shown)?;
                    draw_chart(alloc, &chart, *picture)
                }
                Err(text) => Ok(Answer::failed(alloc, Ending::WrongWords, text)),
            }
        }
        Request::Stats { is_json } => {
            let stats = stats_of(alloc, setup, journal)?;
            let text = if *is_json {
                stats_as_json(alloc, &stats)?
            } else {
                stats_as_text(alloc, &stats)?
            };
            Ok(Answer::done(alloc, text))
        }
        Request::Waits { vpe, call } => {
            let entries = journal.as_slice();
            let waits = waits_in(alloc, entries)?;
            let text = waits_as_text(alloc, entries, waits.as_slice(), *vpe, *call)?;
            Ok(Answer::done(alloc, text))
        }
    }
}

// The requested range, out of that many entries, or why there is no chart of it.
fn range_of(
    alloc: Global,
    setup: &Setup,
    entries: usize,
    limits: (Option<u64>, Option<u64>),
    shown: &Shown,
) -> Result<Result<Range, String>, OutOfMemory> {
    let kernels = setup.kernels;
    for kernel in shown.kernels.as_slice() {
        if *kernel >= kernels {
            let text = format!(in alloc;
                "there is no kernel {kernel}: the report has {kernels}, from 0 on\n"
            )?;
            return Ok(Err(text));
        }
    }
    let from = limits.0.unwrap_or(0);
    let last = limits.1.unwrap_or(u64::MAX);
    let to = last.saturating_add(1).min(entries as u64);
    if from > last {
        let text = format!(in alloc; "--from {from} is behind --to {last}\n")?;
        return Ok(Err(text));
    }
    if from > to {
        let text = format!(in alloc;
            "there are no such entries: the report has {entries}, from 0 on\n"
        )?;
        return Ok(Err(text));
    }
    let rows = to.saturating_sub(from);
    if rows > ROWS as u64 {
        let text = format!(in alloc;
            "the chart would have {rows} rows, and {ROWS} are the most: name the first and the last entry by --from and --to\n"
        )?;
        return Ok(Err(text));
    }
    Ok(Ok(Range {
        from: from as usize,
        to: to as usize,
    }))
}

fn draw_chart(alloc: Global, chart: &Chart, picture: Picture) -> Result<Answer, OutOfMemory> {
    if picture == Picture::Svg {
        return Ok(Answer::done(alloc, chart_as_svg(alloc, chart)?));
    }
    if !fits(alloc, chart)? {
        let lanes = chart.lanes.len();
        let text = format!(in alloc;
            "{lanes} lifelines are too many for 100 columns: name fewer kernels by --kernels, or take --svg\n"
        )?;
        return Ok(Answer::failed(alloc, Ending::WrongWords, text));
    }
    let text = chart_as_text(alloc, chart, picture == Picture::Plain)?;
    Ok(Answer::done(alloc, text))
}
