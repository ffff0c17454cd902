// Requests for a picture of memory, and their answers.
use crate::areas::{Area, area_of, areas};
use crate::bars::{Found, bar_of};
use crate::holdings::{Holdings, holdings_after};
use sem_check::first_schedule;
use sem_draw::{Answer, Bar, Ending, Picture, bars_as_svg, bars_as_text};
use sem_hint::{no_report, too_few_entries, wrong_entry};
use sem_key::OutOfMemory;
use sem_mem::Access;
use sem_msg::{Journal, Setup};
use sem_report::read_report;
use std::alloc::Global;

/// The most runs and accesses of a picture.
pub const ROWS: usize = 10_000;

/// A request for what memory holds after the first `at` entries, or after all of them.
#[derive(Clone, Copy, Debug)]
pub struct MemoryRequest {
    pub picture: Picture,
    pub at: Option<u64>,
}

/// The answer to the request, with these bytes as the input.
pub fn memory_picture(
    alloc: Global,
    request: &MemoryRequest,
    bytes: &[u8],
) -> Result<Answer, OutOfMemory> {
    match read_report(alloc, bytes) {
        Ok((setup, journal, _)) => {
            let all = journal.len() as u64;
            let at = request.at.unwrap_or(all);
            if at > all {
                return too_few_entries(alloc, at, all);
            }
            picture_of(alloc, request.picture, &setup, &journal, at as usize)
        }
        Err(error) => no_report(alloc, bytes, error),
    }
}

// The picture of what memory holds after that many entries of a report with that setup and journal.
fn picture_of(
    alloc: Global,
    picture: Picture,
    setup: &Setup,
    journal: &Journal,
    count: usize,
) -> Result<Answer, OutOfMemory> {
    let first = first_schedule(alloc, setup, journal, count)?;
    let number = first.len();
    if number < count {
        return wrong_entry(alloc, number);
    }
    let held = holdings_after(alloc, setup, &first)?;
    let rows = held.rows.len().saturating_add(held.looks.len());
    if rows > ROWS {
        let text = format!(in alloc;
            "the picture would have {rows} runs and accesses, and {ROWS} are the most: name fewer entries by --at\n"
        )?;
        return Ok(Answer::failed(alloc, Ending::WrongWords, text));
    }
    let bars = bars_of(alloc, setup, &held)?;
    Ok(Answer::done(alloc, draw(alloc, bars.as_slice(), picture)?))
}

// The bars of all areas that were written or read.
fn bars_of(alloc: Global, setup: &Setup, held: &Holdings) -> Result<Vec<Bar>, OutOfMemory> {
    let areas = areas(alloc, setup)?;
    let vpes = accessors(alloc, held.accesses.as_slice())?;
    let mut bars = Vec::new(alloc);
    for (place, area) in areas.as_slice().iter().enumerate() {
        if is_accessed(areas.as_slice(), place, held.accesses.as_slice()) {
            let found = found_in(alloc, areas.as_slice(), place, held)?;
            bars.push(bar_of(alloc, setup, area, held, found.as_slice(), vpes.as_slice())?)?;
        }
    }
    Ok(bars)
}

// Whether one of the accesses is in the area at that place.
fn is_accessed(areas: &[Area], place: usize, list: &[Access]) -> bool {
    list.iter()
        .any(|access| area_of(areas, access.base) == Some(place))
}

// The VPEs that made accesses, by number.
fn accessors(alloc: Global, list: &[Access]) -> Result<Vec<u16>, OutOfMemory> {
    let mut vpes: Vec<u16> = Vec::new(alloc);
    for access in list {
        if !vpes.contains(&access.vpe) {
            vpes.push(access.vpe)?;
        }
    }
    vpes.sort()?;
    Ok(vpes)
}

// The reads of the area at that place, and what they found.
fn found_in(
    alloc: Global,
    areas: &[Area],
    place: usize,
    held: &Holdings,
) -> Result<Vec<Found>, OutOfMemory> {
    let list = held.accesses.as_slice();
    let mut found = Vec::new(alloc);
    for (at, access) in list.iter().enumerate() {
        if !access.write
            && area_of(areas, access.base) == Some(place)
            && let Some(look) = held.looks.get(at)
        {
            found.push(Found {
                access: *access,
                look: *look,
                writer: look.newest.and_then(|entry| writer_in(list, entry)),
            })?;
        }
    }
    Ok(found)
}

// The access by that entry.
fn writer_in(list: &[Access], entry: u64) -> Option<Access> {
    list.iter().find(|access| access.entry == entry).copied()
}

fn draw(alloc: Global, bars: &[Bar], picture: Picture) -> Result<String, OutOfMemory> {
    match picture {
        Picture::Boxes | Picture::Plain if bars.is_empty() => {
            String::from_str(alloc, "no memory was written or read\n")
        }
        Picture::Svg => bars_as_svg(alloc, bars),
        Picture::Boxes => bars_as_text(alloc, bars, false),
        Picture::Plain => bars_as_text(alloc, bars, true),
    }
}
