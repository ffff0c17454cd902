// Requests for the life of a key, and their answers.
ghost use Rattle.std.specs.Prelude.{◌≡◌, IfSome};
ghost use Rattle.sem_trace.specs.Words.{key_word};
ghost use Rattle.sem_machine.specs.Schedules.{IsSchedule};

use crate::ancestors::Line;
use crate::moments::{Source, moments_of};
use crate::starts::root_name;
use crate::walks::{Walk, walk_through};
use sem_check::first_schedule;
use sem_draw::{Answer, Ending, Picture, Timeline, timeline_as_svg, timeline_as_text};
use sem_hint::{key_text, no_report, object_text, too_few_entries, wrong_entry};
use sem_key::{Key, OutOfMemory};
use sem_msg::{Entry, Journal, Setup};
use sem_report::read_report;
use sem_trace::read_key;
use std::alloc::Global;

/// The most rows of a story.
pub const ROWS: usize = 10_000;

/// A request for the life of the key in the first `at` entries, or in all of them.
#[derive(Clone, Copy, Debug)]
pub struct StoryRequest {
    pub picture: Picture,
    pub key: Key,
    pub at: Option<u64>,
}

/// The key that the word is, of either version, if it is one.
pub fn key_of(word: &str) -> Option<Key>
    ensures { IfSome result (λ k. word.now ≡ key_word k) }
{
    read_key(word.as_bytes(), 2).ok()
}

/// The answer to the request, with these bytes as the input.
pub fn story(alloc: Global, request: &StoryRequest, bytes: &[u8]) -> Result<Answer, OutOfMemory> {
    match read_report(alloc, bytes) {
        Ok((setup, journal, _)) => story_of(alloc, request, &setup, &journal),
        Err(error) => no_report(alloc, bytes, error),
    }
}

// The answer to the request on a report with that setup and journal.
fn story_of(
    alloc: Global,
    request: &StoryRequest,
    setup: &Setup,
    journal: &Journal,
) -> Result<Answer, OutOfMemory> {
    let all = journal.len() as u64;
    let at = request.at.unwrap_or(all);
    if at > all {
        return too_few_entries(alloc, at, all);
    }
    let count = at as usize;
    let first = first_schedule(alloc, setup, journal, count)?;
    let number = first.len();
    if number < count {
        return wrong_entry(alloc, number);
    }
    story_along(alloc, request, setup, first.as_slice())
}

// The answer to the request along the entries, a schedule.
fn story_along(
    alloc: Global,
    request: &StoryRequest,
    setup: &Setup,
    entries: &[Entry],
) -> Result<Answer, OutOfMemory>
    requires { IsSchedule setup.now entries.now }
{
    let walk = walk_through(alloc, setup, entries, request.key)?;
    story_of_walk(alloc, request, setup, entries, &walk)
}

// The answer to the request, once the walk of the key has gone through the entries.
fn story_of_walk(
    alloc: Global,
    request: &StoryRequest,
    setup: &Setup,
    entries: &[Entry],
    walk: &Walk,
) -> Result<Answer, OutOfMemory> {
    let count = walk.rows.len();
    if count == 0 {
        return never_made(alloc, request.key, entries.len());
    }
    if count > ROWS {
        return too_many_rows(alloc, count);
    }
    let timeline = timeline_of(alloc, setup, entries, request.key, walk)?;
    Ok(Answer::done(alloc, draw(alloc, &timeline, request.picture)?))
}

// The answer if that many entries make no such key.
fn never_made(alloc: Global, key: Key, at: usize) -> Result<Answer, OutOfMemory> {
    let key = key_text(alloc, &key)?;
    let text = format!(in alloc; "{key} was never made in these {at} entries\n")?;
    Ok(Answer::failed(alloc, Ending::WrongWords, text))
}

// The answer if the story would be too long.
fn too_many_rows(alloc: Global, count: usize) -> Result<Answer, OutOfMemory> {
    let text = format!(in alloc;
        "the story would have {count} rows, and {ROWS} are the most: name fewer entries by --at\n"
    )?;
    Ok(Answer::failed(alloc, Ending::WrongWords, text))
}

// The life of the key as a timeline.
fn timeline_of(
    alloc: Global,
    setup: &Setup,
    entries: &[Entry],
    key: Key,
    walk: &Walk,
) -> Result<Timeline, OutOfMemory> {
    let line = Line::of(alloc, entries, key)?;
    let source = Source {
        setup,
        entries,
        key,
        kernel: setup.owner_of(key),
        taker: line.taker(entries),
    };
    Ok(Timeline {
        len: entries.len() as u64,
        name: key_text(alloc, &key)?,
        text: head_text(alloc, &source, &line, walk)?,
        moments: moments_of(alloc, &source, walk.rows.as_slice())?,
    })
}

// The head of the story: what the key gives its holder, whose it is, and which key it was made
// from.
fn head_text(
    alloc: Global,
    source: &Source,
    line: &Line,
    walk: &Walk,
) -> Result<String, OutOfMemory> {
    let (vpe, kernel) = (source.key.vpe, source.kernel);
    let mut text = String::new(alloc);
    if let Some(object) = walk.object {
        text.push_str(object_text(alloc, &object)?.as_str())?;
        text.push_str("; ")?;
    }
    text.push_str(format!(in alloc; "of v{vpe} of K{kernel}; ")?.as_str())?;
    match line.parent {
        Some(parent) => {
            text.push_str("made from ")?;
            text.push_str(key_text(alloc, &parent)?.as_str())?;
        }
        None => {
            text.push_str("a ")?;
            text.push_str(root_name(source.key))?;
        }
    }
    Ok(text)
}

fn draw(alloc: Global, timeline: &Timeline, picture: Picture) -> Result<String, OutOfMemory> {
    match picture {
        Picture::Svg => timeline_as_svg(alloc, timeline),
        Picture::Boxes => timeline_as_text(alloc, timeline, false),
        Picture::Plain => timeline_as_text(alloc, timeline, true),
    }
}
