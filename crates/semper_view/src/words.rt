// The words of the command line.
use crate::searching::Search;
use clap::error::ErrorKind;
use clap::{Arg, ArgAction, ArgMatches, Command, Error};
use sem_compare::Telling;
use sem_draw::Picture;
use sem_export::ExportRequest;
use sem_key::Key;
use sem_story::{StoryRequest, key_of};
use sem_tree::{TreeForm, TreeRequest};
use sem_view::Request;
use sem_writers::MemoryRequest;
use std::alloc::{AllocError, Global};

/// The word for the number of an entry in the help.
const NUMBER: &str = "N";

/// The word for a key in the help.
const KEY: &str = "KEY";

/// How many seeds are run if no number is given.
const SEEDS: u64 = 1_000;

/// The most histories of a search if no number is given.
const LIMIT: u64 = 1_000_000;

/// What the words ask for.
#[derive(Debug, Drop)]
pub enum Asked {
    /// A chart, counts, or what calls waited for.
    View { request: Request },
    /// A forest.
    Tree { request: TreeRequest },
    /// What memory holds, and which VPE wrote it.
    Memory { request: MemoryRequest },
    /// The life of a key.
    Story { request: StoryRequest },
    /// The report for another tool.
    Export { request: ExportRequest },
    /// The report as one page.
    Page { from: Option<u64>, to: Option<u64> },
    /// The trace that file commands compile to.
    Files,
    /// The report of the logs of kernels.
    Assemble,
    /// The outcomes of a trace.
    Outcomes { search: Search, telling: Telling },
    /// The samples in these files, put together.
    Merge { files: Vec<String>, is_json: bool },
    /// The differences of two reports.
    Diff { one: String, other: String },
    /// Why the input is refused.
    Explain,
}

/// The request of the words, or the text in place of one: a mistake, the help or the version.
pub fn read_words(alloc: Global, words: &[String]) -> Result<Asked, Error> {
    let mut texts = Vec::new(alloc);
    for word in words {
        texts.push(word.as_str())?;
    }
    let matches = command(alloc)?.try_get_matches_from(texts.as_slice())?;
    meant(alloc, &matches)
}

// The request of the matches.
fn meant(alloc: Global, matches: &ArgMatches<'_>) -> Result<Asked, Error> {
    match matches.subcommand() {
        Some(("tree", tree)) => Ok(forest(drawn(tree), tree)),
        Some(("dot", dot)) => Ok(forest(TreeForm::Dot, dot)),
        Some(("page", page)) => Ok(Asked::Page {
            from: page.get_one::<u64>("from"),
            to: page.get_one::<u64>("to"),
        }),
        Some(("memory", memory)) => Ok(Asked::Memory {
            request: MemoryRequest {
                picture: picture(memory),
                at: memory.get_one::<u64>("at"),
            },
        }),
        Some(("story", story)) => Ok(Asked::Story {
            request: StoryRequest {
                picture: picture(story),
                key: key(alloc, story)?,
                at: story.get_one::<u64>("at"),
            },
        }),
        Some(("outcomes", outcomes)) => Ok(outcomes_asked(alloc, outcomes)?),
        Some(("diff", diff)) => Ok(Asked::Diff {
            one: String::from_str(alloc, diff.get_str("a").unwrap_or(""))?,
            other: String::from_str(alloc, diff.get_str("b").unwrap_or(""))?,
        }),
        Some(("files", _)) => Ok(Asked::Files),
        Some(("assemble", _)) => Ok(Asked::Assemble),
        Some(("explain", _)) => Ok(Asked::Explain),
        Some((name, other)) => match exported(name, other) {
            Some(request) => Ok(Asked::Export { request }),
            None => Ok(Asked::View {
                request: viewed(alloc, name, other)?,
            }),
        },
        None => Ok(Asked::Explain),
    }
}

// The request for a forest in that form.
fn forest(form: TreeForm, matches: &ArgMatches<'_>) -> Asked {
    let at = matches.get_one::<u64>("at");
    Asked::Tree {
        request: TreeRequest { form, at },
    }
}

// A forest as a picture.
fn drawn(matches: &ArgMatches<'_>) -> TreeForm {
    TreeForm::Drawn {
        picture: picture(matches),
    }
}

// The request of the command of that name, if it writes a report for other tools.
fn exported(name: &str, matches: &ArgMatches<'_>) -> Option<ExportRequest> {
    match name {
        "json" if matches.get_flag("schema") => Some(ExportRequest::Schema),
        "json" => Some(ExportRequest::Json),
        "mermaid" => Some(ExportRequest::Mermaid {
            from: matches.get_one::<u64>("from"),
            to: matches.get_one::<u64>("to"),
        }),
        "perfetto" => Some(ExportRequest::Perfetto),
        _ => None,
    }
}

// The request of the command for outcomes.
fn outcomes_asked(alloc: Global, matches: &ArgMatches<'_>) -> Result<Asked, AllocError> {
    let is_json = matches.get_flag("json");
    if let Some(names) = matches.get_strs("merge") {
        let mut files = Vec::new(alloc);
        for name in names {
            files.push(String::from_str(alloc, name)?)?;
        }
        return Ok(Asked::Merge { files, is_json });
    }
    let search = if matches.get_flag("all") {
        let limit = matches.get_one::<u64>("limit").unwrap_or(LIMIT);
        Search::All {
            limit: limit as usize,
        }
    } else {
        Search::Seeds {
            from: matches.get_one::<u64>("from").unwrap_or(0),
            seeds: matches.get_one::<u64>("seeds").unwrap_or(SEEDS),
        }
    };
    let report = matches.get_one::<u64>("report");
    Ok(Asked::Outcomes {
        search,
        telling: Telling { report, is_json },
    })
}

// The request of the command of that name, one that shows a journal.
fn viewed(alloc: Global, name: &str, matches: &ArgMatches<'_>) -> Result<Request, AllocError> {
    match name {
        "chart" => Ok(Request::Chart {
            picture: picture(matches),
            from: matches.get_one::<u64>("from"),
            to: matches.get_one::<u64>("to"),
            kernels: kernels(alloc, matches)?,
        }),
        "waits" => Ok(Request::Waits {
            vpe: matches.get_one::<u64>("vpe"),
            call: matches.get_one::<u64>("call"),
        }),
        _ => Ok(Request::Stats {
            is_json: matches.get_flag("json"),
        }),
    }
}

fn key(alloc: Global, matches: &ArgMatches<'_>) -> Result<Key, Error> {
    let word = matches.get_str("key").unwrap_or("");
    if let Some(key) = key_of(word) {
        return Ok(key);
    }
    let text = format!(in alloc;
        "invalid value '{word}' for '<{KEY}>': wanted is a key, as 0.0.1.0"
    )?;
    let mut command = story(alloc)?;
    Err(command.error(ErrorKind::ValueValidation, text.as_str())?)
}

// The form in which to write a picture.
fn picture(matches: &ArgMatches<'_>) -> Picture {
    if matches.get_flag("svg") {
        Picture::Svg
    } else if matches.get_flag("ascii") {
        Picture::Plain
    } else {
        Picture::Boxes
    }
}

// The named kernels; none if all are meant.
fn kernels(alloc: Global, matches: &ArgMatches<'_>) -> Result<Vec<u32>, AllocError> {
    let mut kernels = Vec::new(alloc);
    if let Some(texts) = matches.get_strs("kernels") {
        for text in texts {
            if let Ok(number) = text.parse::<u32>() {
                kernels.push(number)?;
            }
        }
    }
    Ok(kernels)
}

// The command line.
fn command<'a>(alloc: Global) -> Result<Command<'a>, AllocError> {
    let command = Command::new(alloc, "semper-view")
        .version("1")
        .no_binary_name(true)
        .about("Shows what the reports of semper tell. A report is read from standard input.")
        .subcommand_required(true)
        .arg_required_else_help(true);
    exporting(alloc, comparing(alloc, drawing(alloc, command)?)?)
}

// The command line with the commands that draw a report.
fn drawing<'a>(alloc: Global, command: Command<'a>) -> Result<Command<'a>, AllocError> {
    command
        .subcommand(chart(alloc)?)?
        .subcommand(stats(alloc)?)?
        .subcommand(after_entries(
            alloc,
            Command::new(alloc, "tree").about("Draw the capabilities of a report as a forest"),
        )?)?
        .subcommand(after_entries(
            alloc,
            Command::new(alloc, "memory").about(
                "Draw who wrote what memory holds, and who read it",
            ),
        )?)?
        .subcommand(story(alloc)?)
}

// The command line with the commands that follow calls and compare runs.
fn comparing<'a>(alloc: Global, command: Command<'a>) -> Result<Command<'a>, AllocError> {
    command
        .subcommand(Command::new(alloc, "files").about(
            "Show the trace that file commands are compiled to, each command above its calls",
        ))?
        .subcommand(waits(alloc)?)?
        .subcommand(outcomes(alloc)?)?
        .subcommand(diff(alloc)?)
}

// The command line with the commands that write for other tools, and the one that explains.
fn exporting<'a>(alloc: Global, command: Command<'a>) -> Result<Command<'a>, AllocError> {
    command
        .subcommand(json(alloc)?)?
        .subcommand(dot(alloc)?)?
        .subcommand(mermaid(alloc)?)?
        .subcommand(page(alloc)?)?
        .subcommand(Command::new(alloc, "perfetto").about(
            "Write a report as a trace that Perfetto and Chrome show",
        ))?
        .subcommand(Command::new(alloc, "assemble").about(
            "Put a trace and the logs of its kernels together to a report",
        ))?
        .subcommand(Command::new(alloc, "explain").about(
            "Tell why a trace, a report or file commands are refused, or that they are accepted",
        ))
}

// The command that counts.
fn stats<'a>(alloc: Global) -> Result<Command<'a>, AllocError> {
    Command::new(alloc, "stats")
        .about("Count the events, messages and replies of a report")
        .arg(flag(alloc, "json", "Write JSON"))
}

// The command that tells what calls waited for.
fn waits<'a>(alloc: Global) -> Result<Command<'a>, AllocError> {
    Command::new(alloc, "waits")
        .about("Tell what each call of a report waited for, entry by entry")
        .arg(number(alloc, "vpe", "The VPE whose calls are told"))?
        .arg(number(alloc, "call", "The number of the call that is told, from 0"))
}

// The command that tells outcomes.
fn outcomes<'a>(alloc: Global) -> Result<Command<'a>, AllocError> {
    Command::new(alloc, "outcomes")
        .about("Tell in which ways a trace can end: those of many seeds, or all")
        .arg(number(
            alloc,
            "seeds",
            "How many seeds are run; 1000 where it is not given",
        ))?
        .arg(number(alloc, "from", "The first seed; 0 where it is not given"))?
        .arg(flag(alloc, "all", "Search all schedules, and tell all outcomes"))?
        .arg(number(
            alloc,
            "limit",
            "The most histories that are searched; 1000000 where it is not given",
        ))?
        .arg(number(
            alloc,
            "report",
            "Write the report of a run with that outcome",
        ))?
        .arg(flag(alloc, "json", "Write JSON"))?
        .arg(
            Arg::new(alloc, "merge")
                .long("merge")
                .value_name("FILE")
                .num_args(1..)
                .action(ArgAction::Append)
                .help("Put together what --json wrote of other seeds, instead of running any"),
        )
}

// The command that compares two reports.
fn diff<'a>(alloc: Global) -> Result<Command<'a>, AllocError> {
    Command::new(alloc, "diff")
        .about("Tell in what two reports of one trace differ, which are two files")
        .arg(file(alloc, "a", "The report that is named A"))?
        .arg(file(alloc, "b", "The report that is named B"))
}

// The name of a file.
fn file<'a>(alloc: Global, name: &'a str, help: &'a str) -> Arg<'a> {
    Arg::new(alloc, name)
        .value_name("FILE")
        .required(true)
        .action(ArgAction::Set)
        .help(help)
}

// The command that writes JSON.
fn json<'a>(alloc: Global) -> Result<Command<'a>, AllocError> {
    Command::new(alloc, "json")
        .about("Write a report as JSON, one object a line")
        .arg(flag(alloc, "schema", "Write the JSON Schema of these lines"))
}

// The command that writes a graph.
fn dot<'a>(alloc: Global) -> Result<Command<'a>, AllocError> {
    Command::new(alloc, "dot")
        .about("Write the capabilities of a report as a graph for Graphviz")
        .arg(at_entry(alloc))
}

// The command that writes a sequence diagram.
fn mermaid<'a>(alloc: Global) -> Result<Command<'a>, AllocError> {
    Command::new(alloc, "mermaid")
        .about("Write the messages of a report as a sequence diagram of Mermaid")
        .arg(number(alloc, "from", "The first entry that is shown"))?
        .arg(number(alloc, "to", "The last entry that is shown"))
}

// The command that writes a page.
fn page<'a>(alloc: Global) -> Result<Command<'a>, AllocError> {
    Command::new(alloc, "page")
        .about("Write a report as one page for a browser: entries, messages and capabilities")
        .arg(number(alloc, "from", "The first entry that is shown"))?
        .arg(number(alloc, "to", "The last entry that is shown; at most 400 are"))
}

// The command that draws a chart.
fn chart<'a>(alloc: Global) -> Result<Command<'a>, AllocError> {
    pictured(
        alloc,
        Command::new(alloc, "chart").about("Draw the messages of a report, entry by entry"),
    )?
    .arg(number(alloc, "from", "The first entry that is shown"))?
    .arg(number(alloc, "to", "The last entry that is shown"))?
    .arg(
        Arg::new(alloc, "kernels")
            .long("kernels")
            .value_name("LIST")
            .value_delimiter(',')
            .action(ArgAction::Append)
            .value_parser(clap::value_parser!(u32))
            .help("The kernels that are shown, as 0,2"),
    )
}

// The command that tells the life of a key.
fn story<'a>(alloc: Global) -> Result<Command<'a>, AllocError> {
    after_entries(
        alloc,
        Command::new(alloc, "story").about("Tell the life of one capability, entry by entry"),
    )?
    .arg(
        Arg::new(alloc, "key")
            .value_name(KEY)
            .required(true)
            .action(ArgAction::Set)
            .help("The key of the capability, as 0.0.1.0"),
    )
}

// The command with the flags of a picture and the number of the entries before it.
fn after_entries<'a>(alloc: Global, command: Command<'a>) -> Result<Command<'a>, AllocError> {
    pictured(alloc, command)?.arg(at_entry(alloc))
}

// The number of entries after which something is shown.
fn at_entry<'a>(alloc: Global) -> Arg<'a> {
    number(
        alloc,
        "at",
        "After how many entries; after all where it is not given",
    )
}

// The command with the flags of a picture.
fn pictured<'a>(alloc: Global, command: Command<'a>) -> Result<Command<'a>, AllocError> {
    command
        .arg(flag(alloc, "svg", "Write an SVG picture"))?
        .arg(flag(alloc, "ascii", "Write text without box characters"))
}

// A numeric option.
fn number<'a>(alloc: Global, name: &'a str, help: &'a str) -> Arg<'a> {
    Arg::new(alloc, name)
        .long(name)
        .value_name(NUMBER)
        .action(ArgAction::Set)
        .value_parser(clap::value_parser!(u64))
        .help(help)
}

fn flag<'a>(alloc: Global, name: &'a str, help: &'a str) -> Arg<'a> {
    Arg::new(alloc, name)
        .long(name)
        .action(ArgAction::SetTrue)
        .help(help)
}
