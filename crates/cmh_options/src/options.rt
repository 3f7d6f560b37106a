//! The command line: its commands and their arguments, as tables.

use crate::help::Help;
use clap::{Arg, ArgAction, Command, Error, value_parser};
use std::alloc::Global;

pub const PLAY: &str = "play";

pub const AUDIT: &str = "audit";

pub const SHOW: &str = "show";

pub const DRAW: &str = "draw";

pub const SITE: &str = "site";

pub const CLUSTER: &str = "cluster";

pub const SERVE: &str = "serve";

pub const NEW_WORLD: &str = "new-world";

pub const SEGMENTS: &str = "segments";

pub const RESTORE: &str = "restore";

pub const TOPOLOGY: &str = "topology";

pub const JOURNALS: &str = "journals";

pub const JOURNAL: &str = "journal";

pub const SCRIPT: &str = "script";

pub const OUT: &str = "out";

pub const WHY: &str = "why";

pub const RUN: &str = "run";

pub const DECLARATIONS: &str = "declarations";

/// The epoch that is audited, shown, drawn or restored.
pub const EPOCH: &str = "epoch";

pub const RECORD: &str = "record";

pub const NOTES: &str = "notes";

pub const STRICT: &str = "strict";

pub const PATIENCE: &str = "patience";

pub const BACKLOG: &str = "backlog";

pub const PORT: &str = "port";

pub const QUIET: &str = "quiet";

pub const NEW: &str = "new";

pub const WAIT_FOR_PEERS: &str = "wait-for-peers";

pub const KIND: &str = "kind";

pub const FORMAT: &str = "format";

pub const FROM: &str = "from";

pub const TO: &str = "to";

pub const EXPLAIN: &str = "explain";

pub const EDITION: &str = "edition";

pub const PAGE: &str = "page";

const KINDS: &[&str] = &["waits", "run"];

const FORMATS: &[&str] = &["dot", "svg"];

/// The edition of a script that has no line for it.
pub const EDITION_THREE: &str = "3";

const EDITIONS: &[&str] = &[EDITION_THREE];

/// What an argument takes.
#[derive(Clone, Copy)]
enum Takes {
    /// Nothing: the option is there or not.
    Nothing,
    /// A text, which the usage calls so.
    Text(&'static str),
    /// One of these words.
    Word(&'static [&'static str]),
    /// A number from one to another, which the usage calls so.
    Number(&'static str, i64, i64),
    /// The same of larger numbers, from one to the greatest.
    Count(&'static str, i64),
    /// The files behind the options, one at least.
    Files,
}

/// An argument of a command.
#[derive(Clone, Copy)]
struct Argument {
    name: &'static str,
    takes: Takes,
    is_required: bool,
    default: Option<&'static str>,
    /// The options with which it can't be given.
    conflicts: &'static [&'static str],
    help: &'static str,
}

/// A command, but for the long help.
struct CommandRow {
    name: &'static str,
    about: &'static str,
    arguments: &'static [Argument],
}

/// An option that may be left out, and takes nothing.
const FLAG: Argument = Argument {
    name: "",
    takes: Takes::Nothing,
    is_required: false,
    default: None,
    conflicts: &[],
    help: "",
};

/// An argument that has to be there.
const REQUIRED: Argument = Argument {
    is_required: true,
    ..FLAG
};

/// The files behind the options.
const FILES: Argument = Argument {
    name: JOURNALS,
    takes: Takes::Files,
    ..REQUIRED
};

const TOPOLOGY_FILE: Argument = Argument {
    name: TOPOLOGY,
    takes: Takes::Text("FILE"),
    help: "The JSON file that names the sites and their processes",
    ..REQUIRED
};

const SITE_NUMBER: Argument = Argument {
    name: SITE,
    takes: Takes::Number("NUMBER", 1, 9999),
    help: "The number of the site, 1 to 9999",
    ..REQUIRED
};

const JOURNAL_FILE: Argument = Argument {
    name: JOURNAL,
    takes: Takes::Text("FILE"),
    help: "The journal that it writes; a file that stands there and isn't empty is kept as FILE.1, FILE.2 and so on. Of edition 3 the folder of its journal",
    ..REQUIRED
};

/// How a site of edition 3 begins.
const NEW_JOURNAL: Argument = Argument {
    name: NEW,
    help: "Of edition 3: begins a new journal in a folder that has none; without it the site goes on with the journal there",
    ..FLAG
};

/// Whether a site of edition 3 takes no event before it has met the other sites.
const PEERS_FIRST: Argument = Argument {
    name: WAIT_FOR_PEERS,
    help: "Of edition 3: refuses events until each link has answered, for a journal that was put back from a backup",
    ..FLAG
};

const SECONDS: Takes = Takes::Number("SECONDS", 0, 3600);

const BACKLOG_LIMIT: Argument = Argument {
    name: BACKLOG,
    takes: Takes::Number("MEGABYTES", 1, 65535),
    default: Some("64"),
    help: "How much may wait for a site that reads nothing, before its link is closed; 1 to 65535",
    ..FLAG
};

const NOTES_TOLD: Argument = Argument {
    name: NOTES,
    help: "Tells on standard error what a site notices by itself, as a link that closes",
    ..FLAG
};

/// Of every command that has faults. Where standard error is a terminal, it is as if it were given.
const EXPLAINED: Argument = Argument {
    name: EXPLAIN,
    help: "Explains a fault in a second line on standard error, as at a terminal",
    ..FLAG
};

const PLAY_ROW: CommandRow = CommandRow {
    name: PLAY,
    about: "Plays a script from standard input on a world of sites in memory, and answers each line",
    arguments: &[
        // The edition of a script, where it is not one of those that a line of it names.
        Argument {
            name: EDITION,
            takes: Takes::Word(EDITIONS),
            conflicts: &[PAGE],
            help: "Plays a script of edition 3, in which processes may withdraw",
            ..FLAG
        },
        Argument {
            name: JOURNALS,
            takes: Takes::Text("DIR"),
            help: "A folder, which has to be there, for the journals site-N.cmhj; of edition 3 for the folders site-N",
            ..FLAG
        },
        Argument {
            name: PAGE,
            takes: Takes::Text("FILE"),
            conflicts: &[JOURNALS],
            help: "A page, made at the script's end, that steps through the run in a browser",
            ..FLAG
        },
        EXPLAINED,
    ],
};

const PLAY_USAGE: &str = "cmh play < FILE [--edition 3] [--journals DIR | --page FILE] [--explain]";

const SITE_ROW: CommandRow = CommandRow {
    name: SITE,
    about: "Runs one site: answers lines from standard input, talks to the other sites over 127.0.0.1, and keeps a journal",
    arguments: &[
        TOPOLOGY_FILE,
        SITE_NUMBER,
        JOURNAL_FILE,
        NEW_JOURNAL,
        PEERS_FIRST,
        Argument {
            name: PATIENCE,
            takes: SECONDS,
            default: Some("0"),
            help: "How long `connect` tries sites again that don't listen yet, for all together; 0 to 3600",
            ..FLAG
        },
        BACKLOG_LIMIT,
        NOTES_TOLD,
        EXPLAINED,
    ],
};

const SERVE_ROW: CommandRow = CommandRow {
    name: SERVE,
    about: "Runs one site for clients, each a connection to a port of 127.0.0.1 that sends lines and gets their answers",
    arguments: &[
        TOPOLOGY_FILE,
        SITE_NUMBER,
        JOURNAL_FILE,
        NEW_JOURNAL,
        PEERS_FIRST,
        Argument {
            name: PORT,
            takes: Takes::Number("PORT", 1, 65535),
            help: "The port of 127.0.0.1 on which clients connect, 1 to 65535",
            ..REQUIRED
        },
        Argument {
            name: PATIENCE,
            takes: SECONDS,
            default: Some("30"),
            help: "How long sites are tried again that don't listen yet, for all together; 0 to 3600",
            ..FLAG
        },
        BACKLOG_LIMIT,
        Argument {
            name: QUIET,
            help: "Tells no notes on standard error",
            ..FLAG
        },
        // A service of editions 1 and 2 tells notes unless it is quiet.
        Argument {
            name: NOTES,
            help: "Of edition 3: tells on standard error what the site notices by itself, as a link that is refused",
            ..FLAG
        },
        EXPLAINED,
    ],
};

const CLUSTER_ROW: CommandRow = CommandRow {
    name: CLUSTER,
    about: "Runs all sites as threads over 127.0.0.1, waits after each line until all frames have come, and audits the journals",
    arguments: &[
        TOPOLOGY_FILE,
        Argument {
            name: SCRIPT,
            takes: Takes::Text("FILE"),
            help: "The lines that the sites are given",
            ..REQUIRED
        },
        Argument {
            name: OUT,
            takes: Takes::Text("DIR"),
            help: "The folder for the journals site-N.cmhj, which has to be there; journals of the run before are replaced",
            ..REQUIRED
        },
        Argument {
            name: STRICT,
            help: "Starts no site where the open files don't suffice for all, and fails where a link can't be opened",
            ..FLAG
        },
        NOTES_TOLD,
        EXPLAINED,
    ],
};

const AUDIT_ROW: CommandRow = CommandRow {
    name: AUDIT,
    about: "Tells whether the journals of all sites come from one run, and who waits and is deadlocked at its end",
    arguments: &[
        TOPOLOGY_FILE,
        Argument {
            name: WHY,
            help: "Tells, where the journals are refused, why each site stops",
            ..FLAG
        },
        Argument {
            name: RUN,
            conflicts: &[WHY],
            help: "Lists, where the journals are accepted, one run that they come from",
            ..FLAG
        },
        Argument {
            name: DECLARATIONS,
            conflicts: &[WHY, RUN],
            help: "Tells, where the journals of edition 3 are accepted, what became of each declaration's cycle",
            ..FLAG
        },
        // An audit of some epochs tells the report alone.
        Argument {
            name: FROM,
            takes: Takes::Count("EPOCH", 0),
            conflicts: &[WHY, RUN, DECLARATIONS],
            help: "Audits journals of edition 3 from this epoch on, from the bases with which it begins",
            ..FLAG
        },
        Argument {
            name: EPOCH,
            takes: Takes::Count("EPOCH", 0),
            conflicts: &[WHY, RUN, DECLARATIONS, FROM],
            help: "Audits this epoch alone of journals of edition 3, to the bases of the next one",
            ..FLAG
        },
        Argument {
            name: RECORD,
            help: "Keeps, where journals of edition 3 are accepted, a record beside each segment whose epoch all sites have ended",
            ..FLAG
        },
        EXPLAINED,
        Argument {
            help: "The journal files of all sites, or their folders of edition 3, in any order",
            ..FILES
        },
    ],
};

const SHOW_ROW: CommandRow = CommandRow {
    name: SHOW,
    about: "Prints the entries of journals, one a line, in the words of scripts",
    arguments: &[
        Argument {
            name: EPOCH,
            takes: Takes::Count("EPOCH", 0),
            help: "Shows this epoch's segment of each journal of edition 3, in place of the newest; each is a folder then",
            ..FLAG
        },
        EXPLAINED,
        Argument {
            help: "The journal files, or folders of edition 3, which are shown in this order",
            ..FILES
        },
    ],
};

const DRAW_ROW: CommandRow = CommandRow {
    name: DRAW,
    about: "Draws the journals of all sites: who waits for whom at their end, or what happened",
    arguments: &[
        TOPOLOGY_FILE,
        Argument {
            name: KIND,
            takes: Takes::Word(KINDS),
            default: Some("waits"),
            help: "Who waits for whom at the end, or the run with its frames",
            ..FLAG
        },
        Argument {
            name: FORMAT,
            takes: Takes::Word(FORMATS),
            default: Some("svg"),
            help: "A picture that a browser opens, or text for Graphviz",
            ..FLAG
        },
        Argument {
            name: FROM,
            takes: Takes::Count("COLUMN", 1),
            conflicts: &[PAGE],
            help: "The first column of a run that is drawn, counted from 1",
            ..FLAG
        },
        Argument {
            name: TO,
            takes: Takes::Count("COLUMN", 1),
            conflicts: &[PAGE],
            help: "The last column of a run that is drawn",
            ..FLAG
        },
        Argument {
            name: EPOCH,
            takes: Takes::Count("EPOCH", 0),
            conflicts: &[FROM, TO, PAGE],
            help: "Draws journals of edition 3 up to the end of this epoch; of a run the columns of its entries",
            ..FLAG
        },
        Argument {
            name: PAGE,
            conflicts: &[KIND, FORMAT],
            help: "A page that steps through the run in a browser, in place of a picture",
            ..FLAG
        },
        EXPLAINED,
        Argument {
            help: "The journal files of all sites, or their folders of edition 3, in any order",
            ..FILES
        },
    ],
};

const NEW_WORLD_ROW: CommandRow = CommandRow {
    name: NEW_WORLD,
    about: "Prints the number of a new world, drawn at random, for the topology file of edition 3",
    arguments: &[EXPLAINED],
};

const SEGMENTS_ROW: CommandRow = CommandRow {
    name: SEGMENTS,
    about: "Lists the segments of all journals of edition 3, and which of them may be archived",
    arguments: &[
        TOPOLOGY_FILE,
        EXPLAINED,
        Argument {
            help: "The folders of the journals of all sites, in any order",
            ..FILES
        },
    ],
};

const RESTORE_ROW: CommandRow = CommandRow {
    name: RESTORE,
    about: "Sets all sites of edition 3 back together to where they began an epoch, as a world with another number",
    arguments: &[
        TOPOLOGY_FILE,
        // None begins the first one with a base.
        Argument {
            name: EPOCH,
            takes: Takes::Count("EPOCH", 1),
            help: "The epoch to whose beginning the sites are set back, 1 or later",
            ..REQUIRED
        },
        Argument {
            name: TO,
            takes: Takes::Text("DIR"),
            help: "The folder, which has to be there, for the folders site-N of the new journals",
            ..REQUIRED
        },
        EXPLAINED,
        Argument {
            help: "The folders of the older journals of all sites, in any order",
            ..FILES
        },
    ],
};

/// The command line.
pub fn command<'a>(alloc: Global, help: &'a Help) -> Result<Command<'a>, Error> {
    let cmh = Command::new(alloc, "cmh")
        .version("0.1.0")
        .about(
            "Plays or runs sites whose processes wait for each other and find their deadlocks by probes, and audits their \
             journals. Without a command it plays a script.",
        )
        .after_help(Help::COMMANDS);
    let play = command_of(alloc, &PLAY_ROW, help.play.as_str())?.override_usage(PLAY_USAGE);
    let mut cmh = cmh.subcommand(play)?;
    for (row, help) in [
        (&SITE_ROW, help.site.as_str()),
        (&SERVE_ROW, help.serve.as_str()),
        (&CLUSTER_ROW, help.cluster.as_str()),
        (&AUDIT_ROW, help.audit.as_str()),
        (&SHOW_ROW, help.show.as_str()),
        (&DRAW_ROW, help.draw.as_str()),
        (&NEW_WORLD_ROW, Help::NEW_WORLD),
        (&SEGMENTS_ROW, Help::SEGMENTS),
        (&RESTORE_ROW, Help::RESTORE),
    ] {
        cmh = cmh.subcommand(command_of(alloc, row, help)?)?;
    }
    Ok(cmh)
}

/// A command with its arguments, and the long help behind them.
fn command_of<'a>(alloc: Global, row: &CommandRow, help: &'a str) -> Result<Command<'a>, Error> {
    let mut args = Vec::new(alloc);
    for argument in row.arguments {
        args.push(arg_of(alloc, argument)?)?;
    }
    let command = Command::new(alloc, row.name)
        .about(row.about)
        .after_help(help)
        .args(args)?;
    Ok(command)
}

fn arg_of<'a>(alloc: Global, argument: &Argument) -> Result<Arg<'a>, Error> {
    let mut arg = arg_taking(alloc, argument)
        .help(argument.help)
        .required(argument.is_required);
    if let Some(default) = argument.default {
        arg = arg.default_value(default);
    }
    for other in argument.conflicts {
        arg = arg.conflicts_with(*other)?;
    }
    Ok(arg)
}

/// An argument with what it takes.
fn arg_taking<'a>(alloc: Global, argument: &Argument) -> Arg<'a> {
    let arg = Arg::new(alloc, argument.name);
    let name = argument.name;
    match argument.takes {
        Takes::Nothing => arg.long(name).action(ArgAction::SetTrue),
        Takes::Text(value) => arg.long(name).value_name(value).action(ArgAction::Set),
        Takes::Word(words) => arg.long(name).value_parser(words).action(ArgAction::Set),
        Takes::Number(value, least, most) => arg
            .long(name)
            .value_name(value)
            .value_parser(value_parser!(u16).range(least..=most))
            .action(ArgAction::Set),
        Takes::Count(value, least) => arg
            .long(name)
            .value_name(value)
            .value_parser(value_parser!(u32).range(least..=4_294_967_295))
            .action(ArgAction::Set),
        Takes::Files => arg.value_name("JOURNAL").action(ArgAction::Append),
    }
}
