//! The words that the program is started with, read by `clap`.
ghost use Rattle.clap.specs.Words.{FailsBy, app_of, fault_of, found_of, first_of, new_app, rows_of, subcommand_rows_of};
ghost use Rattle.std.specs.Prelude.{◌≡◌, ◌⊎◌, if◌then◌else◌, IfErr, IfOk, None, Some, false, map, ℕ, List, option_map, option_and_then, codes};
ghost use Rattle.std.specs.String.{string_bytes};
ghost use Rattle.vm_cli.specs.program.Locks.{IsLockOf, WordsLock, access_by, access_with, lock_by, lock_of_wanted};
ghost use Rattle.vm_cli.specs.program.Words.{AddsTask, IsAsked, IsArgOf, IsAskedOf, IsCommandOf, IsLocal, WordsAsk, altctl, amount_rule, blocks_rule, check_app, command_with, copy_app, create_app, do_app, file_rule, flag_rule, grouping_by, grow_to_rule, line_rule, is_set, manner_by, number_by, memory_by, run_app, run_by, serve_app, to_rule, top_app, tree_app, wanted_of, with_lock, with_options};

use crate::program::file_lock::{Access, LockWanted};
use crate::program::given::input_of;
use crate::program::help;
use crate::program::task::{InMemory, Job, MAX_BUFFER};
use crate::session::{Grouping, Manner, OnCommand, OnRefusal};
use clap::{Arg, ArgAction, ArgMatches, Command, Error, value_parser};
use std::alloc::{AllocError, Global};
use vm_types::{MAX_BLOCKS, MIN_BLOCKS};

/// The maximum number of blocks that are kept in memory.
pub const MAX_CACHE: u32 = 65_536;

/// Reads the program's words, the first of which is its name. An `Err` has the text to show, help
/// included.
pub fn job<'a>(alloc: Global, words: &'a [String]) -> Result<Job<'a>, Error>
    ensures ok { IfOk result (λ job. WordsAsk (map string_bytes words.entry.now) job) }
    // An Ok comes only if the parse has no fault. An Err has the kind of its fault, or memory could
    // not be allocated.
    ensures faults { FailsBy (fault_of altctl (map string_bytes words.entry.now)) result }
{
    let matches = command(alloc)?.try_get_matches_from(words)?;
    match asked(alloc, &matches)? {
        Some(job) => Ok(job),
        None => unreachable!(),
    }
}

/// The lock that the words ask for, if the job that they name takes one. An `Err` has the text to
/// show, help included, or memory could not be allocated: then there is no job either.
pub(crate) fn lock_wanted<'a>(
    alloc: Global,
    words: &'a [String],
) -> Result<Option<LockWanted<'a>>, Error>
    // It takes none exactly if the words say so, or if the job makes its file.
    ensures ok { IfOk result (λ wanted. WordsLock (map string_bytes words.entry.now) wanted) }
    ensures faults { FailsBy (fault_of altctl (map string_bytes words.entry.now)) result }
{
    let matches = command(alloc)?.try_get_matches_from(words)?;
    Ok(lock_asked(&matches))
}

/// The lock that the matches ask for.
fn lock_asked<'a>(matches: &ArgMatches<'a>) -> Option<LockWanted<'a>>
    ensures { IsLockOf (subcommand_rows_of matches.now) result }
{
    let Some((name, matches)) = matches.subcommand() else {
        return None;
    };
    let Some(file) = matches.get_str("file") else {
        return None;
    };
    lock_on(file, name, matches)
}

/// The lock on its file that a task of this name takes with these matches.
fn lock_on<'a>(file: &'a str, name: &str, matches: &ArgMatches<'_>) -> Option<LockWanted<'a>>
    ensures { option_map lock_of_wanted result ≡ lock_by name.now (rows_of (found_of matches.now)) file.now }
{
    if is_given(matches, "no-lock") {
        return None;
    }
    let access = access_of_task(name, matches)?;
    let waits = is_given(matches, "wait");
    Some(LockWanted {
        file,
        access,
        waits,
    })
}

/// What a task of this name does with its file, if that is there before it.
fn access_of_task(name: &str, matches: &ArgMatches<'_>) -> Option<Access>
    ensures { result ≡ access_by name.now (rows_of (found_of matches.now)) }
{
    match name {
        "run" => Some(session_access(is_given(matches, "read-only"))),
        "serve" => Some(session_access(is_given(matches, "read-only"))),
        "do" => Some(session_access(is_given(matches, "read-only"))),
        "check" => Some(Access::Read),
        "tree" => Some(Access::Read),
        "copy" => Some(Access::Read),
        _ => None,
    }
}

/// What a session does with its file.
fn session_access(read_only: bool) -> Access
    ensures { result ≡ access_with read_only }
{
    if read_only {
        return Access::Read;
    }
    Access::Write
}

/// The job that the matches ask for.
fn asked<'a>(alloc: Global, matches: &ArgMatches<'a>) -> Result<Option<Job<'a>>, AllocError>
    ensures { IfOk result (IsAskedOf (subcommand_rows_of matches.now)) }
{
    let Some((name, matches)) = matches.subcommand() else {
        return Ok(None);
    };
    let Some(file) = matches.get_str("file") else {
        return Ok(None);
    };
    match name {
        "create" => Ok(asked_create(matches, file)),
        "run" => Ok(asked_run(matches, file, Grouping::Lines)),
        "serve" => Ok(asked_run(matches, file, serve_grouping(matches))),
        "do" => asked_do(alloc, matches, file),
        "check" => Ok(Some(Job::Check { file })),
        "tree" => Ok(Some(Job::Tree { file })),
        "copy" => Ok(asked_copy(matches, file)),
        _ => Ok(None),
    }
}

/// The job of `create` with these matches.
fn asked_create<'a>(matches: &ArgMatches<'a>, file: &'a str) -> Option<Job<'a>>
    ensures { IsAsked (codes "create") (rows_of (found_of matches.now)) file.now result }
{
    let blocks = number_of(matches, "blocks", MIN_BLOCKS, MAX_BLOCKS)?;
    Some(Job::Create { file, blocks })
}

/// The job of `run` or `serve` with these matches.
fn asked_run<'a>(matches: &ArgMatches<'a>, file: &'a str, grouping: Grouping) -> Option<Job<'a>>
    ensures { option_map wanted_of result ≡ run_by grouping (rows_of (found_of matches.now)) file.now }
{
    let in_memory = in_memory(matches)?;
    let manner = manner(matches, OnRefusal::Ignore, grouping)?;
    Some(Job::Run {
        file,
        in_memory,
        manner,
    })
}

/// What takes effect together in `serve`: with `--planners` the batches of many planners.
fn serve_grouping(matches: &ArgMatches<'_>) -> Grouping
    ensures { result ≡ grouping_by (rows_of (found_of matches.now)) }
{
    if is_given(matches, "planners") {
        return Grouping::Planners;
    }
    Grouping::Batches
}

/// The job of `do` with these matches.
fn asked_do<'a>(
    alloc: Global,
    matches: &ArgMatches<'a>,
    file: &'a str,
) -> Result<Option<Job<'a>>, AllocError>
    ensures { IfOk result (IsAsked (codes "do") (rows_of (found_of matches.now)) file.now) }
{
    let Some(lines) = matches.get_strs("line") else {
        return Ok(None);
    };
    let Some(in_memory) = in_memory(matches) else {
        return Ok(None);
    };
    let Some(manner) = manner(matches, OnRefusal::Tell, Grouping::Lines) else {
        return Ok(None);
    };
    let input = input_of(alloc, lines)?;
    Ok(Some(Job::Do {
        file,
        input,
        in_memory,
        manner,
    }))
}

/// The job of `copy` with these matches.
fn asked_copy<'a>(matches: &ArgMatches<'a>, file: &'a str) -> Option<Job<'a>>
    ensures { IsAsked (codes "copy") (rows_of (found_of matches.now)) file.now result }
{
    let to = matches.get_str("to")?;
    let blocks = number_of(matches, "blocks", MIN_BLOCKS, MAX_BLOCKS);
    Some(Job::Copy { file, to, blocks })
}

/// How many blocks stay and wait in memory.
fn in_memory(matches: &ArgMatches<'_>) -> Option<InMemory>
    ensures { result ≡ memory_by (rows_of (found_of matches.now)) }
{
    let cache = number_of(matches, "cache", 0, MAX_CACHE)?;
    let buffer = number_of(matches, "buffer", 0, MAX_BUFFER);
    Some(InMemory { cache, buffer })
}

/// How lines are answered.
fn manner(matches: &ArgMatches<'_>, otherwise: OnRefusal, grouping: Grouping) -> Option<Manner>
    ensures { result ≡ manner_by otherwise grouping (rows_of (found_of matches.now)) }
{
    let most = number_of(matches, "grow-to", 0, MAX_BLOCKS)?;
    let on_command = on_command(
        is_given(matches, "read-only"),
        is_given(matches, "grow"),
        most,
    );
    let on_refusal = on_refusal(is_given(matches, "strict"), otherwise);
    Some(Manner {
        on_command,
        on_refusal,
        grouping,
    })
}

/// Whether the flag of this name was given.
fn is_given(matches: &ArgMatches<'_>, name: &str) -> bool
    ensures { result ≡ is_set (first_of name.now (rows_of (found_of matches.now))) }
{
    match matches.get_str(name) {
        Some(text) => text == "true",
        None => false,
    }
}

/// What a refused line means. With `--strict` it ends the session.
fn on_refusal(strict: bool, otherwise: OnRefusal) -> OnRefusal
    ensures { result ≡ (if strict then OnRefusal.Stop else otherwise) }
{
    if strict {
        return OnRefusal::Stop;
    }
    otherwise
}

/// What a line that is a command means: with `--read-only` it is refused, with `--grow-to` the
/// store may grow for it up to that many blocks, and with `--grow` up to the maximum.
fn on_command(read_only: bool, grow: bool, most: u32) -> OnCommand
    ensures { result ≡ command_with read_only grow most }
{
    if read_only {
        return OnCommand::Refuse;
    }
    if most > 0 {
        return OnCommand::GrowIfFull(most);
    }
    if grow {
        return OnCommand::GrowIfFull(MAX_BLOCKS);
    }
    OnCommand::CarryOut
}

/// The number that an argument has, if it lies in the range.
fn number_of(matches: &ArgMatches<'_>, name: &str, least: u32, most: u32) -> Option<u32>
    ensures { result ≡ number_by least most name.now (rows_of (found_of matches.now)) }
{
    let number = matches.get_one::<u32>(name)?;
    if number < least {
        return None;
    }
    if number > most {
        return None;
    }
    Some(number)
}

/// The program's command line.
fn command<'a>(alloc: Global) -> Result<Command<'a>, AllocError>
    ensures { IfOk result (λ c. app_of c ≡ altctl) }
{
    let program = with_task(top(alloc), create(alloc));
    let program = with_task(program, run(alloc));
    let program = with_task(program, serve_lines(alloc));
    let program = with_task(program, do_lines(alloc));
    let program = with_task(program, check(alloc));
    let program = with_task(program, tree(alloc));
    with_task(program, copy(alloc))
}

/// The program with one more task, if both could be made. Each `?` beside a command is a path on
/// which the command is dropped, and is proved: so they are here, once.
fn with_task<'a>(
    program: Result<Command<'a>, AllocError>,
    task: Result<Command<'a>, AllocError>,
) -> Result<Command<'a>, AllocError>
    ensures { IfOk result (AddsTask program.entry task.entry) }
{
    let program = program?;
    program.subcommand(task?)
}

fn top<'a>(alloc: Global) -> Result<Command<'a>, AllocError>
    ensures { IfOk result (λ c. app_of c ≡ top_app) }
{
    let program = described(
        alloc,
        "altctl",
        "A version managed map store with alternatives",
        help::ALTCTL,
        help::ALTCTL_AFTER,
    )
    .bin_name("altctl")?;
    Ok(program.version(help::VERSION).subcommand_required(true))
}

/// A command of this name, with the texts of its help.
fn described<'a>(
    alloc: Global,
    name: &'a str,
    about: &'a str,
    long_about: &'a str,
    after: &'a str,
) -> Command<'a>
    ensures { IsCommandOf (new_app name.entry.now) result }
{
    Command::new(alloc, name)
        .about(about)
        .long_about(long_about)
        .after_long_help(after)
}

fn create<'a>(alloc: Global) -> Result<Command<'a>, AllocError>
    ensures app { IfOk result (λ c. app_of c ≡ create_app) }
    ensures local { IfOk result (λ c. IsLocal c) }
{
    let about = "Makes a file with an empty store";
    described(alloc, "create", about, help::CREATE, help::CREATE_AFTER)
        .arg(file(alloc, "FILE", help::CREATE_FILE))?
        .arg(blocks(alloc, help::CREATE_BLOCKS, true))
}

fn run<'a>(alloc: Global) -> Result<Command<'a>, AllocError>
    ensures app { IfOk result (λ c. app_of c ≡ run_app) }
    ensures local { IfOk result (λ c. IsLocal c) }
{
    let about = "Opens a store and answers the lines of the standard input";
    let command = described(alloc, "run", about, help::RUN, help::RUN_AFTER).arg(file(
        alloc,
        "FILE",
        help::RUN_FILE,
    ))?;
    with_options(alloc, command)
}

fn serve_lines<'a>(alloc: Global) -> Result<Command<'a>, AllocError>
    ensures app { IfOk result (λ c. app_of c ≡ serve_app) }
    ensures local { IfOk result (λ c. IsLocal c) }
{
    let about = "Opens a store and carries out batches of lines of the standard input";
    let command = described(alloc, "serve", about, help::SERVE, help::SERVE_AFTER)
        .arg(file(alloc, "FILE", help::RUN_FILE))?
        .arg(flag(alloc, "planners", help::PLANNERS))?;
    with_options(alloc, command)
}

fn do_lines<'a>(alloc: Global) -> Result<Command<'a>, AllocError>
    ensures app { IfOk result (λ c. app_of c ≡ do_app) }
    ensures local { IfOk result (λ c. IsLocal c) }
{
    let about = "Opens a store and answers the lines that the words are";
    let command = described(alloc, "do", about, help::DO, help::DO_AFTER)
        .arg(file(alloc, "FILE", help::RUN_FILE))?
        .arg(line(alloc))?;
    with_options(alloc, command)
}

/// A command with the options of a session.
fn with_options<'a>(alloc: Global, command: Command<'a>) -> Result<Command<'a>, AllocError>
    ensures app { IfOk result (λ c. app_of c ≡ with_options (app_of command.entry)) }
    ensures local { IsLocal command.entry → IfOk result (λ c. IsLocal c) }
{
    with_lock(alloc, command)?
        .arg(flag(alloc, "strict", help::STRICT))?
        .arg(flag(alloc, "read-only", help::READ_ONLY))?
        .arg(flag(alloc, "grow", help::GROW))?
        .arg(grow_to(alloc))?
        .arg(amount(alloc, "cache", help::RUN_CACHE).default_value("256"))?
        .arg(amount(alloc, "buffer", help::RUN_BUFFER))
}

/// A command with the options of the file's lock.
fn with_lock<'a>(alloc: Global, command: Command<'a>) -> Result<Command<'a>, AllocError>
    ensures app { IfOk result (λ c. app_of c ≡ with_lock (app_of command.entry)) }
    ensures local { IsLocal command.entry → IfOk result (λ c. IsLocal c) }
{
    command
        .arg(flag(alloc, "no-lock", help::NO_LOCK))?
        .arg(flag(alloc, "wait", help::WAIT))
}

fn check<'a>(alloc: Global) -> Result<Command<'a>, AllocError>
    ensures app { IfOk result (λ c. app_of c ≡ check_app) }
    ensures local { IfOk result (λ c. IsLocal c) }
{
    let about = "Opens a store, changes nothing, and prints what it holds";
    let command = described(alloc, "check", about, help::CHECK, help::CHECK_AFTER).arg(file(
        alloc,
        "FILE",
        help::CHECK_FILE,
    ))?;
    with_lock(alloc, command)
}

fn tree<'a>(alloc: Global) -> Result<Command<'a>, AllocError>
    ensures app { IfOk result (λ c. app_of c ≡ tree_app) }
    ensures local { IfOk result (λ c. IsLocal c) }
{
    let about = "Opens a store, changes nothing, and draws its alternatives as a tree";
    let command = described(alloc, "tree", about, help::TREE, help::TREE_AFTER).arg(file(
        alloc,
        "FILE",
        help::CHECK_FILE,
    ))?;
    with_lock(alloc, command)
}

fn copy<'a>(alloc: Global) -> Result<Command<'a>, AllocError>
    ensures app { IfOk result (λ c. app_of c ≡ copy_app) }
    ensures local { IfOk result (λ c. IsLocal c) }
{
    let about = "Copies a store to a new file, which may be smaller or larger";
    let command = described(alloc, "copy", about, help::COPY, help::COPY_AFTER)
        .arg(file(alloc, "FROM", help::CHECK_FILE))?
        .arg(to(alloc))?
        .arg(blocks(alloc, help::COPY_BLOCKS, false))?;
    with_lock(alloc, command)
}

fn to<'a>(alloc: Global) -> Arg<'a>
    ensures { IsArgOf to_rule result }
{
    Arg::new(alloc, "to")
        .value_name("TO")
        .help(help::CREATE_FILE)
        .required(true)
}

fn file<'a>(alloc: Global, shown: &'a str, about: &'a str) -> Arg<'a>
    ensures { IsArgOf file_rule result }
{
    Arg::new(alloc, "file")
        .value_name(shown)
        .help(about)
        .required(true)
}

fn line<'a>(alloc: Global) -> Arg<'a>
    ensures { IsArgOf line_rule result }
{
    Arg::new(alloc, "line")
        .value_name("LINE")
        .help(help::DO_LINE)
        .required(true)
        .action(ArgAction::Append)
}

fn blocks<'a>(alloc: Global, about: &'a str, required: bool) -> Arg<'a>
    ensures { IsArgOf (blocks_rule required) result }
{
    Arg::new(alloc, "blocks")
        .value_name("BLOCKS")
        .help(about)
        .required(required)
        .value_parser(value_parser!(u32).range(64..=67_108_864))
}

/// The option for a number of blocks in memory.
fn amount<'a>(alloc: Global, name: &'a str, about: &'a str) -> Arg<'a>
    ensures { IsArgOf (amount_rule name.entry.now 65536) result }
{
    Arg::new(alloc, name)
        .long(name)
        .value_name("N")
        .help(about)
        .value_parser(value_parser!(u32).range(0..=65_536))
}

/// The option for the number of blocks that a store may grow to.
fn grow_to<'a>(alloc: Global) -> Arg<'a>
    ensures { IsArgOf grow_to_rule result }
{
    Arg::new(alloc, "grow-to")
        .long("grow-to")
        .value_name("N")
        .help(help::GROW_TO)
        .default_value("0")
        .value_parser(value_parser!(u32).range(0..=67_108_864))
}

fn flag<'a>(alloc: Global, name: &'a str, about: &'a str) -> Arg<'a>
    ensures { IsArgOf (flag_rule name.entry.now) result }
{
    Arg::new(alloc, name)
        .long(name)
        .help(about)
        .action(ArgAction::SetTrue)
}
