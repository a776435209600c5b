//! What the words of the command line order.

ghost use Rattle.std.specs.Prelude.{◌≡◌, IfOk, Some, false, map, option_map, string_bytes};
ghost use Rattle.std.specs.Prelude.{true};
ghost use Rattle.clap.specs.Walk.{rows_of, rule_of};
ghost use Rattle.clap.specs.Matches.{found_of, has_subcommand};
ghost use Rattle.clap.specs.Simple.{app_of, subcommand_rows_of, with_subcommand};
ghost use Rattle.clap.specs.Faults.{fault_of};
ghost use Rattle.clap.specs.Kinds.{FailsBy};
ghost use Rattle.clap.specs.declared.builder.command.Command.TheViews.{out-Command};
ghost use Rattle.command_line.specs.Orders.{any_rule, bare_program, file_rule, file_words, is_set, order_in};
ghost use Rattle.command_line.specs.Orders.{count_in, count_of, count_rule, drawing_with, draw_words};
ghost use Rattle.command_line.specs.Orders.{explore_words, exploring_with, moves_rule, moves_words, order_of};
ghost use Rattle.command_line.specs.Orders.{program_words, task_of};

use clap::builder::ValueParser;
use clap::{Arg, ArgAction, ArgMatches, Command, Error};
use drawing::Window;
use explore_runs::WitnessForm;
use std::alloc::{AllocError, Global};

/// The version that `--version` tells.
const VERSION: &str = "0.1.0";

/// The most states of a program that is explored, where the words tell no other number.
const MOST_STATES: u32 = 10_000_000;

/// What the program is to do.
#[derive(Clone, Copy, PartialEq, Eq, Debug)]
pub enum Task {
    /// Play a script, and write its report.
    Run,
    /// Play a script, and write its history.
    Moves,
    /// Check a history, and write how many moves it has.
    Check,
    /// Play a script, and write a dump of the world that it leads to.
    Dump,
    /// Run a live script on threads of the system, and write what came of it.
    Live,
    /// Explore a program, and write every outcome of it.
    Explore(Exploration),
    /// Explore a program on the Java machine itself, with at most so many states, and write every
    /// outcome of it.
    ExploreJava(u32),
    /// Draw these columns of a script.
    Draw(Window),
    /// Draw these columns of a history.
    DrawMoves(Window),
}

/// How a program is explored.
#[derive(Clone, Copy, PartialEq, Eq, Debug)]
pub struct Exploration {
    /// The most states that are explored.
    pub most: u32,
    /// What is written behind each outcome.
    pub witness: WitnessForm,
}

/// What the program is to do, and with what.
#[derive(Clone, Copy, PartialEq, Eq, Debug)]
pub struct Order<'a> {
    pub task: Task,
    /// The file to read; standard input where there is none.
    pub file: Option<&'a str>,
}

/// The order that the words behind the program's name give.
///
/// A request for help or for the version is an `Err` too: the error knows its text.
pub fn read_words<'a>(alloc: Global, words: &'a [String]) -> Result<Order<'a>, Error>
    // At Ok the words are this order.
    ensures order { IfOk result (λ order. order_in (map string_bytes words.now)
        ≡ Some (order.task, option_map (λ file. file.now) order.file)) }
    // Words that are an order fail for want of memory alone, and others with a kind of their own.
    ensures fault { FailsBy (fault_of program_words (map string_bytes words.now)) result }
{
    let program = program(alloc)?;
    let matches = program.try_get_matches_from(words)?;
    Ok(order_from(&matches))
}

/// The order of the subcommand that was met. The program requires one, so there is one.
fn order_from<'a>(matches: &ArgMatches<'a>) -> Order<'a>
    requires { has_subcommand matches.now ≡ true }
    ensures { option_map (λ p. order_of p.0 p.1) (subcommand_rows_of matches.now)
        ≡ Some (result.task, option_map (λ file. file.now) result.file) }
{
    match matches.subcommand() {
        Some((name, inner)) => order_of(name, inner),
        None => unreachable!(),
    }
}

/// The order of a subcommand, of which these matches were read.
fn order_of<'a>(name: &str, matches: &ArgMatches<'a>) -> Order<'a>
    ensures task { result.task ≡ (order_of name.now (rows_of (found_of matches.now))).0 }
    ensures file { option_map (λ file. file.now) result.file
        ≡ (order_of name.now (rows_of (found_of matches.now))).1 }
{
    let any = is_set(matches.get_str("any"));
    let moves = is_set(matches.get_str("moves"));
    let states = count_in(matches.get_str("states"));
    let from = count_in(matches.get_str("from"));
    let to = count_in(matches.get_str("to"));
    Order {
        task: task_of(name, any, moves, states, from, to),
        file: matches.get_str("file"),
    }
}

/// Whether this is the value of a flag that was given.
fn is_set(value: Option<&str>) -> bool
    ensures { result ≡ is_set (option_map (λ text. text.now) value.entry) }
{
    match value {
        Some(text) => text == "true",
        None => false,
    }
}

/// The number that was given.
fn count_in(value: Option<&str>) -> Option<u32>
    ensures { result ≡ count_in (option_map (λ text. text.now) value.entry) }
{
    match value {
        Some(text) => count_of(text),
        None => None,
    }
}

/// The number that a text writes in decimal digits, with a plus in front or without.
fn count_of(text: &str) -> Option<u32>
    ensures { result ≡ count_of text.now }
{
    text.parse().ok()
}

/// The task of a subcommand, with `--any` and `--moves` or without, and with these numbers.
fn task_of(
    name: &str,
    any: bool,
    moves: bool,
    states: Option<u32>,
    from: Option<u32>,
    to: Option<u32>,
) -> Task
    ensures { result ≡ task_of name.now any moves states from to }
{
    if name == "check" {
        Task::Check
    } else if name == "dump" {
        Task::Dump
    } else if name == "live" {
        Task::Live
    } else if name == "explore" {
        exploring_with(any, moves, states)
    } else if name == "draw" {
        drawing_with(moves, from, to)
    } else if moves {
        Task::Moves
    } else {
        Task::Run
    }
}

/// What is explored, with `--any` and `--moves` or without, and of how many states at most.
fn exploring_with(any: bool, moves: bool, states: Option<u32>) -> Task
    ensures { result ≡ exploring_with any moves states }
{
    let most = states.unwrap_or(MOST_STATES);
    if any {
        return Task::ExploreJava(most);
    }
    Task::Explore(Exploration {
        most,
        witness: if moves {
            WitnessForm::History
        } else {
            WitnessForm::Script
        },
    })
}

/// What is drawn, with `--moves` or without, and of which columns.
fn drawing_with(moves: bool, from: Option<u32>, to: Option<u32>) -> Task
    ensures { result ≡ drawing_with moves from to }
{
    let window = Window {
        first: from.unwrap_or(1),
        last: to,
    };
    if moves {
        Task::DrawMoves(window)
    } else {
        Task::Draw(window)
    }
}

/// The program, with its subcommands.
fn program<'a>(alloc: Global) -> Result<Command<'a>, AllocError>
    ensures words { IfOk result (λ program. app_of program ≡ program_words) }
    ensures local { IfOk result (λ program. (out-Command program).has_globals ≡ false) }
{
    let with_run = with_moves_command(
        alloc,
        bare_program(alloc)?,
        "run",
        "Plays a script and prints its report, or its history",
        "Prints the moves of the abstract machine and no report",
        "The script; standard input where it is left out",
    )?;
    let with_check = with_file_command(
        alloc,
        with_run,
        "check",
        "Checks whether a history is a run of the abstract machine",
        "The history; standard input where it is left out",
    )?;
    let with_dump = with_file_command(
        alloc,
        with_check,
        "dump",
        "Plays a script and prints what its threads are doing then, and who waits for whom",
        "The script; standard input where it is left out",
    )?;
    let with_live = with_file_command(
        alloc,
        with_dump,
        "live",
        "Runs the threads of a live script on threads of the system, and prints their replies",
        "The live script; standard input where it is left out",
    )?;
    let with_explore = with_explore_command(alloc, with_live)?;
    with_draw_command(alloc, with_explore)
}

/// The program without its subcommands.
fn bare_program<'a>(alloc: Global) -> Result<Command<'a>, AllocError>
    ensures words { IfOk result (λ program. app_of program ≡ bare_program) }
    ensures local { IfOk result (λ program. (out-Command program).has_globals ≡ false) }
{
    Command::new(alloc, "thinmon")
        .about("Java monitors on thin locks, one atomic step at a time")
        .version(VERSION)
        .no_binary_name(true)
        .subcommand_required(true)
        .bin_name("thinmon")
}

/// A subcommand of a file, with the flag that orders the moves.
fn moves_command<'a>(
    alloc: Global,
    name: &'a str,
    about: &'a str,
    moves_help: &'a str,
    file_help: &'a str,
) -> Result<Command<'a>, AllocError>
    ensures words { IfOk result (λ command. app_of command ≡ moves_words name.now) }
    ensures local { IfOk result (λ command. (out-Command command).has_globals ≡ false) }
{
    Command::new(alloc, name)
        .about(about)
        .arg(moves(alloc, moves_help))?
        .arg(file(alloc, file_help))
}

/// A program with a subcommand of a file and the flag `--moves` more.
fn with_moves_command<'a>(
    alloc: Global,
    program: Command<'a>,
    name: &'a str,
    about: &'a str,
    moves_help: &'a str,
    file_help: &'a str,
) -> Result<Command<'a>, AllocError>
    requires { (out-Command program).has_globals ≡ false }
    ensures words { IfOk result (λ with.
        app_of with ≡ with_subcommand (app_of program.entry) (moves_words name.now).top) }
    ensures local { IfOk result (λ with. (out-Command with).has_globals ≡ false) }
{
    let command = moves_command(alloc, name, about, moves_help, file_help)?;
    program.subcommand(command)
}

/// A subcommand of a file alone.
fn file_command<'a>(
    alloc: Global,
    name: &'a str,
    about: &'a str,
    help: &'a str,
) -> Result<Command<'a>, AllocError>
    ensures words { IfOk result (λ command. app_of command ≡ file_words name.now) }
    ensures local { IfOk result (λ command. (out-Command command).has_globals ≡ false) }
{
    Command::new(alloc, name)
        .about(about)
        .arg(file(alloc, help))
}

/// A program with a subcommand of a file alone more.
fn with_file_command<'a>(
    alloc: Global,
    program: Command<'a>,
    name: &'a str,
    about: &'a str,
    help: &'a str,
) -> Result<Command<'a>, AllocError>
    requires { (out-Command program).has_globals ≡ false }
    ensures words { IfOk result (λ with.
        app_of with ≡ with_subcommand (app_of program.entry) (file_words name.now).top) }
    ensures local { IfOk result (λ with. (out-Command with).has_globals ≡ false) }
{
    let command = file_command(alloc, name, about, help)?;
    program.subcommand(command)
}

/// The subcommand that explores.
fn explore_command<'a>(alloc: Global) -> Result<Command<'a>, AllocError>
    ensures words { IfOk result (λ command. app_of command ≡ explore_words) }
    ensures local { IfOk result (λ command. (out-Command command).has_globals ≡ false) }
{
    Command::new(alloc, "explore")
        .about("Explores every interleaving of a program and prints each outcome with a way there")
        .arg(count(
            alloc,
            "states",
            "The most states; 10000000 where it is left out",
        ))?
        .arg(any(alloc))?
        .arg(moves(alloc, "Prints a history for each outcome and no script"))?
        .arg(file(alloc, "The program; standard input where it is left out"))
}

/// A program with the subcommand that explores more.
fn with_explore_command<'a>(alloc: Global, program: Command<'a>) -> Result<Command<'a>, AllocError>
    requires { (out-Command program).has_globals ≡ false }
    ensures words { IfOk result (λ with.
        app_of with ≡ with_subcommand (app_of program.entry) explore_words.top) }
    ensures local { IfOk result (λ with. (out-Command with).has_globals ≡ false) }
{
    let command = explore_command(alloc)?;
    program.subcommand(command)
}

/// The subcommand that draws.
fn draw_command<'a>(alloc: Global) -> Result<Command<'a>, AllocError>
    ensures words { IfOk result (λ command. app_of command ≡ draw_words) }
    ensures local { IfOk result (λ command. (out-Command command).has_globals ≡ false) }
{
    Command::new(alloc, "draw")
        .about("Draws what the threads of a script do, and who owns its objects, as SVG")
        .arg(count(alloc, "from", "The first column that is drawn, from 1"))?
        .arg(count(alloc, "to", "The last column that is drawn"))?
        .arg(moves(alloc, "Draws a history of moves and no script"))?
        .arg(file(
            alloc,
            "The script or the history; standard input where it is left out",
        ))
}

/// A program with the subcommand that draws more.
fn with_draw_command<'a>(alloc: Global, program: Command<'a>) -> Result<Command<'a>, AllocError>
    requires { (out-Command program).has_globals ≡ false }
    ensures words { IfOk result (λ with.
        app_of with ≡ with_subcommand (app_of program.entry) draw_words.top) }
    ensures local { IfOk result (λ with. (out-Command with).has_globals ≡ false) }
{
    let command = draw_command(alloc)?;
    program.subcommand(command)
}

/// An option that tells a number, from 1 on.
fn count<'a>(alloc: Global, id: &'a str, help: &'a str) -> Arg<'a>
    ensures rule { rule_of result ≡ count_rule id.now }
    ensures local { result.global ≡ false }
{
    Arg::new(alloc, id)
        .long(id)
        .value_name("N")
        .action(ArgAction::Set)
        .value_parser(ValueParser::Unsigned(1, 4_294_967_295))
        .help(help)
}

/// The flag that orders the Java machine itself.
fn any<'a>(alloc: Global) -> Arg<'a>
    ensures rule { rule_of result ≡ any_rule }
    ensures local { result.global ≡ false }
{
    Arg::new(alloc, "any")
        .long("any")
        .action(ArgAction::SetTrue)
        .help("Explores the Java machine itself, which may notify any waiter, and prints histories")
}

/// The flag that orders the moves.
fn moves<'a>(alloc: Global, help: &'a str) -> Arg<'a>
    ensures rule { rule_of result ≡ moves_rule }
    ensures local { result.global ≡ false }
{
    Arg::new(alloc, "moves")
        .long("moves")
        .action(ArgAction::SetTrue)
        .help(help)
}

/// The argument that names the file to read.
fn file<'a>(alloc: Global, help: &'a str) -> Arg<'a>
    ensures rule { rule_of result ≡ file_rule }
    ensures local { result.global ≡ false }
{
    Arg::new(alloc, "file")
        .value_name("FILE")
        .action(ArgAction::Set)
        .help(help)
}
