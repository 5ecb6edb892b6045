//! The command line.

ghost use Rattle.std.specs.Prelude.{◌≡◌, ◌≢◌, IfErr, IfOk, IfSome, IfNone, map, false, Some, codes};
ghost use Rattle.std.specs.Option.{option_map};
ghost use Rattle.clap.specs.Words.{rule_of, app_of, rows_of, found_of, first_of, kind_of, subcommand_of, subcommand_rows_of};
ghost use Rattle.clap.specs.Words.{with_rule, with_subcommand};
ghost use Rattle.clap.specs.declared.builder.command.Command.TheViews.{out-Command as fields_of};
ghost use Rattle.command_line.specs.Orders.{db_rule, interface_rule, approval_rule, port_rule, connections_rule, file_rule, run_app, port_app};
ghost use Rattle.command_line.specs.Orders.{serve_app, import_app, rollout_rule, report_app, verify_app, serving_app, asking_app, program_app};
ghost use Rattle.command_line.specs.Orders.{interface_word, is_given, number_in_range, IsSetup, NamesSetup, IsOrder, NamesOrder, AreFaultless, AreRefused};

use clap::error::ErrorKind;
use clap::{Arg, ArgAction, ArgMatches, Command, Error};
use request_target::number_or;
use rollout_model::RolloutNo;
use rollout_model::limits::NUMBER_LIMIT;
use std::alloc::{AllocError, Global};
use std::convert::AsStr;
use stream_server::Interface;

/// What `--version` tells: as the file VERSION has it.
const VERSION: &str = "1.0.0";

/// Which desk an order serves, and to whom.
#[derive(Clone, Copy)]
pub struct Setup<'a> {
    /// The path of the database.
    pub db: &'a str,
    pub interface: Interface,
    /// Whether a new desk asks for approval of each rollout.
    pub approval: bool,
}

/// What the command line asks for.
#[derive(Clone, Copy)]
pub enum Order<'a> {
    /// Serves standard input to standard output.
    Run(Setup<'a>),
    /// Serves so many connections to a port of this machine, one after the other.
    Serve {
        setup: Setup<'a>,
        port: u16,
        connections: u32,
    },
    /// Puts the targets of a file.
    Import {
        /// The path of the database.
        db: &'a str,
        /// The path of the file.
        file: &'a str,
    },
    /// Prints the report of a rollout.
    Report {
        /// The path of the database.
        db: &'a str,
        rollout: RolloutNo,
    },
    /// Prints whether the tables agree with what they are to have.
    Verify {
        /// The path of the database.
        db: &'a str,
    },
}

/// Why the words name no order.
#[derive(Clone, Copy)]
enum Misuse {
    Subcommand,
    Interface,
    Port,
    Connections,
    File,
    Rollout,
}

impl Misuse {
    fn kind(self) -> ErrorKind {
        match self {
            Misuse::Subcommand => ErrorKind::MissingSubcommand,
            Misuse::Interface
            | Misuse::Port
            | Misuse::Connections
            | Misuse::File
            | Misuse::Rollout => ErrorKind::InvalidValue,
        }
    }

    fn text(self) -> &'static str {
        match self {
            Misuse::Subcommand => "a subcommand is needed: run, serve, import, report, verify",
            Misuse::Interface => "the interface is one of: ddi, mgmt, both",
            Misuse::Port => "the port is a number from 1 to 65535",
            Misuse::Connections => "the connections are a number from 1 to 1000000",
            Misuse::File => "the database and the file are paths",
            Misuse::Rollout => "the rollout is a number from 1 to 2147483647",
        }
    }
}

fn db<'a>(alloc: Global) -> Arg<'a>
    ensures rule { rule_of result ≡ db_rule }
    ensures local { result.global ≡ false }
{
    Arg::new(alloc, "db")
        .long("db")
        .action(ArgAction::Set)
        .required(true)
        .help("The database, made where it is missing")
}

fn interface<'a>(alloc: Global) -> Arg<'a>
    ensures rule { rule_of result ≡ interface_rule }
    ensures local { result.global ≡ false }
{
    Arg::new(alloc, "interface")
        .long("interface")
        .action(ArgAction::Set)
        .required(true)
        .help("Which calls are served: ddi (devices), mgmt (operators) or both")
}

fn approval<'a>(alloc: Global) -> Arg<'a>
    ensures rule { rule_of result ≡ approval_rule }
    ensures local { result.global ≡ false }
{
    Arg::new(alloc, "approval")
        .long("approval")
        .action(ArgAction::SetTrue)
        .help("A new desk asks for approval of each rollout")
}

/// A subcommand with one more option.
fn with_option<'a>(command: Command<'a>, option: Arg<'a>) -> Result<Command<'a>, AllocError>
    ensures app { IfOk result (λ c. option.entry.global ≡ false → app_of c ≡ with_rule (app_of command.entry) (rule_of option.entry)) }
    ensures local { IfOk result (λ c. option.entry.global ≡ false → (fields_of c).has_globals ≡ (fields_of command.entry).has_globals) }
{
    let with_option = command.arg(option)?;
    Ok(with_option)
}

/// The program with one more subcommand.
fn with_order<'a>(program: Command<'a>, order: Command<'a>) -> Result<Command<'a>, AllocError>
    ensures { IfOk result (λ c. (fields_of order.entry).has_globals ≡ false
        → app_of c ≡ with_subcommand (app_of program.entry) (app_of order.entry).top) }
{
    let with_order = program.subcommand(order)?;
    Ok(with_order)
}

fn run<'a>(alloc: Global) -> Result<Command<'a>, AllocError>
    ensures app { IfOk result (λ c. app_of c ≡ run_app) }
    ensures local { IfOk result (λ c. (fields_of c).has_globals ≡ false) }
{
    let run = Command::new(alloc, "run").about(
        "Serves the requests of standard input to standard output",
    );
    let with_db = with_option(run, db(alloc))?;
    let with_interface = with_option(with_db, interface(alloc))?;
    let with_approval = with_option(with_interface, approval(alloc))?;
    Ok(with_approval)
}

fn port<'a>(alloc: Global) -> Arg<'a>
    ensures rule { rule_of result ≡ port_rule }
    ensures local { result.global ≡ false }
{
    Arg::new(alloc, "port")
        .long("port")
        .action(ArgAction::Set)
        .required(true)
        .help("The port of 127.0.0.1 that is served: 1 to 65535")
}

fn connections<'a>(alloc: Global) -> Arg<'a>
    ensures rule { rule_of result ≡ connections_rule }
    ensures local { result.global ≡ false }
{
    Arg::new(alloc, "connections")
        .long("connections")
        .action(ArgAction::Set)
        .required(true)
        .help("How many connections are served before it ends: 1 to 1000000")
}

/// The subcommand `serve`, of which only the port and the connections are known yet.
fn serve_port<'a>(alloc: Global) -> Result<Command<'a>, AllocError>
    ensures app { IfOk result (λ c. app_of c ≡ port_app) }
    ensures local { IfOk result (λ c. (fields_of c).has_globals ≡ false) }
{
    let serve = Command::new(alloc, "serve").about(
        "Serves connections to a port of 127.0.0.1, one after the other",
    );
    let with_port = with_option(serve, port(alloc))?;
    let with_connections = with_option(with_port, connections(alloc))?;
    Ok(with_connections)
}

fn serve<'a>(alloc: Global) -> Result<Command<'a>, AllocError>
    ensures app { IfOk result (λ c. app_of c ≡ serve_app) }
    ensures local { IfOk result (λ c. (fields_of c).has_globals ≡ false) }
{
    let with_db = with_option(serve_port(alloc)?, db(alloc))?;
    let with_interface = with_option(with_db, interface(alloc))?;
    let with_approval = with_option(with_interface, approval(alloc))?;
    Ok(with_approval)
}

fn file<'a>(alloc: Global) -> Arg<'a>
    ensures rule { rule_of result ≡ file_rule }
    ensures local { result.global ≡ false }
{
    Arg::new(alloc, "file")
        .long("file")
        .action(ArgAction::Set)
        .required(true)
        .help("The file of targets that is imported: CSV, no longer than the body of a request")
}

fn import<'a>(alloc: Global) -> Result<Command<'a>, AllocError>
    ensures app { IfOk result (λ c. app_of c ≡ import_app) }
    ensures local { IfOk result (λ c. (fields_of c).has_globals ≡ false) }
{
    let import = Command::new(alloc, "import").about("Puts the targets of a CSV file");
    let with_db = with_option(import, db(alloc))?;
    let with_file = with_option(with_db, file(alloc))?;
    Ok(with_file)
}

fn rollout<'a>(alloc: Global) -> Arg<'a>
    ensures rule { rule_of result ≡ rollout_rule }
    ensures local { result.global ≡ false }
{
    Arg::new(alloc, "rollout")
        .long("rollout")
        .action(ArgAction::Set)
        .required(true)
        .help("The rollout that is reported: 1 to 2147483647")
}

fn report<'a>(alloc: Global) -> Result<Command<'a>, AllocError>
    ensures app { IfOk result (λ c. app_of c ≡ report_app) }
    ensures local { IfOk result (λ c. (fields_of c).has_globals ≡ false) }
{
    let report = Command::new(alloc, "report").about("Prints how far a rollout is");
    let with_db = with_option(report, db(alloc))?;
    let with_rollout = with_option(with_db, rollout(alloc))?;
    Ok(with_rollout)
}

fn verify<'a>(alloc: Global) -> Result<Command<'a>, AllocError>
    ensures app { IfOk result (λ c. app_of c ≡ verify_app) }
    ensures local { IfOk result (λ c. (fields_of c).has_globals ≡ false) }
{
    let verify = Command::new(alloc, "verify").about("Prints ok, or the first damaged table");
    with_option(verify, db(alloc))
}

/// The program with the subcommands that serve.
fn serving<'a>(alloc: Global) -> Result<Command<'a>, AllocError>
    ensures app { IfOk result (λ c. app_of c ≡ serving_app) }
{
    let run = run(alloc)?;
    let serve = serve(alloc)?;
    let named = Command::new(alloc, "fwdesk").version(VERSION);
    let with_run = with_order(named, run)?;
    let with_serve = with_order(with_run, serve)?;
    Ok(with_serve)
}

/// The same with those that ask once and end.
fn asking<'a>(alloc: Global) -> Result<Command<'a>, AllocError>
    ensures app { IfOk result (λ c. app_of c ≡ asking_app) }
{
    let import = import(alloc)?;
    let report = report(alloc)?;
    let with_import = with_order(serving(alloc)?, import)?;
    let with_report = with_order(with_import, report)?;
    Ok(with_report)
}

fn program<'a>(alloc: Global) -> Result<Command<'a>, AllocError>
    ensures app { IfOk result (λ c. app_of c ≡ program_app) }
{
    let verify = verify(alloc)?;
    with_order(asking(alloc)?, verify)
}

fn interface_of(word: &str) -> Option<Interface>
    ensures some { IfSome result (λ interface. word.now ≡ interface_word interface) }
    ensures none { IfNone result ((interface : Interface) → word.now ≢ interface_word interface) }
{
    if word == "ddi" {
        Some(Interface::Devices)
    } else if word == "mgmt" {
        Some(Interface::Management)
    } else if word == "both" {
        Some(Interface::Both)
    } else {
        None
    }
}

/// Whether a flag was given.
fn is_given(word: Option<&str>) -> bool
    ensures { result ≡ is_given (option_map (λ s. s.now) word.entry) }
{
    match word {
        Some(word) => word == "true",
        None => false,
    }
}

/// What the values of a subcommand say of the desk.
fn setup_of<'a>(matches: &ArgMatches<'a>) -> Option<Setup<'a>>
    ensures some { IfSome result (IsSetup (rows_of (found_of matches.now))) }
    ensures none { IfNone result (¬ NamesSetup (rows_of (found_of matches.now))) }
{
    let db = matches.get_str("db")?;
    let interface = interface_of(matches.get_str("interface")?)?;
    Some(Setup {
        db,
        interface,
        approval: is_given(matches.get_str("approval")),
    })
}

/// The number that a text writes, in a range.
fn number_given(text: Option<&str>, low: u32, high: u32) -> Option<u32>
    ensures { result ≡ number_in_range low high (option_map (λ s. s.now) text.entry) }
{
    match text {
        Some(text) => number_or(low, high, low, Some(text)),
        None => None,
    }
}

/// The number of an option, in a range.
fn number(matches: &ArgMatches<'_>, id: &str, low: u32, high: u32) -> Option<u32>
    ensures { result ≡ number_in_range low high (first_of id.now (rows_of (found_of matches.now))) }
{
    number_given(matches.get_str(id), low, high)
}

fn port_of(matches: &ArgMatches<'_>) -> Option<u16>
    ensures { result ≡ number_in_range 1 65535 (first_of (codes "port") (rows_of (found_of matches.now))) }
{
    let number = number(matches, "port", 1, 65535)?;
    u16::try_from(number).ok()
}

/// The order that the values of `run` name.
fn run_of<'a>(matches: &ArgMatches<'a>) -> Result<Order<'a>, Misuse>
    ensures ok { IfOk result (IsOrder (Some (codes "run", rows_of (found_of matches.now)))) }
    ensures err { IfErr result (λ misuse. ¬ NamesOrder (Some (codes "run", rows_of (found_of matches.now)))) }
{
    let Some(setup) = setup_of(matches) else {
        return Err(Misuse::Interface);
    };
    Ok(Order::Run(setup))
}

/// The order that the values of `serve` name.
fn serve_of<'a>(matches: &ArgMatches<'a>) -> Result<Order<'a>, Misuse>
    ensures ok { IfOk result (IsOrder (Some (codes "serve", rows_of (found_of matches.now)))) }
    ensures err { IfErr result (λ misuse. ¬ NamesOrder (Some (codes "serve", rows_of (found_of matches.now)))) }
{
    let Some(setup) = setup_of(matches) else {
        return Err(Misuse::Interface);
    };
    let Some(port) = port_of(matches) else {
        return Err(Misuse::Port);
    };
    let Some(connections) = number(matches, "connections", 1, 1_000_000) else {
        return Err(Misuse::Connections);
    };
    Ok(Order::Serve {
        setup,
        port,
        connections,
    })
}

/// The order that the values of `import` name.
fn import_of<'a>(matches: &ArgMatches<'a>) -> Result<Order<'a>, Misuse>
    ensures ok { IfOk result (IsOrder (Some (codes "import", rows_of (found_of matches.now)))) }
    ensures err { IfErr result (λ misuse. ¬ NamesOrder (Some (codes "import", rows_of (found_of matches.now)))) }
{
    let Some(db) = matches.get_str("db") else {
        return Err(Misuse::File);
    };
    let Some(file) = matches.get_str("file") else {
        return Err(Misuse::File);
    };
    Ok(Order::Import { db, file })
}

fn rollout_of(matches: &ArgMatches<'_>) -> Option<RolloutNo>
    ensures { result ≡ number_in_range 1 2147483647 (first_of (codes "rollout") (rows_of (found_of matches.now))) }
{
    let number = number(matches, "rollout", 1, NUMBER_LIMIT)?;
    RolloutNo::new(number)
}

/// The order that the values of `report` name.
fn report_of<'a>(matches: &ArgMatches<'a>) -> Result<Order<'a>, Misuse>
    ensures ok { IfOk result (IsOrder (Some (codes "report", rows_of (found_of matches.now)))) }
    ensures err { IfErr result (λ misuse. ¬ NamesOrder (Some (codes "report", rows_of (found_of matches.now)))) }
{
    let Some(db) = matches.get_str("db") else {
        return Err(Misuse::File);
    };
    let Some(rollout) = rollout_of(matches) else {
        return Err(Misuse::Rollout);
    };
    Ok(Order::Report { db, rollout })
}

/// The order that the values of `verify` name.
fn verify_of<'a>(matches: &ArgMatches<'a>) -> Result<Order<'a>, Misuse>
    ensures ok { IfOk result (IsOrder (Some (codes "verify", rows_of (found_of matches.now)))) }
    ensures err { IfErr result (λ misuse. ¬ NamesOrder (Some (codes "verify", rows_of (found_of matches.now)))) }
{
    let Some(db) = matches.get_str("db") else {
        return Err(Misuse::File);
    };
    Ok(Order::Verify { db })
}

/// The order that the matches of the program name.
fn order_of<'a>(matches: &ArgMatches<'a>) -> Result<Order<'a>, Misuse>
    ensures ok { IfOk result (IsOrder (subcommand_rows_of matches.now)) }
    ensures err { IfErr result (λ misuse. ¬ NamesOrder (subcommand_rows_of matches.now)) }
{
    if let Some(run) = matches.subcommand_matches("run") {
        return run_of(run);
    }
    if let Some(serve) = matches.subcommand_matches("serve") {
        return serve_of(serve);
    }
    if let Some(import) = matches.subcommand_matches("import") {
        return import_of(import);
    }
    if let Some(report) = matches.subcommand_matches("report") {
        return report_of(report);
    }
    if let Some(verify) = matches.subcommand_matches("verify") {
        return verify_of(verify);
    }
    Err(Misuse::Subcommand)
}

/// The order that the words name, the first being the program's own name. Refused where `clap` refuses the words, where they name no
/// subcommand, or where a value is none that its option takes.
pub fn read_order<'a, S: AsStr>(alloc: Global, words: &'a [S]) -> Result<Order<'a>, Error>
    ensures taken { IfOk result (IsOrder (subcommand_of program_app (map S.text words.entry.now))) }
    ensures faultless { IfOk result (λ _. AreFaultless (map S.text words.entry.now)) }
    ensures refused { IfErr result (λ error. kind_of error ≢ ErrorKind.OutOfMemory → AreRefused (map S.text words.entry.now)) }
{
    let mut command = program(alloc)?;
    let matches = command.try_get_matches_from_mut(words)?;
    match order_of(&matches) {
        Ok(order) => Ok(order),
        Err(misuse) => {
            let error = command.error(misuse.kind(), misuse.text())?;
            Err(error)
        }
    }
}
