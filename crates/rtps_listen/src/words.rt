//! The words of the command line.

ghost use Rattle.std.specs.Prelude.{◌≡◌, IfOk, false, map};
ghost use Rattle.clap.specs.Words.{FailsBy, HasMatchesOf, app_of, fault_of, subcommand_of};
ghost use Rattle.clap.specs.declared.builder.command.Command.TheViews.{out-Command};
ghost use Rattle.rtps_listen.specs.Line as line;
ghost use Rattle.rtps_listen.specs.Line.{IsPlainApp, IsPlainRule};
ghost use Rattle.rtps_listen.specs.Request.{Asks};

use crate::options::{ADDRESS, OWN, TOPIC, TYPE_NAME};
use crate::request::{Request, request_of};
use clap::{Arg, ArgAction, ArgMatches, Command, Error, value_parser};
use std::alloc::{AllocError, Global};
use std::convert::AsStr;

/// Returns the command with its subcommands.
#[tactic(auto, unfolding(crate::specs::Line::listen_app))]
fn command<'a>(alloc: Global) -> Result<Command<'a>, AllocError>
    ensures { IfOk result (λ c. IsPlainApp c line.listen_app) }
{
    printing_command(alloc)?
        .subcommand(samples_command(alloc)?)?
        .subcommand(live_command(alloc)?)
}

#[tactic(auto, unfolding(crate::specs::Line::printing_app))]
fn printing_command<'a>(alloc: Global) -> Result<Command<'a>, AllocError>
    ensures { IfOk result (λ c. IsPlainApp c line.printing_app) }
{
    Command::new(alloc, "rtps_listen")
        .subcommand(dump_command(alloc)?)?
        .subcommand(explain_command(alloc)?)?
        .subcommand(replay_command(alloc)?)
}

#[tactic(auto, unfolding(crate::specs::Line::dump_app))]
fn dump_command<'a>(alloc: Global) -> Result<Command<'a>, AllocError>
    ensures { IfOk result (λ c. IsPlainApp c line.dump_app) }
{
    Command::new(alloc, "dump")
        .about("Prints a line for each event in a record file")
        .arg(file(alloc))?
        .arg(own(alloc))
}

#[tactic(auto, unfolding(crate::specs::Line::explain_app))]
fn explain_command<'a>(alloc: Global) -> Result<Command<'a>, AllocError>
    ensures { IfOk result (λ c. IsPlainApp c line.explain_app) }
{
    Command::new(alloc, "explain")
        .about("Prints a line for each submessage in a record file, and counts them")
        .arg(file(alloc))?
        .arg(own(alloc))
}

#[tactic(auto, unfolding(crate::specs::Line::replay_app))]
fn replay_command<'a>(alloc: Global) -> Result<Command<'a>, AllocError>
    ensures { IfOk result (λ c. IsPlainApp c line.replay_app) }
{
    with_options(
        alloc,
        Command::new(alloc, "replay")
            .about("Runs readers over a record file, and prints what they report and answer")
            .arg(file(alloc))?,
    )
}

#[tactic(auto, unfolding(crate::specs::Line::samples_app))]
fn samples_command<'a>(alloc: Global) -> Result<Command<'a>, AllocError>
    ensures { IfOk result (λ c. IsPlainApp c line.samples_app) }
{
    with_options(
        alloc,
        Command::new(alloc, "samples")
            .about("Runs readers over a record file, and prints what is in their caches at the end")
            .arg(file(alloc))?
            .arg(keep(alloc))?,
    )
}

#[tactic(auto, unfolding(crate::specs::Line::live_app))]
fn live_command<'a>(alloc: Global) -> Result<Command<'a>, AllocError>
    ensures { IfOk result (λ c. IsPlainApp c line.live_app) }
{
    let command = Command::new(alloc, "listen").about(
        "Runs readers on the datagrams of a domain, and sends what they answer",
    );
    let command = with_ends(alloc, with_place(alloc, command)?)?;
    with_options(alloc, with_reach(alloc, command)?)
}

/// Adds the options for the domain and the address.
#[tactic(auto, unfolding(crate::specs::Line::with_place))]
fn with_place<'a>(alloc: Global, command: Command<'a>) -> Result<Command<'a>, AllocError>
    requires { (out-Command command).has_globals ≡ false }
    ensures { IfOk result (λ c. IsPlainApp c (line.with_place (app_of command.entry))) }
{
    command.arg(domain(alloc))?.arg(address(alloc))
}

/// Adds the options for the end of the run.
#[tactic(auto, unfolding(crate::specs::Line::with_ends))]
fn with_ends<'a>(alloc: Global, command: Command<'a>) -> Result<Command<'a>, AllocError>
    requires { (out-Command command).has_globals ≡ false }
    ensures { IfOk result (λ c. IsPlainApp c (line.with_ends (app_of command.entry))) }
{
    command.arg(count(alloc))?.arg(turns(alloc))
}

/// Adds the options for how the participant announces itself.
#[tactic(auto, unfolding(crate::specs::Line::with_reach))]
fn with_reach<'a>(alloc: Global, command: Command<'a>) -> Result<Command<'a>, AllocError>
    requires { (out-Command command).has_globals ≡ false }
    ensures { IfOk result (λ c. IsPlainApp c (line.with_reach (app_of command.entry))) }
{
    command
        .arg(announce(alloc))?
        .arg(peers(alloc))?
        .arg(no_multicast(alloc))?
        .arg(lease(alloc))
}

/// Adds the options of a subcommand that runs readers.
fn with_options<'a>(alloc: Global, command: Command<'a>) -> Result<Command<'a>, AllocError>
    requires { (out-Command command).has_globals ≡ false }
    ensures { IfOk result (λ c. IsPlainApp c (line.with_options (app_of command.entry))) }
{
    with_flags(alloc, with_names(alloc, with_sizes(alloc, command)?)?)
}

/// Adds the options for the workers, the batches and the number of readers.
#[tactic(auto, unfolding(crate::specs::Line::with_sizes))]
fn with_sizes<'a>(alloc: Global, command: Command<'a>) -> Result<Command<'a>, AllocError>
    requires { (out-Command command).has_globals ≡ false }
    ensures { IfOk result (λ c. IsPlainApp c (line.with_sizes (app_of command.entry))) }
{
    command
        .arg(workers(alloc))?
        .arg(batch(alloc))?
        .arg(readers(alloc))
}

/// Adds the options for the topic, its type, the participant and the writer that is known from the start.
#[tactic(auto, unfolding(crate::specs::Line::with_names))]
fn with_names<'a>(alloc: Global, command: Command<'a>) -> Result<Command<'a>, AllocError>
    requires { (out-Command command).has_globals ≡ false }
    ensures { IfOk result (λ c. IsPlainApp c (line.with_names (app_of command.entry))) }
{
    command
        .arg(topic(alloc))?
        .arg(type_name(alloc))?
        .arg(own(alloc))?
        .arg(fixed(alloc))
}

/// Adds the flags.
#[tactic(auto, unfolding(crate::specs::Line::with_flags))]
fn with_flags<'a>(alloc: Global, command: Command<'a>) -> Result<Command<'a>, AllocError>
    requires { (out-Command command).has_globals ≡ false }
    ensures { IfOk result (λ c. IsPlainApp c (line.with_flags (app_of command.entry))) }
{
    command
        .arg(no_key(alloc))?
        .arg(best_effort(alloc))?
        .arg(raw(alloc))?
        .arg(summary(alloc))
}

fn file<'a>(alloc: Global) -> Arg<'a>
    ensures { IsPlainRule result line.file_rule }
{
    Arg::new(alloc, "file")
        .value_name("FILE")
        .help("A record file, or - for standard input")
        .required(true)
}

fn own<'a>(alloc: Global) -> Arg<'a>
    ensures { IsPlainRule result line.own_rule }
{
    Arg::new(alloc, "own")
        .value_name("HEX")
        .help("The prefix of the participant that reads, 24 hex digits")
        .long("own")
        .default_value(OWN)
}

fn workers<'a>(alloc: Global) -> Arg<'a>
    ensures { IsPlainRule result line.workers_rule }
{
    Arg::new(alloc, "workers")
        .value_name("COUNT")
        .help("How many threads share a batch that is large enough, 1 to 64; the text is the same")
        .long("workers")
        .value_parser(value_parser!(u32).range(1..65))
        .default_value("1")
}

fn batch<'a>(alloc: Global) -> Arg<'a>
    ensures { IsPlainRule result line.batch_rule }
{
    Arg::new(alloc, "batch")
        .value_name("COUNT")
        .help("How many datagrams at a time, 1 to 4096 (512, or 2048 with several workers)")
        .long("batch")
        .value_parser(value_parser!(u32).range(1..4097))
}

fn readers<'a>(alloc: Global) -> Arg<'a>
    ensures { IsPlainRule result line.readers_rule }
{
    Arg::new(alloc, "readers")
        .value_name("COUNT")
        .help("How many readers there are, 1 to 8")
        .long("readers")
        .value_parser(value_parser!(u32).range(1..9))
        .default_value("1")
}

fn keep<'a>(alloc: Global) -> Arg<'a>
    ensures { IsPlainRule result line.keep_rule }
{
    Arg::new(alloc, "keep")
        .value_name("COUNT")
        .help("How many entries are kept of an instance, 1 to 65536, or 0 for all")
        .long("keep")
        .value_parser(value_parser!(u32).range(0..65_537))
        .default_value("0")
}

fn topic<'a>(alloc: Global) -> Arg<'a>
    ensures { IsPlainRule result line.topic_rule }
{
    Arg::new(alloc, "topic")
        .value_name("TEXT")
        .help("The topic of the readers")
        .long("topic")
        .default_value(TOPIC)
}

fn type_name<'a>(alloc: Global) -> Arg<'a>
    ensures { IsPlainRule result line.type_rule }
{
    Arg::new(alloc, "type")
        .value_name("TEXT")
        .help(
            "The name of the topic's type, as writers announce it; for one but ShapeType use --raw",
        )
        .long("type")
        .default_value(TYPE_NAME)
}

fn fixed<'a>(alloc: Global) -> Arg<'a>
    ensures { IsPlainRule result line.fixed_rule }
{
    Arg::new(alloc, "fixed")
        .value_name("HEX")
        .help("A writer that each reader is matched with from the start, 32 hex digits")
        .long("fixed")
}

fn no_key<'a>(alloc: Global) -> Arg<'a>
    ensures { IsPlainRule result line.no_key_rule }
{
    Arg::new(alloc, "no-key")
        .help(
            "The topic has no key, as most topics of ROS 2: writers match only readers that say so",
        )
        .long("no-key")
        .action(ArgAction::SetTrue)
}

fn best_effort<'a>(alloc: Global) -> Arg<'a>
    ensures { IsPlainRule result line.best_effort_rule }
{
    Arg::new(alloc, "best-effort")
        .help("Readers take what comes, and ask for nothing again")
        .long("best-effort")
        .action(ArgAction::SetTrue)
}

fn raw<'a>(alloc: Global) -> Arg<'a>
    ensures { IsPlainRule result line.raw_rule }
{
    Arg::new(alloc, "raw")
        .help("Values are printed as octets, of whatever type")
        .long("raw")
        .action(ArgAction::SetTrue)
}

fn summary<'a>(alloc: Global) -> Arg<'a>
    ensures { IsPlainRule result line.summary_rule }
{
    Arg::new(alloc, "summary")
        .help("Matches and statuses are printed at the end")
        .long("summary")
        .action(ArgAction::SetTrue)
}

fn domain<'a>(alloc: Global) -> Arg<'a>
    ensures { IsPlainRule result line.domain_rule }
{
    Arg::new(alloc, "domain")
        .value_name("DOMAIN")
        .help("The domain to listen in, 0 to 232")
        .long("domain")
        .value_parser(value_parser!(u16).range(0..233))
        .required(true)
}

fn count<'a>(alloc: Global) -> Arg<'a>
    ensures { IsPlainRule result line.count_rule }
{
    Arg::new(alloc, "count")
        .value_name("COUNT")
        .help("How many datagrams to take, 1 to 65536")
        .long("count")
        .value_parser(value_parser!(u32).range(1..65_537))
        .required(true)
}

fn turns<'a>(alloc: Global) -> Arg<'a>
    ensures { IsPlainRule result line.turns_rule }
{
    Arg::new(alloc, "turns")
        .value_name("COUNT")
        .help("How many times to wait for datagrams, 1 to 100000")
        .long("turns")
        .value_parser(value_parser!(u32).range(1..100_001))
        .default_value("600")
}

fn address<'a>(alloc: Global) -> Arg<'a>
    ensures { IsPlainRule result line.address_rule }
{
    Arg::new(alloc, "address")
        .value_name("ADDRESS")
        .help("The address to receive at: one of this machine, or 0.0.0.0 for all of them")
        .long("address")
        .default_value(ADDRESS)
}

fn announce<'a>(alloc: Global) -> Arg<'a>
    ensures { IsPlainRule result line.announce_rule }
{
    Arg::new(alloc, "announce")
        .help("The participant announces itself and its readers, at the first free ports")
        .long("announce")
        .action(ArgAction::SetTrue)
}

fn peers<'a>(alloc: Global) -> Arg<'a>
    ensures { IsPlainRule result line.peers_rule }
{
    Arg::new(alloc, "peers")
        .value_name("ADDRESSES")
        .help("Where it announces itself besides, 12 addresses at most with commas between them")
        .long("peers")
}

fn no_multicast<'a>(alloc: Global) -> Arg<'a>
    ensures { IsPlainRule result line.no_multicast_rule }
{
    Arg::new(alloc, "no-multicast")
        .help("It doesn't announce itself to the group of the domain")
        .long("no-multicast")
        .action(ArgAction::SetTrue)
}

fn lease<'a>(alloc: Global) -> Arg<'a>
    ensures { IsPlainRule result line.lease_rule }
{
    Arg::new(alloc, "lease")
        .value_name("SECONDS")
        .help("How long others remember it while it is silent, 2 to 86400 (10)")
        .long("lease")
        .value_parser(value_parser!(u32).range(2..86_401))
}

/// Returns what clap finds in the words. This, or the error if the line is a bad one, depends on
/// the words alone; if memory runs out, that is the error instead.
pub fn found<'a, S: AsStr>(alloc: Global, words: &'a [S]) -> Result<ArgMatches<'a>, Error>
    ensures matches { IfOk result (HasMatchesOf line.listen_app (map S.text words.entry.now)) }
    ensures fails { FailsBy (fault_of line.listen_app (map S.text words.entry.now)) result }
{
    match command(alloc) {
        Ok(command) => command.try_get_matches_from(words),
        Err(e) => Err(Error::from(e)),
    }
}

/// Returns what the words ask for; the first one is the program's name.
pub fn read_words<'a, S: AsStr>(alloc: Global, words: &'a [S]) -> Result<Request<'a>, Error>
    ensures asks { IfOk result (λ request. Asks request
        (subcommand_of line.listen_app (map S.text words.entry.now))) }
    ensures fails { FailsBy (fault_of line.listen_app (map S.text words.entry.now)) result }
{
    match found(alloc, words) {
        Ok(matches) => Ok(request_of(matches.subcommand())),
        Err(error) => Err(error),
    }
}
