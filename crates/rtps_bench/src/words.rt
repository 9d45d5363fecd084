//! The words of the command line.

ghost use Rattle.std.specs.Prelude.{◌≡◌, IfOk, false, map};
ghost use Rattle.clap.specs.Words.{FailsBy, HasMatchesOf, app_of, fault_of, matches_of};
ghost use Rattle.clap.specs.declared.builder.command.Command.TheViews.{out-Command};
ghost use Rattle.rtps_bench.specs.Line as line;
ghost use Rattle.rtps_bench.specs.Line.{IsPlainApp, IsPlainRule};
ghost use Rattle.rtps_bench.specs.Options.{AreOptions};

use crate::found::options_in;
use crate::options::{Options, TOPIC};
use clap::{Arg, ArgMatches, Command, Error, value_parser};
use std::alloc::{AllocError, Global};
use std::convert::AsStr;

#[tactic(auto, unfolding(crate::specs::Line::bench_app))]
fn command<'a>(alloc: Global) -> Result<Command<'a>, AllocError>
    ensures { IfOk result (λ c. IsPlainApp c line.bench_app) }
{
    with_options(
        alloc,
        Command::new(alloc, "rtps_bench")
            .about("Measures the engine over the record file on standard input")
            .arg(readers(alloc))?,
    )
}

/// Adds the options but for the number of readers.
fn with_options<'a>(alloc: Global, command: Command<'a>) -> Result<Command<'a>, AllocError>
    requires { (out-Command command).has_globals ≡ false }
    ensures { IfOk result (λ c. IsPlainApp c (line.with_options (app_of command.entry))) }
{
    with_runs(alloc, with_topics(alloc, command)?)
}

/// Adds the options for the topics and the writer that is known from the start.
#[tactic(auto, unfolding(crate::specs::Line::with_topics))]
fn with_topics<'a>(alloc: Global, command: Command<'a>) -> Result<Command<'a>, AllocError>
    requires { (out-Command command).has_globals ≡ false }
    ensures { IfOk result (λ c. IsPlainApp c (line.with_topics (app_of command.entry))) }
{
    command
        .arg(topics(alloc))?
        .arg(topic(alloc))?
        .arg(fixed(alloc))
}

/// Adds the options for the runs.
#[tactic(auto, unfolding(crate::specs::Line::with_runs))]
fn with_runs<'a>(alloc: Global, command: Command<'a>) -> Result<Command<'a>, AllocError>
    requires { (out-Command command).has_globals ≡ false }
    ensures { IfOk result (λ c. IsPlainApp c (line.with_runs (app_of command.entry))) }
{
    command
        .arg(workers(alloc))?
        .arg(batch(alloc))?
        .arg(repeat(alloc))
}

fn readers<'a>(alloc: Global) -> Arg<'a>
    ensures { IsPlainRule result line.readers_rule }
{
    Arg::new(alloc, "readers")
        .value_name("COUNT")
        .help("How many readers there are, 1 to 64")
        .long("readers")
        .value_parser(value_parser!(u32).range(1..65))
        .default_value("1")
}

fn topics<'a>(alloc: Global) -> Arg<'a>
    ensures { IsPlainRule result line.topics_rule }
{
    Arg::new(alloc, "topics")
        .value_name("COUNT")
        .help("How many topics the readers have in turn, 1 to 64; several are TEXT0, TEXT1, ..")
        .long("topics")
        .value_parser(value_parser!(u32).range(1..65))
        .default_value("1")
}

fn topic<'a>(alloc: Global) -> Arg<'a>
    ensures { IsPlainRule result line.topic_rule }
{
    Arg::new(alloc, "topic")
        .value_name("TEXT")
        .help("The topic of the readers, whose type is ShapeType")
        .long("topic")
        .default_value(TOPIC)
}

fn fixed<'a>(alloc: Global) -> Arg<'a>
    ensures { IsPlainRule result line.fixed_rule }
{
    Arg::new(alloc, "fixed")
        .value_name("HEX")
        .help("A writer that each reader is matched with from the start, 32 hex digits")
        .long("fixed")
}

fn workers<'a>(alloc: Global) -> Arg<'a>
    ensures { IsPlainRule result line.workers_rule }
{
    Arg::new(alloc, "workers")
        .value_name("COUNT")
        .help("How many workers run each batch, 1 to 64")
        .long("workers")
        .value_parser(value_parser!(u32).range(1..65))
        .default_value("1")
}

fn batch<'a>(alloc: Global) -> Arg<'a>
    ensures { IsPlainRule result line.batch_rule }
{
    Arg::new(alloc, "batch")
        .value_name("COUNT")
        .help("How many datagrams are taken at a time, 1 to 4096")
        .long("batch")
        .value_parser(value_parser!(u32).range(1..4097))
        .default_value("512")
}

fn repeat<'a>(alloc: Global) -> Arg<'a>
    ensures { IsPlainRule result line.repeat_rule }
{
    Arg::new(alloc, "repeat")
        .value_name("COUNT")
        .help("How many runs there are, each with a new participant, 1 to 1000")
        .long("repeat")
        .value_parser(value_parser!(u32).range(1..1001))
        .default_value("5")
}

/// Returns what clap finds in the words.
fn found<'a, S: AsStr>(alloc: Global, words: &'a [S]) -> Result<ArgMatches<'a>, Error>
    ensures matches { IfOk result (HasMatchesOf line.bench_app (map S.text words.entry.now)) }
    ensures fails { FailsBy (fault_of line.bench_app (map S.text words.entry.now)) result }
{
    match command(alloc) {
        Ok(command) => command.try_get_matches_from(words),
        Err(e) => Err(Error::from(e)),
    }
}

/// Returns the options in the words; the first one is the program's name. They, or the error if the
/// line is a bad one, depend on the words alone; if memory runs out, that is the error instead.
pub fn read_words<'a, S: AsStr>(alloc: Global, words: &'a [S]) -> Result<Options<'a>, Error>
    ensures options { IfOk result (λ options. AreOptions options
        (matches_of line.bench_app (map S.text words.entry.now))) }
    ensures fails { FailsBy (fault_of line.bench_app (map S.text words.entry.now)) result }
{
    match found(alloc, words) {
        Ok(matches) => Ok(options_in(&matches)),
        Err(error) => Err(error),
    }
}
