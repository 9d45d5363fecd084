//! A participant: its state, and the questions that can be asked between batches.

ghost use Rattle.std.specs.Prelude.{◌≡◌, [], IfOk, List, ℕ, false, length, map};
ghost use Rattle.rtps_discovery.specs.Config.{check_of};
ghost use Rattle.rtps_discovery.specs.Kept.{IsKnown};
ghost use Rattle.rtps_planner.specs.PassedOver.{passed_by};
ghost use Rattle.rtps_receiver.specs.Counters.{none_counted};
ghost use Rattle.rtps_run.specs.Input.{Input};
ghost use Rattle.rtps_run.specs.Seen.{matches_seen, reader_count, status_seen};
ghost use Rattle.rtps_run.specs.Standing.{Answers, ShowsAt, StandsAt, Starts, run_by};
ghost use Rattle.dds_participant.specs.Ports.{NoneAttached};

use crate::counted::Counted;
use crate::ports::{Port, no_ports};
use dds_topic::Catalog;
use rtps_discovery::{Config, Discovery, check};
use rtps_planner::PassedOver;
use rtps_reader::{ReaderState, Status};
use rtps_receiver::Counters;
use rtps_run::{
    EngineError, StartError, all_matches, first_readers, first_statuses, fixed_by_rank,
};
use rtps_types::Guid;
use std::alloc::Global;
use std::collections::BTreeSet;
use std::marker::Model;

/// A participant with its discovery and its readers. It processes the datagrams of a batch
/// together, and runs the jobs of its readers on several threads. Between batches readers come and
/// go ([`Participant::add_reader`], [`Participant::remove_reader`]).
///
/// Its state is that of a [`rtps_serial::SerialEngine`] after the same inputs, however the
/// datagrams are cut into batches.
///
/// An outlet can be attached to each reader ([`Participant::attach`]), through which another thread
/// receives the reader's notices; and a board shows the statuses to any thread
/// ([`Participant::publish`]):
///
/// ```text
/// let mut config = Config::new(alloc, GuidPrefix([0x0b; 12]));
/// let squares = ReaderConfig::new(alloc, EntityId([0, 0, 1, 7]), "Square", "ShapeType")?;
/// config.add_reader(squares.reliable())?;
/// let mut participant = Participant::new(alloc, config, Shapes)?;
/// let (outlet, mut inlet) = dds_outlet::outlet(alloc, 64)?;
/// if let Err((_outlet, fault)) = participant.attach(0, outlet) {
///     // The rank has no reader, or its reader has an outlet.
/// }
/// let mut board = StatusBoard::new(&rt, alloc, 1, 4)?;
/// let mut given = BatchOutput::new(alloc);
/// let workers = Workers {
///     count: 2,
///     gate: &NoGate,
/// };
/// // In the thread that receives, again and again: time passes, and then what has come is a batch.
/// // Its answers, which are in `given`, are to be sent. The notices go through the outlet.
/// participant.tick_in_order(alloc, moment, &mut given)?;
/// participant.run_in_order(&rt, alloc, &workers, &datagrams, &mut given)?;
/// participant.deliver(0);
/// if let Err(fault) = participant.publish(&rt, alloc, &mut board) {
///     // There was no memory for the row, or the board has no number left.
/// }
/// // In a thread of the application:
/// while let Some(notice) = inlet.pop() {
///     // The notices of the reader, in the order of the run.
/// }
/// // In the end, in the thread that receives:
/// board.end(&rt);
/// ```
#[derive(Drop)]
pub struct Participant<C: Catalog> {
    pub(crate) catalog: C,
    pub(crate) config: Config,
    /// The number of datagrams taken.
    pub(crate) index: u64,
    /// The number of batches taken.
    pub(crate) batches: u64,
    /// Whether a batch ran out of memory, or a tick, or a reader that came or went. It is also set
    /// while one of them is processed, so that an error leaves it set.
    pub(crate) failed: bool,
    pub(crate) discovery: Discovery,
    /// By rank; empty while their jobs run. The state of a reader that went stays in its place,
    /// stopped.
    pub(crate) readers: Vec<ReaderState>,
    /// By rank, as they were after the last batch that was taken; `None` where a reader went.
    pub(crate) statuses: Vec<Option<Status>>,
    /// By rank, the outlet that is attached, if one is. It stays when its reader goes.
    pub(crate) ports: Vec<Option<Port<C::Value>>>,
    /// What was counted of the datagrams of the batches taken.
    pub(crate) counted: Counted,
    /// The allocator of the backlogs.
    pub(crate) alloc: Global,
}

impl<C: Catalog> Model for Participant<C> {
    ghost use Rattle.std.specs.Prelude.{◌≡◌, ◌≤◌, List, false, length};
    ghost use Rattle.rtps_receiver.specs.Counters.{AreCounts};
    ghost use Rattle.rtps_run.specs.Input.{Input};
    ghost use Rattle.rtps_run.specs.Standing.{StandsAt};
    ghost use Rattle.dds_participant.specs.Kept.{ParticipantView};
    ghost use Rattle.dds_participant.specs.Ports.{ports_view};

    ghost Value = { ParticipantView C C.Value };

    ghost view = { λ p. record {
      engine = record {
        catalog = p.catalog;
        config = p.config;
        index = p.index;
        failed = p.failed;
        discovery = p.discovery;
        readers = p.readers.items;
        statuses = p.statuses.items;
      };
      batches = p.batches;
      ports = ports_view p.ports.items;
      counters = p.counted;
    } };

    // A participant that hasn't failed is that after some inputs. Each counter fits.
    ghost invariant = { λ p. (length p.statuses.items ≤ 4096)
        × (length p.ports.items ≡ length p.statuses.items)
        × (p.failed ≡ false → (inputs : List Input) × StandsAt C.decoding inputs (record {
          catalog = p.catalog;
          config = p.config;
          index = p.index;
          failed = p.failed;
          discovery = p.discovery;
          readers = p.readers.items;
          statuses = p.statuses.items;
        }))
        × AreCounts p.counted.received };
}

impl<C: Catalog> Participant<C> {
    /// Returns a participant for this configuration, whose readers have their fixed matches and
    /// have received nothing. The error is [`StartError::Config`] exactly where [`check`] refuses
    /// the configuration, and else a refused growth.
    #[tactic(auto, unfolding(rtps_run::specs::Standing::Starts))]
    pub fn new(alloc: Global, config: Config, catalog: C) -> Result<Participant<C>, StartError>
        ensures starts { Starts (check_of config) result }
        ensures same { IfOk result (λ p. (p.engine.catalog ≡ catalog)
            × (p.engine.config ≡ config) × (p.batches ≡ 0)) }
        ensures counters { IfOk result (λ p. (p.counters.received ≡ none_counted)
            × (p.counters.passed ≡ passed_by config [])) }
        ensures none { IfOk result (λ p. NoneAttached p.ports) }
        ensures stands { IfOk result (λ p. StandsAt C.decoding [] p.engine) }
    {
        match check(&config) {
            Ok(()) => {}
            Err(fault) => return Err(StartError::Config(fault)),
        }
        let fixed = fixed_by_rank(alloc, config.readers.len(), &config.fixed)?;
        let readers = first_readers(alloc, config.own, &config.readers, &fixed)?;
        let statuses = first_statuses(alloc, &readers)?;
        let ports = no_ports(alloc, readers.len())?;
        let discovery = Discovery::new(alloc, &config)?;
        Ok(Participant {
            catalog,
            config,
            index: 0,
            batches: 0,
            failed: false,
            discovery,
            readers,
            statuses,
            ports,
            counted: Counted {
                received: Counters::new(),
                passed: PassedOver::new(),
            },
            alloc,
        })
    }

    /// The number of ranks that were given, at most 4,096: the numbers below it.
    pub fn readers(&self) -> u32
        ensures { result ≡ length self.now.engine.statuses }
    {
        self.statuses.len() as u32
    }

    /// The number of batches taken. It stops at 2^64 - 1.
    pub fn batches(&self) -> u64
        ensures { result ≡ self.now.batches }
    {
        self.batches
    }

    /// What was counted of all datagrams of the batches taken: how many there were, how many of
    /// their submessages gave an event, and how many of either were passed over, by reason. Ticks,
    /// and readers that come or go, count nothing.
    pub fn counters(&self) -> &Counters
        ensures { result.now ≡ self.now.counters.received }
    {
        &self.counted.received
    }

    /// How many events of the batches taken came to nothing: those for nobody, and the records of
    /// announcers that discovery ignored. Ticks, and readers that come or go, count nothing.
    pub fn passed_over(&self) -> PassedOver
        ensures { result ≡ self.now.counters.passed }
    {
        self.counted.passed
    }

    /// Returns the status of the reader of a rank, after the last batch that was taken, or `None`
    /// where the rank wasn't given or its reader went. No memory is taken.
    pub fn status(&self, rank: u32) -> Option<Status>
        ensures { (inputs : List Input) → ShowsAt C.decoding inputs self.now.engine
            → result ≡ status_seen (run_by C.decoding self.now.engine inputs) rank }
    {
        self.statuses.get(rank as usize).copied().flatten()
    }

    /// Returns the current matches, each with the rank of its reader and its writer. The error is
    /// [`EngineError::Failed`] where the participant has failed, and else
    /// [`EngineError::NoMemory`]; neither changes anything.
    #[tactic(auto, unfolding(rtps_run::specs::Standing::Answers))]
    pub fn matches(&self, alloc: Global) -> Result<BTreeSet<(u32, Guid)>, EngineError>
        ensures answers { Answers result self.now.engine }
        ensures matches { (inputs : List Input)
            → StandsAt C.decoding inputs self.now.engine → IfOk result (λ matches.
            matches.keys ≡ matches_seen (run_by C.decoding self.now.engine inputs)) }
    {
        if self.failed {
            Err(EngineError::Failed)
        } else {
            Ok(all_matches::<C, Global>(alloc, &self.readers)?)
        }
    }

    /// What is known of other participants after the last batch that was taken. Once a batch has
    /// run out of memory, discovery may know more than that.
    pub fn discovery(&self) -> &Discovery
        ensures known { (inputs : List Input) → StandsAt C.decoding inputs self.now.engine
            → IsKnown (run_by C.decoding self.now.engine inputs).known result.now.kept }
        ensures unspent { (inputs : List Input) → StandsAt C.decoding inputs
            self.now.engine → result.now.spent ≡ false }
    {
        &self.discovery
    }

    /// The catalog that decodes values.
    pub fn catalog(&self) -> &C
        ensures { result.now ≡ self.now.engine.catalog }
    {
        &self.catalog
    }
}
