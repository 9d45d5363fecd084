//! The options of the command line.

ghost use Rattle.std.specs.Prelude.{◌≤◌};

/// The prefix of the participant if `--own` isn't given, in hex.
pub const OWN: &str = "0b0b0b0b0b0b0b0b0b0b0b0b";

/// The address of the sockets if `--address` isn't given.
pub const ADDRESS: &str = "127.0.0.1";

/// The topic of the readers if `--topic` isn't given.
pub const TOPIC: &str = "Square";

/// The type of the topic if `--type` isn't given: that of the Shapes demo.
pub const TYPE_NAME: &str = "ShapeType";

/// The options of all subcommands. One that a subcommand doesn't have is as if no value was given.
#[derive(Clone, Copy, Debug, PartialEq, Eq)]
pub struct Options<'a> {
    /// The name of the record file; `-` is standard input.
    pub file: &'a str,
    /// The prefix of this participant, in hex.
    pub own: &'a str,
    /// The number of readers, 1 to 8.
    pub readers: u8,
    /// The most workers that share a batch, 1 to 64.
    pub workers: u8,
    /// The most datagrams of a batch, 1 to 4,096.
    pub batch: u16,
    /// The topic of each reader.
    pub topic: &'a str,
    /// The name of its type, as writers announce it.
    pub type_name: &'a str,
    /// Whether the topic has no key, by which writers tell which readers may be theirs.
    pub no_key: bool,
    /// A writer that each reader is matched with from the start, in hex.
    pub fixed: Option<&'a str>,
    /// Whether the readers ask for nothing again.
    pub best_effort: bool,
    /// Whether values are printed as octets.
    pub raw: bool,
    /// Whether matches and counts are printed at the end.
    pub summary: bool,
    /// How many entries `samples` keeps of an instance, 1 to 65,536, or 0 for all.
    pub keep: u32,
    /// The domain that `listen` takes part in, 0 to 232.
    pub domain: u16,
    /// The address that `listen` receives at, in dotted notation.
    pub address: &'a str,
    /// After how many datagrams `listen` ends, 1 to 65,536.
    pub count: u32,
    /// After how many waits for datagrams `listen` ends, 1 to 100,000.
    pub turns: u32,
    /// Whether the participant announces itself and its readers.
    pub announce: bool,
    /// The addresses at which participants are told of it, with commas between them.
    pub peers: Option<&'a str>,
    /// Whether the group of the domain isn't told of it.
    pub no_multicast: bool,
    /// How long it may keep silent, in seconds, 2 to 86,400; 0 where this isn't given.
    pub lease: u32,
    ghost some: { 1 ≤ readers },
    ghost few: { readers ≤ 8 },
    ghost worked: { 1 ≤ workers },
    ghost shared: { workers ≤ 64 },
    ghost begun: { 1 ≤ batch },
    ghost batched: { batch ≤ 4096 },
    ghost bounded: { keep ≤ 65536 },
    ghost domained: { domain ≤ 232 },
    ghost counted: { 1 ≤ count },
    ghost turned: { 1 ≤ turns },
    ghost leased: { lease ≤ 86400 },
}

impl Options<'_> {
    ghost use Rattle.std.specs.Prelude.{[]};
    ghost use Rattle.rtps_listen.specs.Options.{AreOptions};

    /// Returns the options if no word is given.
    pub fn unset() -> Options<'static>
        ensures { AreOptions result [] }
    {
        Options {
            file: "-",
            own: OWN,
            readers: 1,
            workers: 1,
            batch: 512,
            topic: TOPIC,
            type_name: TYPE_NAME,
            no_key: false,
            fixed: None,
            best_effort: false,
            raw: false,
            summary: false,
            keep: 0,
            domain: 0,
            address: ADDRESS,
            count: 1,
            turns: 1,
            announce: false,
            peers: None,
            no_multicast: false,
            lease: 0,
        }
    }
}
