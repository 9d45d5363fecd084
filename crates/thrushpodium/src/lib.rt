//! The receiving half of a DDS peer (OMG DDS 1.4, DDSI-RTPS 2.5): datagrams in; each reader's
//! samples in order, its statuses, and the datagrams that answer. All that an application needs is
//! named here; each contract is that of the crate below which has the type.
//!
//! It receives: there is no writer. The application has the sockets, the clock and the threads, and
//! passes on what comes.
//!
//! A participant with one reader of shapes, which are a type that is there already
//! ([`Structs`] makes one of a struct of your own). No other participant may have its prefix:
//!
//! ```
//! let squares = Subscription::topic(alloc, EntityId([0, 0, 1, 7]), "Square", "ShapeType")?
//!     .reliable()
//!     .history(History::KeepLast(8));
//! let mut cache = squares.cache(alloc);
//! let mut config = Config::new(alloc, GuidPrefix([0x0b; 12]));
//! config.add_reader(squares.reader)?;
//! ```
//!
//! Its sockets, at an address of this machine in domain 0, and how it is announced: to the group of
//! the domain, so that peers of any vendor find it, and with a lease of ten seconds:
//!
//! ~~~text
//! let sockets = Sockets::bind_first(&rt, &rt, alloc, 0, Ipv4Addr::new(192, 0, 2, 7))?;
//! let everyone = Locators::one(alloc, discovery_group(0));
//! let lease = Duration {
//!     seconds: 10,
//!     fraction: 0,
//! };
//! let mut network = AnnouncedSockets::new(alloc, sockets, &config, lease, everyone)?;
//! let mut participant = Participant::new(alloc, config, Shapes)?;
//! ~~~
//!
//! Its reader is matched with the writers of its topic and type that others announce, as soon as
//! their announcements come as datagrams, or with a writer that is named from the start
//! ([`Config::add_fixed`]). What comes is a batch of datagrams, each with the moment in milliseconds
//! at which it came. It is processed on up to 64 threads, and the answers are sent:
//!
//! ~~~text
//! let moment = network.wait()?;
//! batch.receive(&mut network, moment, 256)?;
//! let datagrams = batch.datagrams(alloc)?;
//! participant.run_in_order(&rt, alloc, &workers, &datagrams, &mut given)?;
//! send_answers(alloc, &mut network, &given)?;
//! ~~~
//!
//! and in the end `network.farewell()?` has others forget it at once. [`AnnouncedParticipant`] is
//! one whose readers come and go, and are announced by then.
//!
//! Where the application has sockets of its own, a batch gives for each rank the notices of its
//! reader, which go into the cache, and the answers, each with the addresses that it is sent to:
//!
//! ```
//! let outcome = participant.run_batch(&rt, alloc, &NoGate, &datagrams, 4)?;
//! for answer in &outcome.answers {
//!     // Send answer.octets to each of answer.to.
//! }
//! for notice in outcome.notices.into_iter().flatten() {
//!     cache.accept(alloc, notice).map_err(AllocError::from)?;
//! }
//! for sample in &cache.take(alloc, 100, Condition::default())? {
//!     // sample.writer, number, time, its states, and sample.body: a value, or a disposal.
//! }
//! ```
//!
//! [`Participant::counters`] tells what came and what was passed over, by reason.
//!
//! A cache is read and taken from by conditions (DDS 1.4, 2.2.2.5.3): a [`Condition`] asks for
//! entries by the states of samples, views and instances, and `read` leaves in the cache what it
//! returns.
//!
//! ```
//! let unread = Condition {
//!     not_read: true,
//!     ..Condition::default()
//! };
//! let seen = cache.read(alloc, 100, unread)?;
//! ```
//!
//! While nothing comes, [`Participant::tick`] has time pass, so that participants which keep silent
//! are forgotten. Readers come and go by [`Participant::add_reader`] and `remove_reader`.
//!
//! **Threads.** A participant belongs to one thread. An [`Outlet`] that is attached to a reader
//! hands its notices to another thread, whose [`Inlet`] a cache pulls from; a [`StatusBoard`] shows
//! statuses to any thread, and no look waits. [`SerialEngine`] is the same on one thread.
//!
//! **Memory.** Whatever takes memory takes an allocator, and answers `NoMemory` or `AllocError`
//! where a growth is refused. A participant has failed then, and says so from then on; its
//! statuses stay as they were. A cache can be asked again.
//!
//! **Sockets.** [`Sockets`] are those of a domain on this machine, on loopback or by a [`Binding`]
//! at another address; nothing is announced by these. Their `receive_batch` waits for datagrams and fills a [`Batch`], and
//! `send_answer` sends an answer to a locator. The module `live` of `crates/examples` is an
//! application on sockets, and `cache` one over a record file, which [`Records`] reads.
#![tactic(auto)]

mod subscription;
#[cfg(test)]
mod tests;

pub use dds_announced::AnnounceFault;
pub use dds_announced::AnnouncedError;
pub use dds_announced::AnnouncedParticipant;
pub use dds_announced::Announcement;
pub use dds_announced::Announcing;
pub use dds_announced::ReaderError;
pub use dds_announced::VoiceFault;
pub use dds_announced::discovery_group;
pub use dds_cache::Answers;
pub use dds_cache::Condition;
pub use dds_cache::Content;
pub use dds_cache::DataReader;
pub use dds_cache::History;
pub use dds_cache::InstanceState;
pub use dds_cache::Sample;
pub use dds_cache::SampleState;
pub use dds_cache::Seen;
pub use dds_cache::Taken;
pub use dds_cache::ViewState;
pub use dds_outlet::Inlet;
pub use dds_outlet::Look;
pub use dds_outlet::Outlet;
pub use dds_outlet::Row;
pub use dds_outlet::Sent;
pub use dds_outlet::StatusBoard;
pub use dds_outlet::StatusReader;
pub use dds_outlet::Told;
pub use dds_outlet::Unseen;
pub use dds_outlet::outlet;
pub use dds_participant::AttachFault;
pub use dds_participant::Participant;
pub use dds_participant::PublishFault;
pub use dds_participant::Workers;
pub use dds_participant::is_batch;
pub use dds_qos::AccessScope;
pub use dds_qos::DestinationOrder;
pub use dds_qos::Durability;
pub use dds_qos::INFINITE;
pub use dds_qos::Liveliness;
pub use dds_qos::LivelinessKind;
pub use dds_qos::Ownership;
pub use dds_qos::Policies;
pub use dds_qos::Presentation;
pub use dds_qos::Reliability;
pub use dds_struct::KeyMember;
pub use dds_struct::Member;
pub use dds_struct::Structs;
pub use dds_struct::Structure;
pub use dds_struct::Text;
pub use dds_struct::copy_member;
pub use dds_topic::Catalog;
pub use dds_topic::CatalogError;
pub use dds_topic::Color;
pub use dds_topic::NoMemory;
pub use dds_topic::Raw;
pub use dds_topic::RawValue;
pub use dds_topic::Shape;
pub use dds_topic::Shapes;
pub use dds_topic::TextCatalog;
pub use dds_topic::Unread;
pub use rtps_announced::AnnouncedSockets;
pub use rtps_announcement::Presence;
pub use rtps_announcer::Destination;
pub use rtps_announcer::Rules;
pub use rtps_discovery::Config;
pub use rtps_discovery::ConfigFault;
pub use rtps_discovery::Discovery;
pub use rtps_discovery::FixedMatch;
pub use rtps_discovery::ReaderConfig;
pub use rtps_discovery::ReaderFault;
pub use rtps_discovery::check;
pub use rtps_planner::PassedOver;
pub use rtps_reader::Body;
pub use rtps_reader::Notice;
pub use rtps_reader::NoticeKind;
pub use rtps_reader::Status;
pub use rtps_receiver::Counters;
pub use rtps_receiver::Event;
pub use rtps_receiver::EventBody;
pub use rtps_receiver::Events;
pub use rtps_records::Batch;
pub use rtps_records::BatchEnd;
pub use rtps_records::Exchange;
pub use rtps_records::Format;
pub use rtps_records::Receive;
pub use rtps_records::ReceiveEnd;
pub use rtps_records::Records;
pub use rtps_records::RunFault;
pub use rtps_run::Answer;
pub use rtps_run::BatchOutput;
pub use rtps_run::EngineError;
pub use rtps_run::InOrder;
pub use rtps_run::Item;
pub use rtps_run::Outcome;
pub use rtps_run::StartError;
pub use rtps_run::answers_in_order;
pub use rtps_run::in_order;
pub use rtps_serial::SerialEngine;
pub use rtps_shards::NoGate;
pub use rtps_text::send_answers;
pub use rtps_types::Datagram;
pub use rtps_types::Duration;
pub use rtps_types::EntityId;
pub use rtps_types::Guid;
pub use rtps_types::GuidPrefix;
pub use rtps_types::KeyHash;
pub use rtps_types::Locator;
pub use rtps_types::Locators;
pub use rtps_types::Place;
pub use rtps_types::PolicyId;
pub use rtps_types::SequenceNumber;
pub use rtps_types::Timestamp;
pub use rtps_udp::Binding;
pub use rtps_udp::Link;
pub use rtps_udp::Machine;
pub use rtps_udp::Purpose;
pub use rtps_udp::SocketFault;
pub use rtps_udp::Sockets;
pub use subscription::Subscription;
