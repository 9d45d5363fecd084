//! Sockets that announce their participant.

ghost use Rattle.std.specs.Prelude.{◌≡◌, IfErr, IfOk, IsErr, None, OnErr, OnOk, false, option_map, true};
ghost use Rattle.std.specs.Net.Addr.{ipv4_octets};
ghost use Rattle.std.specs.Time.{instant_nanos};
ghost use Rattle.rtps_records.specs.Speech.{HasLeft};
ghost use Rattle.rtps_udp.specs.Calls.{announced_in, traffic_in};
ghost use Rattle.dds_announced.specs.Announcing.{fault_of};
ghost use Rattle.dds_announced.specs.Voice.{BlamesReader, IsVoiceFault};
ghost use Rattle.rtps_announced.specs.Announced.{HasCalledNothing, IsMannerOf, IsSameSockets, IsSilentBy, announcing_at, manner_of, speech_of};

use crate::sending::{send_all, send_said};
use dds_announced::{Announcing, Voice, VoiceFault};
use rtps_announcement::Presence;
use rtps_announcer::Rules;
use rtps_discovery::Config;
use rtps_records::{Exchange, Receive};
use rtps_types::{Datagram, Duration, Locator, Locators};
use rtps_udp::{Link, Purpose, Sockets};
use std::alloc::{AllocError, Global};
use std::io::{self, ErrorKind};
use std::marker::Model;

/// The sockets of a participant that announces itself and its readers (DDSI-RTPS 8.4.7, 8.5.3,
/// 8.5.4): a voice hears each datagram that they receive and each moment at which a wait ends, and
/// what it says is sent at once.
///
/// Where the voice is refused memory nothing is announced any more, and the next wait fails with
/// [`ErrorKind::OutOfMemory`].
#[derive(Drop)]
pub struct AnnouncedSockets<L: Link> {
    alloc: Global,
    sockets: Sockets<L>,
    voice: Voice,
    /// The moment at which the last wait ended, in milliseconds; 0 before that.
    moment: u64,
    /// Whether the farewell was said: from then on nothing is heard and announced any more.
    left: bool,
}

impl<L: Link> Model for AnnouncedSockets<L> {
    ghost use Rattle.std.specs.Prelude.{◌≡◌, false, true};
    ghost use Rattle.std.specs.Net.Addr.{ipv4_octets};
    ghost use Rattle.std.specs.Time.{instant_nanos};
    ghost use Rattle.rtps_announced.specs.Announced.{HasSpokenBy, IsSilentBy, manner_of, speech_of};
    ghost use Rattle.rtps_announced.specs.Standing.{AnnouncedView};

    ghost Value = { AnnouncedView L };

    ghost view = { λ s. record {
      sockets = s.sockets;
      voice = s.voice;
      moment = s.moment;
      left = s.left;
    } };

    // Until the farewell all that was received is heard, and what is said by it is announced. After
    // it nothing is announced.
    ghost invariant = { λ s. (s.left ≡ false
        → HasSpokenBy s.voice (ipv4_octets s.sockets.binding.address) s.moment
        (instant_nanos s.sockets.ports.start) (L.calls s.sockets.ports.link))
        × (s.left ≡ true
        → IsSilentBy (speech_of (manner_of s.voice (ipv4_octets s.sockets.binding.address)))
        (instant_nanos s.sockets.ports.start) (L.calls s.sockets.ports.link)) };
}

impl<L: Link> AnnouncedSockets<L> {
    /// Returns the sockets of a participant with this configuration, which announces itself and its
    /// readers from now on: where the sockets are bound, with this lease, to these addresses of
    /// everyone, at most 64, by the numbers of [`Rules::DEFAULT`].
    ///
    /// The errors, of which the first that comes is returned: [`VoiceFault::Announcing`] exactly
    /// where the lease isn't above a second, where the sockets are bound to 0.0.0.0, which is no
    /// address that a peer can send to, or where there are more addresses;
    /// [`VoiceFault::TooLong`] where the record of a reader would have more than 60,000 octets; and
    /// [`VoiceFault::NoMemory`]. With an error the sockets are closed.
    pub fn new(
        alloc: Global,
        sockets: Sockets<L>,
        config: &Config,
        lease: Duration,
        everyone: Locators,
    ) -> Result<AnnouncedSockets<L>, VoiceFault>
        requires unused { HasCalledNothing (instant_nanos sockets.ports.start)
            (L.calls sockets.ports.link) }
        ensures begins { OnOk result
            (fault_of (announcing_at sockets.binding lease everyone) ≡ None) }
        ensures fault { IfErr result
            (IsVoiceFault (fault_of (announcing_at sockets.binding lease everyone))) }
        ensures too_long { IfErr result (BlamesReader config.now.own config.now.readers.items) }
        ensures sockets { IfOk result (λ s. s.sockets ≡ sockets) }
        ensures left { IfOk result (λ s. s.left ≡ false) }
        ensures manner { IfOk result (λ s. IsMannerOf sockets config.now lease everyone
            (manner_of s.voice (ipv4_octets s.sockets.binding.address))) }
    {
        let announcing = Announcing {
            rules: Rules::DEFAULT,
            here: Presence {
                discovery: sockets.locator(Purpose::Metatraffic),
                user: sockets.locator(Purpose::UserData),
                lease,
            },
            everyone,
        };
        let voice = Voice::new(alloc, config, announcing)?;
        Ok(AnnouncedSockets {
            alloc,
            sockets,
            voice,
            moment: 0,
            left: false,
        })
    }

    /// Says farewell, to everyone and to each peer, so that they forget us at once and not when our
    /// lease ends. From then on nothing is heard and announced any more.
    ///
    /// `AllocError` where memory is refused, now or before, or where the farewell was said before:
    /// then nothing is said, and nothing has changed.
    pub fn farewell(&mut self) -> Result<(), AllocError>
        ensures silent { OnOk result (self.new.left ≡ true) }
        ensures again { self.old.left ≡ true → IsErr result }
        ensures still { OnErr result (self.new ≡ self.old) }
        ensures left { OnOk result (HasLeft
            (speech_of (manner_of self.old.voice (ipv4_octets self.old.sockets.binding.address)))
            (traffic_in (instant_nanos self.old.sockets.ports.start)
            (L.calls self.old.sockets.ports.link))
            (option_map announced_in (L.calls self.new.sockets.ports.link))) }
        ensures traffic { traffic_in (instant_nanos self.new.sockets.ports.start)
            (L.calls self.new.sockets.ports.link)
            ≡ traffic_in (instant_nanos self.old.sockets.ports.start)
            (L.calls self.old.sockets.ports.link) }
        ensures voice { self.new.voice ≡ self.old.voice }
        ensures same { IsSameSockets self.old.sockets self.new.sockets }
    {
        if self.left {
            return Err(AllocError);
        }
        let announcements = self.voice.farewell(self.alloc)?;
        self.left = true;
        send_all(&mut self.sockets, self.voice.everyone(), &announcements);
        Ok(())
    }

    /// Whether the farewell was said. Since then nothing was announced, whatever was received.
    pub fn has_left(&self) -> bool
        ensures left { result ≡ self.now.left }
        ensures silent { result ≡ true → IsSilentBy
            (speech_of (manner_of self.now.voice (ipv4_octets self.now.sockets.binding.address)))
            (instant_nanos self.now.sockets.ports.start) (L.calls self.now.sockets.ports.link) }
    {
        self.left
    }
}

impl<L: Link> Receive for AnnouncedSockets<L> {
    ghost traffic = { λ s.
        traffic_in (instant_nanos s.sockets.ports.start) (L.calls s.sockets.ports.link) };

    ghost speech = { λ s. speech_of (manner_of s.voice (ipv4_octets s.sockets.binding.address)) };

    /// Discovery's datagrams come first, so that a writer is known before its samples come. What is
    /// said by a datagram is sent before this returns.
    fn receive(&mut self, room: &mut [u8]) -> io::Result<Option<usize>> {
        let next = self.sockets.receive_next(room)?;
        let Some(length) = next else {
            return Ok(None);
        };
        if !self.left {
            let datagram = Datagram {
                moment: self.moment,
                bytes: &room[..length],
            };
            let said = self.voice.hear(self.alloc, &datagram);
            send_said(&mut self.sockets, self.voice.everyone(), said);
        }
        Ok(Some(length))
    }
}

impl<L: Link> Exchange for AnnouncedSockets<L> {
    /// Waits at most a tenth of a second, and has the moment of the end pass. Where the voice was
    /// refused memory before, this fails, with the kind `OutOfMemory`.
    fn wait(&mut self) -> io::Result<u64> {
        if self.voice.has_failed() && !self.left {
            self.sockets.give_up(ErrorKind::OutOfMemory);
            return Err(io::Error::from(ErrorKind::OutOfMemory));
        }
        let moment = self.sockets.wait_turn()?;
        self.moment = moment;
        if !self.left {
            let said = self.voice.pass(self.alloc, moment);
            send_said(&mut self.sockets, self.voice.everyone(), said);
        }
        Ok(moment)
    }

    /// As [`Sockets::send_answer`] sends it, but a fault isn't reported.
    fn send(&mut self, to: Locator, octets: &[u8]) {
        let _sent = self.sockets.send_answer(to, octets);
    }
}
