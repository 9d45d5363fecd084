//! The matches of a reader.

ghost use Rattle.std.specs.Prelude.{◌≡◌, [], List, IfOk, OnErr, OnOk, Some, false, length, true};
ghost use Rattle.std.specs.Map.{keys_of, lookup};
ghost use Rattle.rtps_proxy.specs.Effects.{GivesNothing, match_event};
ghost use Rattle.rtps_proxy.specs.Kept.{ProxyView, pairing};
ghost use Rattle.rtps_proxy.specs.Matches.{AllStand, AreTaken, IsSpentAt, Match, RefusesSpent, begun, ended, extended, fresh, given_where, is_at, match_with};

use crate::{Effects, ProxyConfig, ProxyError, WriterProxy};
use rtps_receiver::EventBody;
use rtps_types::{Guid, Timestamp};
use std::alloc::{AllocError, Allocator, Global};
use std::collections::BTreeMap;
use std::collections::btree_map::Keys;
use std::marker::Model;

/// The matches of a reader, each with the proxy of its writer (DDSI-RTPS 8.4.10,
/// `matched_writers`). The writer's guid is the key: beginning or ending a match, or handling an
/// event, takes one search.
#[derive(Drop)]
pub struct Matches<A: Allocator = Global> {
    proxies: BTreeMap<Guid, WriterProxy<A>, A>,
}

impl<A: Allocator> Model for Matches<A> {
    ghost use Rattle.std.specs.Prelude.{List};
    ghost use Rattle.rtps_types.specs.declared.identity.Guid.{Guid};
    ghost use Rattle.rtps_proxy.specs.Kept.{ProxyView};

    ghost Value = { List (Guid × ProxyView) };

    ghost view = { λ m. m.proxies.entries };
}

impl<A: Allocator + Copy> Matches<A> {
    /// Returns an empty list of matches. No memory is taken.
    pub fn new(alloc: A) -> Matches<A>
        ensures { result ≡ [] }
    {
        Matches {
            proxies: BTreeMap::new(alloc),
        }
    }

    /// Returns the number of matches.
    pub fn len(&self) -> usize
        ensures { result ≡ length self.now }
    {
        self.proxies.len()
    }

    /// Returns the matched writers, in the order of their guids' octets.
    pub fn writers(&self) -> Keys<'_, Guid, WriterProxy<A>>
        ensures { result ≡ keys_of self.now }
    {
        self.proxies.keys()
    }

    /// Begins a match with the writer of `config`, with an empty history. It replaces the earlier
    /// match with that writer, if there is one. A refused growth leaves the matches as they were.
    pub fn begin(&mut self, alloc: A, config: ProxyConfig<A>) -> Result<(), ProxyError>
        ensures stands { (ms : List Match) → AllStand ms self.old
            → OnOk result (AllStand (begun (fresh (pairing config)) ms) self.new) }
        ensures err { OnErr result (self.new ≡ self.old) }
    {
        let writer = config.writer;
        let proxy = WriterProxy::new(alloc, config)?;
        match self.proxies.insert(writer, proxy) {
            Ok(_) => Ok(()),
            Err(_) => Err(AllocError),
        }
    }

    /// Ends the match with a writer, if there is one, and drops its state. No memory is taken.
    pub fn end(&mut self, writer: Guid)
        ensures { (ms : List Match) → AllStand ms self.old → AllStand (ended writer ms) self.new }
    {
        self.proxies.remove(&writer);
    }

    /// Passes an event to the match with its writer and returns its effects, or `None` where the
    /// writer isn't matched. A refused growth leaves the proxy of that writer spent, and the others
    /// as they were. Each later event of that writer is refused, too, and changes nothing.
    pub fn on_event<'a>(
        &mut self,
        alloc: A,
        writer: Guid,
        time: Option<Timestamp>,
        brought: &EventBody<'a>,
    ) -> Result<Option<Effects<'a, A>>, ProxyError>
        ensures stands { (ms : List Match) → AllStand ms self.old
            → OnOk result (AllStand (extended writer (match_event time brought.now) ms) self.new) }
        ensures effects { (ms : List Match) → AllStand ms self.old
            → IfOk result (AreTaken (match_with writer ms) (match_event time brought.now)) }
        ensures err { OnErr result (IsSpentAt writer self.old self.new) }
        ensures spent { RefusesSpent writer self.old self.new result }
    {
        let mut effects = Effects::none(alloc);
        if !self.on_event_into(alloc, writer, time, brought, &mut effects)? {
            return Ok(None);
        }
        Ok(Some(effects))
    }

    /// Handles an event as [`Matches::on_event`] does, and writes its effects into the caller's
    /// `effects`, which have to be empty; this saves moving them. Returns whether the writer is
    /// matched. After a refused growth `effects` may have a part of them; a later event of that
    /// writer leaves them as they are.
    pub fn on_event_into<'a>(
        &mut self,
        alloc: A,
        writer: Guid,
        time: Option<Timestamp>,
        brought: &EventBody<'a>,
        effects: &mut Effects<'a, A>,
    ) -> Result<bool, ProxyError>
        requires { GivesNothing effects.old }
        ensures stands { (ms : List Match) → AllStand ms self.old
            → OnOk result (AllStand (extended writer (match_event time brought.now) ms) self.new) }
        ensures effects { (ms : List Match) → AllStand ms self.old
            → IfOk result (λ is_matched. AreTaken (match_with writer ms)
            (match_event time brought.now) (given_where is_matched effects.new)) }
        ensures nothing { IfOk result (λ is_matched. is_matched ≡ false
            → GivesNothing effects.new) }
        ensures lent { IfOk result (λ is_matched. is_matched ≡ false → effects.new ≡ effects.old) }
        ensures err { OnErr result (IsSpentAt writer self.old self.new) }
        ensures spent { RefusesSpent writer self.old self.new result }
        ensures still { (k : ProxyView) → lookup (is_at writer) self.old ≡ Some k
            → k.spent ≡ true → effects.new ≡ effects.old }
    {
        let Some(proxy) = self.proxies.get_mut(&writer) else {
            return Ok(false);
        };
        proxy.on_event_into(alloc, time, brought, effects)?;
        Ok(true)
    }
}
