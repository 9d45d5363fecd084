//! How the options of the command line set up a run.

ghost use Rattle.std.specs.Prelude.{◌≡◌, ◌≤◌, Ok};
ghost use Rattle.dds_cache.specs.Cache.{IsHistory};
ghost use Rattle.rtps_discovery.specs.Config.{check_of};
ghost use Rattle.rtps_listen.specs.Setup.{IsCacheSetupOf, IsLiveSetupOf, IsSetupOf, history_of};

use crate::options::Options;
use dds_cache::History;
use rtps_discovery::Config;
use rtps_text::{CacheSetup, LiveSetup, Pace, Setup};

/// Returns the run of `replay` with this configuration and catalog.
pub fn setup_of<C: Drop>(options: &Options<'_>, config: Config, catalog: C) -> Setup<C>
    requires checked { check_of config ≡ Ok tt }
    ensures { IsSetupOf options.now config catalog result }
{
    Setup {
        config,
        catalog,
        summary: options.summary,
        pace: Pace {
            batch: options.batch,
            workers: options.workers,
        },
    }
}

/// Returns the run of `samples` with this configuration and catalog.
pub fn cache_setup_of<C: Drop>(options: &Options<'_>, config: Config, catalog: C) -> CacheSetup<C>
    requires checked { check_of config ≡ Ok tt }
    ensures { IsCacheSetupOf options.now config catalog result }
{
    CacheSetup {
        run: setup_of(options, config, catalog),
        keep: history_of(options.keep),
    }
}

/// Returns the run of `listen` with this configuration and catalog.
pub fn live_setup_of<C: Drop>(options: &Options<'_>, config: Config, catalog: C) -> LiveSetup<C>
    requires checked { check_of config ≡ Ok tt }
    ensures { IsLiveSetupOf options.now config catalog result }
{
    LiveSetup {
        run: setup_of(options, config, catalog),
        datagrams: options.count,
        turns: options.turns,
    }
}

/// Returns how many entries are kept of an instance; 0 stands for all.
fn history_of(keep: u32) -> History
    requires { keep ≤ 65536 }
    ensures value { result ≡ history_of keep }
    ensures is { IsHistory result }
{
    if keep == 0 {
        History::KeepAll
    } else {
        History::KeepLast(keep)
    }
}
