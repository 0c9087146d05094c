//! The options of a store: a seed of the system, and how many pages are kept in memory.
ghost use Rattle.std.specs.Prelude.{◌≡◌, ◌↔◌, max, min, IsErr};

use sqlite::Options;
use std::hash::{BuildHasher, RandomState};
use std::io;

/// The system gave no seed. Only `options_by` makes one, of the error that the system gave, so that who hands one on has
/// asked.
#[derive(Clone, Copy, Debug, PartialEq, Eq)]
pub struct NoSeed(());

/// The options of a store with this seed, if there is one.
fn options_by(seed: io::Result<RandomState>) -> Result<Options, NoSeed>
    ensures { IsErr result ↔ IsErr seed }
{
    match seed {
        Ok(state) => Ok(Options::new(state.hash_one(&0u8))),
        Err(_) => Err(NoSeed(())),
    }
}

/// The options of a store, with a seed of its own.
pub(crate) fn store_options(rt: &HostRuntime) -> Result<Options, NoSeed> {
    options_by(RandomState::new(rt))
}

/// How many pages are kept in memory: as many as SQLite keeps, or all of a larger file, up to 32 MB of 4 kB each. An
/// opening reads each page a few times for what it tests, and one that isn't kept from the file again.
const FEWEST_PAGES: usize = 2000;

const MOST_PAGES: usize = 8192;

/// The same options, for a file of so many pages.
pub(crate) fn with_pages(options: Options, pages: usize) -> Options
    ensures { result ≡ record options { cache_pages = max 2000 (min pages 8192) } }
{
    Options {
        cache_pages: pages.min(MOST_PAGES).max(FEWEST_PAGES),
        spill_pages: options.spill_pages,
        checkpoint_frames: options.checkpoint_frames,
        seed: options.seed,
    }
}
