//! Sources of a log's resources: a folder of files, a host over HTTP, and a cache of tiles before either.
//!
//! Each source implements `tl_client::ResourceSource`: `get` returns the bytes of a tile, an entry bundle or the
//! checkpoint by its path (C2SP tlog-tiles). Nothing is trusted here; the client checks everything that comes.
//! Sources wrap one another: `CachedSource` looks for tiles in a cache first, `FullSource` takes a full tile or
//! bundle if a log has removed the partial one, and `Window` asks a host for several resources at once, before they
//! are needed.
//!
//! ```rust
//! let url = Url::parse("http://log.example/2026/").unwrap();
//! let source = HttpSource::new(&rt, alloc, url, Duration::from_secs(10));
//! let cache = FolderSource::without_links(&rt, alloc, "cache");
//! let source = CachedSource::new(alloc, &cache, &source);
//! let mut fetched = FetchedTiles::new(alloc);
//! let entries = read_entries(alloc, &source, size, root, 0, &mut fetched)?; // all of them are the log's
//! TileCache::new(&rt, "cache").keep(alloc, &fetched)?; // the next call asks the host for none of these tiles
//! ```
//!
//! `read_entries` is in `tl_client`, `TileCache` in `tl_folder`. Keep a tile only if it has passed all checks.
#![tactic(auto)]

mod ahead;
mod any;
mod asking;
mod cached;
mod calling;
mod folder;
mod full;
mod heard;
mod host;
mod http;
mod lack;
mod place;
mod url;
mod window;

pub use ahead::{AsksHost, HostClient, Requests};
pub use any::AnySource;
pub use cached::CachedSource;
pub use calling::{CallFault, call};
pub use folder::FolderSource;
pub use full::FullSource;
pub use host::{LogHost, connect};
pub use http::HttpSource;
pub use lack::{Lack, NamesLack};
pub use place::{front_of, place_of};
pub use url::Url;
pub use window::Window;
