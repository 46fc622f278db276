//! Witnesses that are asked over HTTP.

ghost use Rattle.std.specs.Prelude.{◌≡◌, ◌⊎◌, ◌<◌, ℕ, [], IfErr, IfOk, MatchOption, length, map, slice_index_or, string_bytes};
ghost use Rattle.std.specs.List.{AllZip};
ghost use Rattle.tl_fetch.specs.FeedCommand.{IsFirstNoUrl};
ghost use Rattle.tl_fetch.specs.Inner.Witnesses.{IsAddressOf};
ghost use Rattle.tl_source.specs.Url.{IsNoUrl};

use crate::fault::{Address, FetchFault};
use crate::feed::asking::AsksWitnesses;
use std::alloc::Global;
use std::io::Write;
use std::net::{Net, TcpStream};
use std::time::{Clock, Duration};
use tl_device::Counted;
use tl_feed::{HttpWitness, Unasked};
use tl_run::{RunFault, print_text};
use tl_source::Url;

// Returns the address that the text at `place` is, if it is one over HTTP.
fn address_at(texts: &[String], place: usize) -> Option<Url<'_>>
    requires { place < length texts.now }
    ensures { MatchOption result
        (IsNoUrl (slice_index_or (map string_bytes texts.now) place []))
        (IsAddressOf (slice_index_or (map string_bytes texts.now) place [])) }
{
    Url::parse(texts[place].as_str())
}

/// Returns the addresses that these texts are. It fails with `BadAddress` of the first that isn't one over HTTP.
pub(crate) fn addresses(alloc: Global, texts: &[String]) -> Result<Vec<Url<'_>>, FetchFault>
    ensures read { IfOk result
        (λ urls. AllZip IsAddressOf (map string_bytes texts.now) urls.items) }
    ensures refused { IfErr result (λ fault. (fault ≡ FetchFault.Run RunFault.OutOfMemory)
        ⊎ ((place : ℕ) × (fault ≡ FetchFault.BadAddress (Address.To place))
        × IsFirstNoUrl (map string_bytes texts.now) place)) }
{
    let mut urls = Vec::new(alloc);
    for place in 0..texts.len() {
        let Some(url) = address_at(texts, place) else {
            return Err(FetchFault::BadAddress(Address::To(place as u64)));
        };
        urls.push(url)?;
    }
    Ok(urls)
}

/// The witnesses at these addresses, each asked within a time limit, and standard error, which gets a line for each
/// that gave no cosignature.
#[derive(Drop)]
pub(crate) struct HttpWitnesses<'w, H, E> {
    pub(crate) rt: &'w H,
    pub(crate) alloc: Global,
    pub(crate) urls: Vec<Url<'w>>,
    pub(crate) limit: Duration,
    pub(crate) errors: &'w mut Counted<E>,
}

impl<H: Net<Stream = TcpStream> + Clock, E: Write> HttpWitnesses<'_, H, E> {
    // Prints why a witness gave no cosignature.
    fn tell_why(&mut self, place: usize, why: Unasked) -> Result<(), FetchFault> {
        let line = format!(in self.alloc; "tlog: witness {place}: {why}\n")?;
        print_text(self.errors, line.as_bytes())?;
        Ok(())
    }
}

impl<'w, H: Net<Stream = TcpStream> + Clock, E: Write> AsksWitnesses for HttpWitnesses<'w, H, E> {
    ghost use Rattle.std.specs.Prelude.{◌≡◌, ◌≤◌, length, slice_index_or};

    type Asker = HttpWitness<'w, H>;

    ghost lacks = { λ w place. length w.urls.items ≤ place };

    ghost asks = { λ w place asker. (asker.url ≡ slice_index_or w.urls.items place asker.url)
        × (asker.limit ≡ w.limit) };

    fn asker(&self, place: usize) -> Option<HttpWitness<'w, H>> {
        let Some(url) = self.urls.get(place) else {
            return None;
        };
        Some(HttpWitness::new(self.rt, self.alloc, *url, self.limit))
    }

    fn tell(&mut self, place: usize, why: Unasked) {
        let _ = self.tell_why(place, why);
    }
}
