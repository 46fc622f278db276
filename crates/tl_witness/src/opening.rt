//! Opening a book from trusts and saved chains.

ghost use Rattle.std.specs.Prelude.{◌≡◌, ◌<◌, ◌⊎◌, All, IfErr, IfOk, MatchOption, OnErr, length, map, string_bytes};
ghost use Rattle.std.specs.List.{AllZip};
ghost use Rattle.tl_note.specs.Key.{IsKeyName};
ghost use Rattle.tl_proof.specs.Acceptance.{step_of};
ghost use Rattle.tl_witness.specs.ByOrigin.{Indexes, index_of};
ghost use Rattle.tl_witness.specs.Chain.{IsChain};
ghost use Rattle.tl_witness.specs.Open.{HasEachKeyOnce, HasTwice, IsKept, OpensBook, RefusesBook, cosigner_names, saved_chain, trusted_origins};
ghost use Rattle.tl_witness.specs.Opening.{ChecksChains, TakesChain};

use crate::book::{Book, Shown};
use crate::by_origin::{ByOrigin, OfOrigin, first_without, places_in};
use crate::chain::Chain;
use crate::cosign::{Tools, name_of};
use crate::origin_state::{Origin, OriginState, ShownState};
use crate::trust::{HasKeys, ShownTrust, Trust, are_keys_once, first_bad_name};
use std::alloc::{AllocError, Allocator, Global};
use std::mem;
use thiserror::Error;
use tl_hash::TreeHash;
use tl_proof::Link;

/// Why a book is not opened. Trusts, chains and links are counted from 0.
#[derive(Clone, Copy, Debug, PartialEq, Eq, Error)]
pub enum BookFault {
    /// An origin is in two trusts or two chains, or two verifiers of a trust have the same name and identifier.
    #[error("an origin or a verifier is named twice")]
    TwiceNamed,
    /// The origin of this chain is in no trust.
    #[error("chain {0} is of no origin that is trusted")]
    NoTrust(usize),
    /// The cosigner of this trust has no valid key name.
    #[error("the cosigner of trust {0} has a bad name")]
    BadName(usize),
    /// This link of this chain isn't accepted from the one before.
    #[error("link {link} of chain {chain} isn't accepted")]
    BadChain {
        /// The position of the chain.
        chain: usize,
        /// The position of the link in the chain.
        link: usize,
    },
    /// Allocation failed. It never comes if there is no trust and no chain.
    #[error("out of memory")]
    OutOfMemory,
}

impl<A: Allocator> OfOrigin for (String<A>, Vec<Link<A>, A>) {
    ghost origin_of = { λ c. string_bytes c.0 };

    fn origin(&self) -> &str {
        self.0.as_str()
    }
}

// A checked chain and its origin.
#[derive(Drop)]
struct Checked<T: TreeHash, A: Allocator> {
    origin: String<A>,
    chain: Chain<T, A>,
}

impl<T: TreeHash, A: Allocator> OfOrigin for Checked<T, A> {
    ghost origin_of = { λ c. string_bytes c.origin };

    fn origin(&self) -> &str {
        self.origin.as_str()
    }
}

// Checks the chains. The error has the positions of the first chain that breaks and of the link at which it does.
fn check_chains<T: TreeHash, A: Allocator + Copy>(
    alloc: A,
    tree: T,
    chains: Vec<(String<A>, Vec<Link<A>, A>), A>,
) -> Result<Vec<Checked<T, A>, A>, BookFault>
    ensures ok { IfOk result
        (λ checked. (map (λ c. saved_chain (string_bytes c.origin) c.chain) checked.items ≡ map
        (λ c. saved_chain (string_bytes c.0) (map step_of c.1.items)) chains.items)
        × All (λ c. IsChain T.digest_of c.steps)
        (map (λ c. saved_chain (string_bytes c.0) (map step_of c.1.items)) chains.items)) }
    ensures err { IfErr result (ChecksChains T.digest_of
        (map (λ c. saved_chain (string_bytes c.0) (map step_of c.1.items)) chains.items)) }
{
    let mut checked = Vec::new(alloc);
    for (origin, links) in chains {
        let chain = match Chain::from_links(tree, links) {
            Ok(chain) => chain,
            Err(link) => {
                return Err(BookFault::BadChain {
                    chain: checked.len(),
                    link,
                });
            }
        };
        match checked.push(Checked { origin, chain }) {
            Ok(()) => {}
            Err(_) => return Err(BookFault::OutOfMemory),
        }
    }
    Ok(checked)
}

// Takes the chain of an origin out of `chains`, or returns one of no links if it has none. `places` has the positions
// of the chains.
fn take_chain<T: TreeHash, A: Allocator + Copy>(
    alloc: A,
    tree: T,
    chains: &mut Vec<Checked<T, A>, A>,
    places: &ByOrigin<A>,
    origin: &str,
) -> Chain<T, A>
    requires { Indexes (index_of places.now) (map (λ c. string_bytes c.origin) chains.old.items) }
    ensures { TakesChain origin.now
        (map (λ c. saved_chain (string_bytes c.origin) c.chain) chains.old.items)
        (map (λ c. saved_chain (string_bytes c.origin) c.chain) chains.new.items) result }
{
    match places.find(origin) {
        Some(place) => {
            let checked = &mut chains[place];
            mem::replace(&mut checked.chain, Chain::new(alloc, tree))
        }
        None => Chain::new(alloc, tree),
    }
}

// Returns what is kept for each trust, in order: its chain, or one of no links. It fails only if allocation fails.
fn enter<T: TreeHash, A: Allocator + Copy>(
    alloc: A,
    tree: T,
    trusts: Vec<Trust<A>, A>,
    chains: Vec<Checked<T, A>, A>,
    places: &ByOrigin<A>,
) -> Result<Vec<OriginState<T, A>, A>, AllocError>
    requires places { Indexes
        (index_of places.now) (map (λ c. string_bytes c.origin) chains.items) }
    requires once { ¬ (HasTwice
        (trusted_origins (map (λ t. ⟦<Trust<A> as ShownTrust>⟧.trusted t) trusts.items))) }
    requires named { All IsKeyName
        (cosigner_names (map (λ t. ⟦<Trust<A> as ShownTrust>⟧.trusted t) trusts.items)) }
    ensures kept { IfOk result (λ states.
        AllZip (IsKept (map (λ c. saved_chain (string_bytes c.origin) c.chain) chains.items))
        (map (λ t. ⟦<Trust<A> as ShownTrust>⟧.trusted t) trusts.items)
        (map (λ e. ⟦<OriginState<T, A> as ShownState>⟧.shown_state e) states.items)) }
    ensures memory { OnErr result (0 < length trusts.items) }
{
    let mut left = chains;
    let mut states = Vec::new(alloc);
    for trust in trusts {
        let chain = take_chain(alloc, tree, &mut left, places, trust.origin.as_str());
        let Trust {
            origin,
            verifiers,
            cosigner,
        } = trust;
        let cosigner_name = name_of(alloc, &cosigner)?;
        let origin = Origin {
            name: origin,
            verifiers,
            cosigner,
            cosigner_name,
        };
        states.push(OriginState { origin, chain })?;
    }
    Ok(states)
}

// The positions of the origins in the trusts and in the chains.
#[derive(Drop)]
struct Places<A: Allocator> {
    trusts: ByOrigin<A>,
    chains: ByOrigin<A>,
}

// Returns the positions of the origins in the trusts and in the chains. It is `None` if an origin is in two trusts or
// two chains, or a trust has two verifiers of the same name and identifier.
fn places_of<N: OfOrigin + HasKeys, M: OfOrigin, A: Allocator + Copy>(
    alloc: A,
    trusts: &[N],
    chains: &[M],
) -> Result<Option<Places<A>>, AllocError>
    ensures ok { IfOk result (λ found. MatchOption found
        (¬ (¬ (HasTwice (map N.origin_of trusts.now)) × ¬ (HasTwice (map M.origin_of chains.now))
        × All HasEachKeyOnce (map N.keys trusts.now))) (λ places.
        (¬ (HasTwice (map N.origin_of trusts.now)) × ¬ (HasTwice (map M.origin_of chains.now))
        × All HasEachKeyOnce (map N.keys trusts.now)) × Indexes (index_of places.trusts) (map
        N.origin_of trusts.now) × Indexes (index_of places.chains) (map M.origin_of chains.now))) }
    ensures err { OnErr result ((0 < length trusts.now) ⊎ (0 < length chains.now)) }
{
    if !are_keys_once(trusts) {
        return Ok(None);
    }
    let trusts = match places_in(alloc, trusts) {
        Ok(Some(places)) => places,
        Ok(None) => return Ok(None),
        Err(fault) => return Err(fault),
    };
    let chains = match places_in(alloc, chains) {
        Ok(Some(places)) => places,
        Ok(None) => return Ok(None),
        Err(fault) => return Err(fault),
    };
    Ok(Some(Places { trusts, chains }))
}

impl<T: TreeHash, A: Allocator + Copy> Book<T, A> {
    /// Opens a book with the logs that the witness trusts and the chains that were saved. The chain of an origin that
    /// none was saved for begins with size 0 and the hash of no bytes. The cosigners allocate from `global`.
    ///
    /// If several faults apply, the first is returned, in this order: `TwiceNamed`; the first chain without a trust;
    /// the first cosigner without a valid key name; the first chain that breaks, with its first link that isn't
    /// accepted.
    pub fn open(
        alloc: A,
        global: Global,
        tree: T,
        trusts: Vec<Trust<A>, A>,
        chains: Vec<(String<A>, Vec<Link<A>, A>), A>,
    ) -> Result<Self, BookFault>
        ensures ok { IfOk result (λ book.
            OpensBook T.digest_of (map (λ t. ⟦<Trust<A> as ShownTrust>⟧.trusted t) trusts.items)
            (map (λ c. saved_chain (string_bytes c.0) (map step_of c.1.items)) chains.items)
            (⟦<Book<T, A> as Shown>⟧.shown book)) }
        ensures err { IfErr result
            (RefusesBook T.digest_of (map (λ t. ⟦<Trust<A> as ShownTrust>⟧.trusted t) trusts.items)
            (map (λ c. saved_chain (string_bytes c.0) (map step_of c.1.items)) chains.items)) }
    {
        let places = match places_of(alloc, trusts.as_slice(), chains.as_slice()) {
            Ok(Some(places)) => places,
            Ok(None) => return Err(BookFault::TwiceNamed),
            Err(_) => return Err(BookFault::OutOfMemory),
        };
        if let Some(chain) = first_without(&places.trusts, chains.as_slice()) {
            return Err(BookFault::NoTrust(chain));
        }
        if let Some(trust) = first_bad_name(trusts.as_slice()) {
            return Err(BookFault::BadName(trust));
        }
        let checked = match check_chains(alloc, tree, chains) {
            Ok(checked) => checked,
            Err(fault) => return Err(fault),
        };
        let Ok(states) = enter(alloc, tree, trusts, checked, &places.chains) else {
            return Err(BookFault::OutOfMemory);
        };
        Ok(Book {
            tools: Tools::new(tree, alloc, global),
            states,
            places: places.trusts,
        })
    }
}
