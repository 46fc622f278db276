//! A witness that is asked over HTTP.

ghost use Rattle.std.specs.Prelude.{◌≡◌, IfErr};
ghost use Rattle.tl_feed.specs.Asking.{Asks};
ghost use Rattle.tl_feed.specs.Question.{body_of};
ghost use Rattle.tl_feed.specs.Refusing.{IsOfAsking};

use crate::asking::{ask_witness, target_under};
use crate::fault::AskFault;
use crate::proposed::{AsksWitness, Proposed};
use crate::question::{Question, WitnessAnswer};
use crate::unasked::Unasked;
use std::alloc::Global;
use std::net::{Net, TcpStream};
use std::time::{Clock, Duration};
use tl_client::ResourceSource;
use tl_source::{LogHost, Url};

/// A witness at an address (C2SP tlog-witness, "add-checkpoint"). Each request has a time limit. The connection is
/// kept from one request to the next.
#[derive(Drop)]
pub struct HttpWitness<'w, H> {
    /// Opens connections.
    pub rt: &'w H,
    /// The allocator.
    pub alloc: Global,
    /// The witness's address.
    pub url: Url<'w>,
    /// The most time that a request takes, apart from looking up the host's name.
    pub limit: Duration,
    idle: Option<TcpStream>,
}

impl<'w, H> HttpWitness<'w, H> {
    /// Returns the witness at this address. A request to it takes at most `limit`, apart from looking up the host's
    /// name. It connects to nothing yet.
    pub fn new(rt: &'w H, alloc: Global, url: Url<'w>, limit: Duration) -> HttpWitness<'w, H>
        ensures url { result.url ≡ url.entry }
        ensures limit { result.limit ≡ limit }
    {
        HttpWitness {
            rt,
            alloc,
            url,
            limit,
            idle: None,
        }
    }
}

impl<H: Net<Stream = TcpStream> + Clock> HttpWitness<'_, H> {
    // Asks the witness, and returns its answer.
    fn answer(&mut self, question: &Question<'_>) -> Result<WitnessAnswer<Global>, Unasked>
        ensures fault { IfErr result IsOfAsking }
        ensures answer { Asks self.old.url (body_of question.now) result }
        ensures url { self.new.url ≡ self.old.url }
    {
        let Ok(target) = target_under(self.alloc, self.url.prefix) else {
            return Err(Unasked::Ask(AskFault::OutOfMemory));
        };
        let host = LogHost {
            url: self.url,
            limit: self.limit,
        };
        let (rt, alloc, idle) = (self.rt, self.alloc, &mut self.idle);
        ask_witness(rt, alloc, &host, idle, target.as_str(), question)
    }
}

impl<H: Net<Stream = TcpStream> + Clock> AsksWitness for HttpWitness<'_, H> {
    ghost use Rattle.tl_feed.specs.Asking.{Asks};

    ghost asks = { λ w question r. Asks w.url question r };

    fn ask<S: ResourceSource>(
        &mut self,
        _source: &S,
        _proposed: &Proposed<'_>,
        question: &Question<'_>,
    ) -> Result<WitnessAnswer<Global>, Unasked> {
        self.answer(question)
    }
}
