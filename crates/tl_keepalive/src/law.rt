//! A law of connections that carry one request after another.

ghost use Rattle.tl_hash.specs.Bytes.{Bytes};
ghost use Rattle.tl_keepalive.specs.Conversation.{Calls, IsConversation};
ghost use Rattle.tl_keepalive.specs.Exchanges.{Exchanges};

/// What an input may lead to while a connection lasts.
pub trait Leads {
    ghost use Rattle.std.specs.Prelude.{Option};
    ghost use Rattle.tl_hash.specs.Bytes.{Bytes};
    ghost use Rattle.tl_server.specs.Adding.{Course};

    /// Whether an input may lead to this.
    ghost ever: { Bytes → Option Course → Type 0 };
}

/// However bytes come, and in whatever order the calls of an `Exchanges` are made: all that is sent are the answers to
/// the requests at the front of the input, one after another, each to the bytes from where the last one ended.
pub fn what_is_sent_is_a_conversation<L: Leads>()
    ensures { (all out : Bytes) (e : Exchanges)
        → Calls L.ever all out e → IsConversation L.ever all out e }
{}
