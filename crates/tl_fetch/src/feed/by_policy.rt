//! The command `feed` under the text of a policy.

ghost use Rattle.tl_device.specs.Device.{passage};
ghost use Rattle.tl_policy.specs.Terms.{terms_of};
ghost use Rattle.tl_fetch.specs.ByPolicy.{FeedsBy};

use crate::by_policy::keys_by;
use crate::conditions::Conditions;
use crate::fault::FetchFault;
use crate::feed::command::feed_by;
use crate::freshness::since_of;
use crate::options::FetchOptions;
use crate::under::Under;
use std::alloc::{AllocError, Global};
use std::fs::{File, Files};
use std::io::Write;
use std::net::{Net, TcpStream};
use std::time::Clock;
use tl_device::Counted;
use tl_key::CosignerVerifier;
use tl_note::Verifier;
use tl_policy::{Policy as Text, PolicyWitness};

// Returns the keys of the witnesses that have an address, in order.
fn asked_keys(
    alloc: Global,
    witnesses: &[PolicyWitness<'_>],
) -> Result<Vec<CosignerVerifier<Global>>, AllocError> {
    let mut keys = Vec::new(alloc);
    for witness in witnesses {
        if witness.url.is_some() {
            match CosignerVerifier::new(alloc, witness.key.name(), witness.key.public_key()) {
                Ok(key) => keys.push(key)?,
                Err(_) => return Err(AllocError),
            }
        }
    }
    Ok(keys)
}

// Returns the addresses of these witnesses, in order; those of one key's name that follow one another have one.
fn asked_at(alloc: Global, witnesses: &[PolicyWitness<'_>]) -> Result<Vec<String>, AllocError> {
    let mut addresses = Vec::new(alloc);
    let mut last = "";
    for witness in witnesses {
        if let Some(url) = witness.url {
            if witness.key.name() != last {
                addresses.push(String::from_str(alloc, url)?)?;
            }
            last = witness.key.name();
        }
    }
    Ok(addresses)
}

/// Brings the checkpoint of a log before witnesses as `run_feed` does, under the text of a policy (C2SP tlog-policy) in
/// place of keys and addresses. The log is that of `fetch_by_policy`. Each witness of the policy that has a URL is
/// asked there; keys of one name that follow one another are one witness's, which is asked at the first one's. The
/// note is printed if the policy trusts it with the lines of all that cosigned it; else it fails with `Untrusted`.
pub fn feed_by_policy<H: Files<File = File> + Net<Stream = TcpStream> + Clock, W: Write, E: Write>(
    rt: &H,
    alloc: Global,
    text: &Text<'_, Global>,
    options: &FetchOptions,
    writer: &mut Counted<W>,
    errors: &mut Counted<E>,
) -> Result<(), FetchFault>
    ensures { FeedsBy (terms_of text.now) options.now
        (passage W.contents writer.old writer.new) result }
{
    let keys = keys_by(alloc, text, options.from.as_str())?;
    let to = asked_at(alloc, text.witnesses.as_slice())?;
    let witnesses = asked_keys(alloc, text.witnesses.as_slice())?;
    let origin = String::from_str(alloc, keys.key.name())?;
    let asked = Conditions {
        origin: origin.as_str(),
        witnesses: witnesses.as_slice(),
        need: 0,
        since: None,
        under: Some(Under {
            policy: text,
            since: since_of(rt, options.fresh),
        }),
    };
    feed_by(
        rt,
        alloc,
        keys,
        asked,
        to.as_slice(),
        options,
        writer,
        errors,
    )
}
