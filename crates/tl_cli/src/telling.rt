//! The line of a fault on standard error, with the file, the folder or the address that the options name.

ghost use Rattle.std.specs.Prelude.{◌≡◌, ◌++◌, IfOk, None, codes, option_map, string_bytes};
ghost use Rattle.tl_text.specs.Text.{line};
ghost use Rattle.tl_device.specs.Device.{passage};
ghost use Rattle.tl_device.specs.Faults.{device_words};
ghost use Rattle.tl_bucket.specs.FaultWords.{bucket_words};
ghost use Rattle.tl_run.specs.Faults.{nothing_words};
ghost use Rattle.tl_run.specs.declared.place.Place.TheVariants.{Log};
ghost use Rattle.tl_cli.specs.Named.{address_of, base_of, credentials_of, log_of, logs_file, new_key_of};
ghost use Rattle.tl_cli.specs.Told.{IsLineAt, IsLineOf, IsLineOfFetch, IsLineOfProve, IsLineOfRun, IsLineOfWitness, IsWhere, TellsFault, Wrote, address_line, address_words, credentials_line, is_secure, key_path, line_or_none, line_under, resource_of};

use crate::fault::{CommandFault, KeyFile};
use crate::job::Job;
use crate::naming::{
    address_of, base_of, credentials_of, key_option, log_of, logs_file, named_file, new_key_of,
};
use std::alloc::{AllocError, Allocator};
use std::io::Write;
use tl_bucket::BucketFault;
use tl_device::{Counted, DeviceFault, write_whole};
use tl_fetch::{Address, FetchFault, fetch_fault_line};
use tl_prove::{NamedFile, ProveFault};
use tl_run::{Place, RunFault, fault_line};
use tl_serve::WitnessFault;
use tl_source::place_of;
use tl_tile::Resource;

// Returns the resource of a place, if it has one.
fn resource_of(place: Place) -> Option<Resource>
    ensures { result ≡ resource_of place }
{
    match place {
        Place::File | Place::State => None,
        Place::Log(resource) => resource,
        Place::Source(resource) => Some(resource),
    }
}

// Returns the path of the resource under `base`, or `base` itself if there is no resource or it has no path.
fn where_is<A: Allocator + Copy>(
    alloc: A,
    base: &str,
    resource: Option<Resource>,
) -> Result<String<A>, AllocError>
    ensures { IfOk result (λ path. IsWhere base.now resource (string_bytes path)) }
{
    let Some(resource) = resource else {
        return String::from_str(alloc, base);
    };
    match place_of(alloc, base, &resource)? {
        Some(path) => Ok(path),
        None => String::from_str(alloc, base),
    }
}

// Returns the line of a fault with these words, at this path.
fn line_at<A: Allocator>(alloc: A, path: &str, words: &str) -> Result<String<A>, AllocError>
    ensures { IfOk result (λ text. string_bytes text
        ≡ line (codes "tlog: " ++ path.now ++ codes ": " ++ words.now)) }
{
    let mut line = String::from_str(alloc, "tlog: ")?;
    line.push_str(path)?;
    line.push_str(": ")?;
    line.push_str(words)?;
    line.push_str("\n")?;
    Ok(line)
}

// Returns the line of a fault at a place.
fn place_line<A: Allocator + Copy>(
    alloc: A,
    job: &Job,
    place: Place,
    words: &str,
) -> Result<String<A>, AllocError>
    ensures { IfOk result
        (λ text. IsLineAt (base_of job.now place) place words.now (string_bytes text)) }
{
    let Some(base) = base_of(job, place) else {
        let name = format!(in alloc; "{place}")?;
        return line_at(alloc, name.as_str(), words);
    };
    let path = where_is(alloc, base, resource_of(place))?;
    line_at(alloc, path.as_str(), words)
}

// Returns a line with its newline, or no text.
fn whole_line<A: Allocator + Copy>(
    alloc: A,
    line: Option<String<A>>,
) -> Result<String<A>, AllocError>
    ensures { IfOk result
        (λ text. string_bytes text ≡ line_or_none (option_map string_bytes line)) }
{
    let Some(mut line) = line else {
        return String::from_str(alloc, "");
    };
    line.push_str("\n")?;
    Ok(line)
}

// Returns the line which says that there is nothing to go on from.
fn nothing_line<A: Allocator + Copy>(
    alloc: A,
    job: &Job,
    place: Place,
) -> Result<String<A>, AllocError>
    ensures { IfOk result
        (λ text. IsLineAt (base_of job.now place) place (nothing_words place) (string_bytes text)) }
{
    let words = format!(in alloc; "no {place} there (use --new to begin one)")?;
    place_line(alloc, job, place, words.as_str())
}

// Returns the line of a fault that other commands have, too, if it has one.
fn run_line<A: Allocator + Copy>(
    alloc: A,
    job: &Job,
    fault: &RunFault,
) -> Result<String<A>, AllocError>
    ensures { IfOk result (λ text. IsLineOfRun job.now fault.now (string_bytes text)) }
{
    match fault {
        RunFault::Device(place, why) => {
            let words = format!(in alloc; "{why}")?;
            place_line(alloc, job, *place, words.as_str())
        }
        RunFault::BadCheckpoint(place) => place_line(alloc, job, *place, "bad checkpoint"),
        RunFault::BadKey => line_at(alloc, key_option(job), "bad key"),
        RunFault::BadKeyFile => place_line(alloc, job, Place::File, "bad key"),
        RunFault::NothingThere(place) => nothing_line(alloc, job, *place),
        _ => whole_line(alloc, fault_line(alloc, fault)?),
    }
}

// Returns the line of a fault with these words, at a path, if there is one.
fn line_under<A: Allocator>(
    alloc: A,
    path: Option<&str>,
    words: &str,
) -> Result<String<A>, AllocError>
    ensures { IfOk result (λ text. string_bytes text
        ≡ line_under (option_map (λ s. s.now) path.entry) words.now) }
{
    match path {
        Some(path) => line_at(alloc, path, words),
        None => line_at(alloc, "file", words),
    }
}

// Returns the line of a fault of `witness`, if it has one.
fn witness_line<A: Allocator + Copy>(
    alloc: A,
    job: &Job,
    fault: &WitnessFault,
) -> Result<String<A>, AllocError>
    ensures { IfOk result (λ text. IsLineOfWitness job.now fault.now (string_bytes text)) }
{
    match fault {
        WitnessFault::Run(fault) => run_line(alloc, job, fault),
        WitnessFault::LogsFile(why) => {
            let words = format!(in alloc; "{why}")?;
            line_under(alloc, logs_file(job), words.as_str())
        }
        WitnessFault::Logs(why) => {
            let words = format!(in alloc; "{why}")?;
            line_under(alloc, logs_file(job), words.as_str())
        }
    }
}

// Returns the line of a fault of a bucket.
fn bucket_line<A: Allocator + Copy>(
    alloc: A,
    job: &Job,
    why: &BucketFault,
) -> Result<String<A>, AllocError>
    ensures { IfOk result (λ text. IsLineAt (log_of job.now) (Log None)
        (bucket_words why.now) (string_bytes text)) }
{
    let words = format!(in alloc; "{why}")?;
    place_line(alloc, job, Place::Log(None), words.as_str())
}

// Returns the line of a fault of the key that signs requests to a bucket.
fn credentials_line<A: Allocator + Copy>(
    alloc: A,
    job: &Job,
    why: &Option<DeviceFault>,
) -> Result<String<A>, AllocError>
    ensures { IfOk result (λ text. string_bytes text
        ≡ credentials_line (credentials_of job.now) why.now) }
{
    let Some(path) = credentials_of(job) else {
        return String::from_str(alloc, "tlog: no credentials\n");
    };
    let Some(why) = why else {
        return line_at(alloc, path, "bad credentials");
    };
    let words = format!(in alloc; "{why}")?;
    line_at(alloc, path, words.as_str())
}

// Returns the line of a fault of a file of a new key.
fn key_line<A: Allocator + Copy>(
    alloc: A,
    job: &Job,
    which: KeyFile,
    why: &DeviceFault,
) -> Result<String<A>, AllocError>
    ensures { IfOk result (λ text. string_bytes text ≡ line (codes "tlog: "
        ++ key_path (new_key_of job.now) which ++ codes ": " ++ device_words why.now)) }
{
    let words = format!(in alloc; "{why}")?;
    let Some(out) = new_key_of(job) else {
        return line_at(alloc, "file", words.as_str());
    };
    match which {
        KeyFile::Private => line_at(alloc, out, words.as_str()),
        KeyFile::Public => {
            let path = format!(in alloc; "{out}.pub")?;
            line_at(alloc, path.as_str(), words.as_str())
        }
    }
}

// Reports whether an address is one over TLS.
fn is_secure(address: &str) -> bool
    ensures { result ≡ is_secure address.now }
{
    address.as_bytes().starts_with(b"https://")
}

// Returns the words for an address that isn't accepted, which may be one over TLS.
fn address_words(is_secure: bool) -> &'static str
    ensures { result.now ≡ address_words is_secure }
{
    if is_secure {
        "bad address (TLS needs a proxy: see docs/OPERATING.md)"
    } else {
        "bad address"
    }
}

// Returns the line of an address that isn't accepted.
fn address_line<A: Allocator>(alloc: A, job: &Job, which: Address) -> Result<String<A>, AllocError>
    ensures { IfOk result
        (λ text. string_bytes text ≡ address_line (address_of job.now which)) }
{
    match address_of(job, which) {
        Some(address) => line_at(alloc, address, address_words(is_secure(address))),
        None => line_at(alloc, "address", "bad address"),
    }
}

// Returns the line of a fault of `fetch` or `feed`, if it has one.
fn fetch_line<A: Allocator + Copy>(
    alloc: A,
    job: &Job,
    fault: &FetchFault,
) -> Result<String<A>, AllocError>
    ensures { IfOk result (λ text. IsLineOfFetch job.now fault.now (string_bytes text)) }
{
    match fault {
        FetchFault::Run(fault) => run_line(alloc, job, fault),
        FetchFault::BadAddress(which) => address_line(alloc, job, *which),
        _ => whole_line(alloc, fetch_fault_line(alloc, fault)?),
    }
}

// Returns the line of a fault of `verify`, `prove` or `submit`, if it has one.
fn prove_line<A: Allocator + Copy>(
    alloc: A,
    job: &Job,
    fault: &ProveFault,
) -> Result<String<A>, AllocError>
    ensures { IfOk result (λ text. IsLineOfProve job.now fault.now (string_bytes text)) }
{
    if let ProveFault::Fetch(fault) = fault {
        return fetch_line(alloc, job, fault);
    }
    let words = format!(in alloc; "{fault}")?;
    let words = words.as_str();
    match fault {
        ProveFault::File(which, _) => line_under(alloc, named_file(job, *which), words),
        ProveFault::PolicyNotText | ProveFault::Policy(_) => {
            line_under(alloc, named_file(job, NamedFile::Policy), words)
        }
        ProveFault::NotPosted(_) => line_under(alloc, address_of(job, Address::From), words),
        _ => Ok(format!(in alloc; "tlog: {words}\n")?),
    }
}

// Returns the line of a fault of a job, if it has one.
fn line_of<A: Allocator + Copy>(
    alloc: A,
    job: &Job,
    fault: &CommandFault,
) -> Result<String<A>, AllocError>
    ensures { IfOk result (λ text. IsLineOf job.now fault.now (string_bytes text)) }
{
    match fault {
        CommandFault::Run(fault) => run_line(alloc, job, fault),
        CommandFault::Fetch(fault) => fetch_line(alloc, job, fault),
        CommandFault::Prove(fault) => prove_line(alloc, job, fault),
        CommandFault::Witness(fault) => witness_line(alloc, job, fault),
        CommandFault::Bucket(why) => bucket_line(alloc, job, why),
        CommandFault::Credentials(why) => credentials_line(alloc, job, why),
        CommandFault::KeyFile(which, why) => key_line(alloc, job, *which, why),
    }
}

// Writes a text, as much of it as the writer takes.
fn write_text<E: Write>(errors: &mut Counted<E>, text: &str)
    ensures { Wrote text.now (passage E.contents errors.old errors.new) }
{
    let _ = write_whole(errors, text.as_bytes());
}

/// Prints the line of a fault of a job, if the fault has one and memory for it can be allocated.
pub(crate) fn tell<A: Allocator + Copy, E: Write>(
    alloc: A,
    job: &Job,
    fault: &CommandFault,
    errors: &mut Counted<E>,
)
    ensures { TellsFault job.now fault.now (passage E.contents errors.old errors.new) }
{
    match line_of(alloc, job, fault) {
        Ok(line) => write_text(errors, line.as_str()),
        Err(_) => {}
    }
}
