//! Rows of objects that are put into a bucket and got from it, under the key of AWS's examples: the answer to a
//! response, and the request before it.

use crate::requests::KEY;
use crate::words::{Told, Words, bytes_of};
use std::alloc::{AllocError, Global};
use std::str;
use tl_device::Counted;
use tl_http::HttpFault;
use tl_s3::{
    Bucket, Condition, GetReply, Moment, Object, ObjectFault, PutReply, get_object, put_object,
};

// The bucket of the rows.
const BUCKET: Bucket<'static> = Bucket {
    host: "127.0.0.1:7480",
    prefix: "/logs",
    credential: KEY,
};

// The most bytes of an object that is got.
const MOST: usize = 32;

// More bytes than any request has, so that no write runs out of memory.
const ROOM: usize = 4_096;

// Returns the text that these bytes are.
fn text_of(bytes: &[u8]) -> &str {
    str::from_utf8(bytes).unwrap_or("no text")
}

// Writes an entity tag, whether the connection stays open, and a body.
fn put_rest(etag: &Option<Vec<u8>>, stays_open: bool, body: &[u8], out: &mut String) -> Told {
    match etag {
        Some(etag) => write!(out, ", tag {}", text_of(etag.as_slice()))?,
        None => out.push_str(", no tag")?,
    }
    out.push_str(if stays_open { ", open" } else { ", closed" })?;
    write!(out, "\n{}", text_of(body))
}

// Writes the answer of a put.
fn put_put(outcome: &Result<PutReply<Global>, ObjectFault>, out: &mut String) -> Told {
    match outcome {
        Ok(reply) => {
            write!(out, "{:?}", reply.answer)?;
            put_rest(&reply.etag, reply.stays_open, reply.body.as_slice(), out)
        }
        Err(ObjectFault::OutOfMemory | ObjectFault::Get(HttpFault::OutOfMemory)) => {
            Err(AllocError)
        }
        Err(fault) => write!(out, "{fault}"),
    }
}

// Writes the answer of a get.
fn put_got(outcome: &Result<GetReply<Global>, ObjectFault>, out: &mut String) -> Told {
    match outcome {
        Ok(reply) => {
            write!(out, "{:?}", reply.answer)?;
            put_rest(&reply.etag, reply.stays_open, reply.body.as_slice(), out)
        }
        Err(ObjectFault::OutOfMemory | ObjectFault::Get(HttpFault::OutOfMemory)) => {
            Err(AllocError)
        }
        Err(fault) => write!(out, "{fault}"),
    }
}

// Writes the request without the carriage returns of its lines.
fn put_written(written: &[u8], out: &mut String) -> Told {
    for line in text_of(written).split("\r\n") {
        write!(out, "\n> {line}")?;
    }
    Ok(())
}

// Writes the answer of a get of the object with this path to a response.
fn get(alloc: Global, moment: &Moment, path: &str, response: &[u8], out: &mut String) -> Told {
    let mut reader = Counted::new(response);
    let mut writer = Counted::new(Vec::with_capacity(alloc, ROOM)?);
    let got = get_object(alloc, &mut reader, &mut writer, &BUCKET, moment, path, MOST);
    put_got(&got, out)?;
    put_written(writer.into_inner().as_slice(), out)
}

// Returns the condition that the words say: an entity tag if they are no other word.
fn condition_of(words: &str) -> Condition<'_> {
    match words {
        "always" => Condition::Always,
        "absent" => Condition::Absent,
        etag => Condition::Matches(etag),
    }
}

// Writes the answer of a put of an object to a response.
fn put(
    alloc: Global,
    moment: &Moment,
    object: &Object<'_>,
    condition: Condition<'_>,
    response: &[u8],
    out: &mut String,
) -> Told {
    let mut reader = Counted::new(response);
    let mut writer = Counted::new(Vec::with_capacity(alloc, ROOM)?);
    let done = put_object(
        alloc,
        &mut reader,
        &mut writer,
        &BUCKET,
        moment,
        object,
        condition,
    );
    put_put(&done, out)?;
    put_written(writer.into_inner().as_slice(), out)
}

// Writes the answer of a call at a moment.
fn answer_at(
    alloc: Global,
    call: &str,
    words: &mut Words<'_>,
    moment: &Moment,
    response: &[u8],
    out: &mut String,
) -> Told {
    let path = words.next();
    if call == "get" {
        return get(alloc, moment, path, response, out);
    }
    let body = bytes_of(alloc, words.next())?;
    let object = Object {
        path,
        content_type: "application/octet-stream",
        cache_control: "max-age=604800, immutable",
        body: body.as_slice(),
    };
    put(
        alloc,
        moment,
        &object,
        condition_of(words.left),
        response,
        out,
    )
}

/// Writes the answer of a call.
pub(crate) fn answer(alloc: Global, words: &mut Words<'_>, text: &str, out: &mut String) -> Told {
    let call = words.next();
    match Moment::from_unix_seconds(words.number()) {
        Some(moment) => answer_at(alloc, call, words, &moment, text.as_bytes(), out),
        None => out.push_str("none"),
    }
}
