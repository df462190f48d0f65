//! Rows of the D-Bus crates, one a line, and what becomes of each: lines of authentication, signatures, values of each type in both byte orders,
//! read and written again, messages read, streams of them in pieces, and messages written. Bytes are hexadecimal. What is to be printed was
//! worked out by hand from the D-Bus Specification and stands in the file stdout beside src/. Lines that begin with `#` say what follows.
#![tactic(auto)]

mod again;
mod at_offsets;
mod large;
mod messages;
mod streams;
mod values;
mod writing;

use anyhow::{Result, anyhow};
use at_offsets::again_told;
use dbus_auth::{Auth, guid};
use dbus_signature::read_signature;
use large::{numbers_told, variants_told};
use messages::{call_told, message_told};
use std::alloc::Global;
use streams::{cuts_told, lengths_told, pieces_told};
use values::value_told;
use writing::returns_told;

fn main(rt: HostRuntime) -> Result<()> {
    let alloc = rt.alloc();
    let mut auth = Auth::new();
    for line in rt.lines(alloc) {
        let line = line?;
        if line.starts_with('#') {
            continue;
        }
        let told = told(alloc, &mut auth, line.as_str())?;
        println!(rt; "{}: {}", line.as_str(), told.as_str())?;
    }
    Ok(())
}

/// What becomes of a row: its first word says what it is about.
fn told(alloc: Global, auth: &mut Auth, line: &str) -> Result<String> {
    let (kind, rest) = line.split_once(' ').unwrap_or((line, ""));
    match kind {
        "authentication" => begun(alloc, auth),
        "line" => Ok(format!(in alloc; "{:?}", auth.line(rest.as_bytes()))?),
        "signature" => signature_told(alloc, rest),
        "value" => value_told(alloc, rest),
        "again" => again_told(alloc, rest),
        "variants" => variants_told(alloc, rest),
        "numbers" => numbers_told(alloc, rest),
        "message" => message_told(alloc, rest),
        "call" => call_told(alloc, rest),
        "pieces" => pieces_told(alloc, rest),
        "cuts" => cuts_told(alloc, rest),
        "lengths" => lengths_told(alloc, rest),
        "returns" => returns_told(alloc),
        _ => Err(anyhow!("no such row")),
    }
}

/// A new authentication begins, with the server's GUID.
fn begun(alloc: Global, auth: &mut Auth) -> Result<String> {
    *auth = Auth::new();
    Ok(format!(in alloc; "{}", guid())?)
}

/// Whether a text is a signature, or where it is at fault.
fn signature_told(alloc: Global, text: &str) -> Result<String> {
    match read_signature(alloc, text.as_bytes()) {
        Ok(_) => Ok(format!(in alloc; "a signature")?),
        Err(error) => Ok(format!(in alloc; "{error:?}")?),
    }
}
