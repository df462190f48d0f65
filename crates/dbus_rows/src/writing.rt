//! Messages written behind other bytes.
use anyhow::{Result, anyhow};
use dbus_msg::write_message;
use dbus_samples::{answer, pong};
use hex::encode;
use std::alloc::Global;

/// The return of a call of Ping and one of call 7 with the value true, behind so many other bytes.
fn returns(alloc: Global, front: usize) -> Result<Vec<u8>> {
    let mut out = Vec::new(alloc);
    for _ in 0..front {
        out.push(200)?;
    }
    write_message(&pong(alloc, 1, 1), &mut out)?;
    write_message(&answer(alloc, 3, 7, true)?, &mut out)?;
    let (before, written) = out.as_slice().split_at(front.min(out.len()));
    if before.iter().any(|byte| *byte != 200) {
        return Err(anyhow!("the bytes before were changed"));
    }
    Ok(written.to_vec(alloc)?)
}

/// Two returns, which are the same bytes behind up to eight other bytes.
pub fn returns_told(alloc: Global) -> Result<String> {
    let first = returns(alloc, 0)?;
    for front in 1..9usize {
        let written = returns(alloc, front)?;
        if written.as_slice() != first.as_slice() {
            return Ok(format!(in alloc; "otherwise behind {front} bytes")?);
        }
    }
    Ok(encode(alloc, first.as_slice())?)
}
