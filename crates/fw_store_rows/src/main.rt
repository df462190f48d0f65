//! The text of the built-in settings, which the file stdout beside src/ has as its table says it.
#![tactic(auto)]

use anyhow::{Result, anyhow};
use fw_service::built_in_config;
use fw_store::config_to_text;

fn main(rt: HostRuntime) -> Result<()> {
    let config = built_in_config(rt.alloc())?;
    let bytes = config_to_text(rt.alloc(), &config)?;
    let Ok(text) = String::from_utf8(bytes) else {
        return Err(anyhow!("no text"));
    };
    println!(rt; "{text}")?;
    Ok(())
}
