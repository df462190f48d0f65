//! What the arguments of calls on zones say as texts.
use fw_base::{Memory, Text};
use fw_calls::{BindingKind, BindingWord, SettingVerb, SettingWords};

/// What is done with a setting; behind `add` how long it stays.
pub fn tell_setting_verb(out: &mut String, verb: SettingVerb) -> Result<(), Memory> {
    match verb {
        SettingVerb::Add { timeout } => write!(out, "add for {timeout}")?,
        SettingVerb::Remove => out.push_str("remove")?,
        SettingVerb::Query => out.push_str("query")?,
    }
    Ok(())
}

pub fn tell_setting(out: &mut String, setting: &SettingWords) -> Result<(), Memory> {
    match setting {
        SettingWords::Service { name } => write!(out, "service [{name}]")?,
        SettingWords::Port { port, protocol } => write!(out, "port [{port}] [{protocol}]")?,
        SettingWords::SourcePort { port, protocol } => {
            write!(out, "source-port [{port}] [{protocol}]")?;
        }
        SettingWords::Protocol { protocol } => write!(out, "protocol [{protocol}]")?,
        SettingWords::IcmpBlock { name } => write!(out, "icmp-block [{name}]")?,
        SettingWords::Masquerade => out.push_str("masquerade")?,
        SettingWords::ForwardPort {
            port,
            protocol,
            to_port,
            to_address,
        } => {
            write!(out, "forward-port [{port}] [{protocol}]")?;
            write!(out, " [{to_port}] [{to_address}]")?;
        }
        SettingWords::RichRule { rule } => write!(out, "rich-rule [{rule}]")?,
    }
    Ok(())
}

pub fn tell_binding(out: &mut String, binding: &BindingWord) -> Result<(), Memory> {
    let kind = match binding.kind {
        BindingKind::Interface => "interface",
        BindingKind::Source => "source",
    };
    write!(out, "{kind} [{}]", binding.text)?;
    Ok(())
}

/// A list of texts, in parentheses.
pub fn tell_texts(out: &mut String, texts: &[Text]) -> Result<(), Memory> {
    out.push('(')?;
    for text in texts {
        write!(out, "[{text}]")?;
    }
    out.push(')')?;
    Ok(())
}
