//! Settings, one a word.
use fw_addr::{read_addr, read_port_proto, read_ports, read_proto};
use fw_base::{Memory, Seq, Text};
use fw_model::{Forward, Notes, Port, Rules};
use fw_rich::read_rich;
use fw_words::LineError;
use std::alloc::Global;

/// No notes.
pub fn no_notes(alloc: Global) -> Result<Notes, Memory> {
    Ok(Notes {
        version: Text::of(alloc, "")?,
        short: Text::of(alloc, "")?,
        description: Text::of(alloc, "")?,
    })
}

fn no_rules(alloc: Global) -> Rules {
    Rules {
        services: Seq::new(alloc),
        ports: Seq::new(alloc),
        protocols: Seq::new(alloc),
        source_ports: Seq::new(alloc),
        icmp_blocks: Seq::new(alloc),
        masquerade: false,
        forwards: Seq::new(alloc),
        rich: Seq::new(alloc),
    }
}

/// The settings of these words.
pub fn read_rules(alloc: Global, words: &[&str]) -> Result<Rules, LineError> {
    let mut rules = no_rules(alloc);
    for word in words {
        add_setting(alloc, &mut rules, word)?;
    }
    Ok(rules)
}

/// Adds a setting: `masquerade`, a rich rule, `service=NAME`, `icmp=NAME`, `proto=NAME`, `sport=PORT/PROTOCOL`, `PORT/PROTOCOL`, or
/// `PORT/PROTOCOL=TOPORT=TOADDR` with parts that may be empty.
pub fn add_setting(alloc: Global, rules: &mut Rules, word: &str) -> Result<(), LineError> {
    if word == "masquerade" {
        rules.masquerade = true;
    } else if word.starts_with("rule ") {
        let Ok(rule) = read_rich(alloc, word) else {
            return Err(LineError::BadLine);
        };
        rules.rich.push(rule)?;
    } else if let Some((key, value)) = word.split_once('=') {
        add_valued(alloc, rules, key, value)?;
    } else {
        rules.ports.push(read_port(word)?)?;
    }
    Ok(())
}

fn add_valued(alloc: Global, rules: &mut Rules, key: &str, value: &str) -> Result<(), LineError> {
    match key {
        "service" => rules.services.push(Text::of(alloc, value)?)?,
        "icmp" => rules.icmp_blocks.push(Text::of(alloc, value)?)?,
        "proto" => {
            let Ok(protocol) = read_proto(value) else {
                return Err(LineError::BadLine);
            };
            rules.protocols.push(protocol)?;
        }
        "sport" => rules.source_ports.push(read_port(value)?)?,
        _ => rules.forwards.push(read_forward(key, value)?)?,
    }
    Ok(())
}

/// `PORT/PROTOCOL`.
pub fn read_port(word: &str) -> Result<Port, LineError> {
    let Some((range, proto)) = word.split_once('/') else {
        return Err(LineError::BadLine);
    };
    let Ok(range) = read_ports(range) else {
        return Err(LineError::BadLine);
    };
    let Ok(proto) = read_port_proto(proto) else {
        return Err(LineError::BadLine);
    };
    Ok(Port { range, proto })
}

fn read_forward(port: &str, target: &str) -> Result<Forward, LineError> {
    let Some((to_port, to_addr)) = target.split_once('=') else {
        return Err(LineError::BadLine);
    };
    Ok(Forward {
        port: read_port(port)?,
        to_port: to_port.parse::<u16>().ok(),
        to_addr: read_addr(to_addr).ok(),
    })
}

/// Several names between commas, or `-` for none.
pub fn read_names(alloc: Global, word: &str) -> Result<Seq<Text>, LineError> {
    let mut names = Seq::new(alloc);
    if word != "-" {
        for name in word.split(',') {
            names.push(Text::of(alloc, name)?)?;
        }
    }
    Ok(names)
}
