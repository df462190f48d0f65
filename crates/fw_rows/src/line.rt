//! The lines.
use crate::ipsets::{read_ipset, read_service};
use crate::zones::{bind, change_rich, read_policy, read_zone, set};
use fw_base::Text;
use fw_model::Config;
use fw_words::LineError;
use std::alloc::Global;

/// Does to a configuration what the words of a line say.
///
/// - `default NAME` names the default zone.
/// - `zone NAME TARGET SETTING ..` adds a zone, `policy NAME PRIORITY TARGET INGRESS EGRESS SETTING ..` a policy.
/// - `service NAME INCLUDES IPV4 IPV6 PORT ..` adds a service, `ipset NAME KIND FAMILY TIMEOUT ITEM ..` a set.
/// - `bind ZONE ENTRY ..` lists interfaces and sources in a zone.
/// - `set ZONE SETTING ..` adds settings to a zone, `family ZONE FAMILY` and `priority ZONE NUMBER` change its last rich rule.
///
/// BadLine: it is none of these, a word can't be read, or there is no such zone.
pub fn edit(alloc: Global, config: &mut Config, words: &[&str]) -> Result<(), LineError> {
    let [kind, rest @ ..] = words else {
        return Err(LineError::BadLine);
    };
    match *kind {
        "default" => {
            let [name] = rest else {
                return Err(LineError::BadLine);
            };
            config.default_zone = Text::of(alloc, name)?;
        }
        "zone" => config.zones.push(read_zone(alloc, rest)?)?,
        "policy" => config.policies.push(read_policy(alloc, rest)?)?,
        "service" => config.services.push(read_service(alloc, rest)?)?,
        "ipset" => config.ipsets.push(read_ipset(alloc, rest)?)?,
        "bind" => bind(alloc, config, rest)?,
        "set" => set(alloc, config, rest)?,
        "family" => change_rich(config, rest, true)?,
        "priority" => change_rich(config, rest, false)?,
        _ => return Err(LineError::BadLine),
    }
    Ok(())
}
