//! What stays as it is while a packet meets a hook.
use fw_model::Packet;
use nf_rules::Ruleset;

/// A packet among the rules of a ruleset.
#[derive(Drop)]
pub struct Scene<'a> {
    pub rules: &'a Ruleset,
    /// The interface by which the packet leaves, where that is known.
    pub leaving: Option<&'a str>,
    pub packet: &'a Packet,
}
