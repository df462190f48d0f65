//! What becomes of a packet under the settings in force: the walk of firewalld.zone(5) over zones, with the rules of
//! firewalld.richlanguage(5) and the policies of firewalld.policies(5).
#![tactic(auto)]

mod denied;
mod filter;
mod items;
mod marks;
mod masquerade;
mod outside;
mod policies;
mod rich;
mod sides;
mod translation;
mod way;

pub use filter::{stays_within, target_forwarded};
pub use items::REJECT;
pub use outside::{Place, rules_at, stands_at};
pub use policies::{End, Stage, decided_by_target, policies_at, stands_for};
pub use rich::{Part, audit_name, blocks_icmp, reject_type, rules_in};
pub use sides::{Side, policies_beside, settings_beside};
pub use way::verdict;
