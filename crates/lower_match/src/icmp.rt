//! The alternatives of ICMP types.
ghost use Rattle.std.specs.Prelude.{◌≡◌, ◌++◌, IfOk, OnOk};
ghost use Rattle.fw_addr.specs.Icmp.{icmp};
ghost use Rattle.lower_match.specs.Forms.{icmp_alternatives, typed};

use crate::alternatives::of_one;
use fw_addr::{Family, icmp_numbers};
use fw_base::{Memory, Seq};
use nf_rules::{Match, Test};
use std::alloc::Global;

/// The type of a name (firewalld.icmptype(5)): its number in ICMP, its number in ICMPv6, or both, one after the other. A name
/// that isn't known has no alternative.
pub fn icmp_matches(alloc: Global, name: &str) -> Result<Seq<Seq<Match>>, Memory>
    ensures { IfOk result (λ alternatives. alternatives ≡ icmp_alternatives (icmp name.now)) }
{
    let mut alternatives = Seq::new(alloc);
    if let Some(numbers) = icmp_numbers(name) {
        push_type(alloc, Family::V4, numbers.v4, &mut alternatives)?;
        push_type(alloc, Family::V6, numbers.v6, &mut alternatives)?;
    }
    Ok(alternatives)
}

fn push_type(
    alloc: Global,
    family: Family,
    number: Option<u8>,
    alternatives: &mut Seq<Seq<Match>>,
) -> Result<(), Memory>
    ensures { OnOk result (alternatives.new ≡ alternatives.old ++ typed family number) }
{
    if let Some(number) = number {
        alternatives.push(of_one(alloc, Test::Icmp(family, number))?)?;
    }
    Ok(())
}
