//! The chains to which maps lead packets.
ghost use Rattle.std.specs.Prelude.{◌≡◌, option_copied};
ghost use Rattle.std.specs.List.{find};
ghost use Rattle.std.specs.Option.{option_map};
ghost use Rattle.fw_addr.specs.Interfaces.{matches};
ghost use Rattle.fw_addr.specs.Subnets.{in_net};
ghost use Rattle.nf_sound.specs.Names.{AreByName, map_of};
ghost use Rattle.nf_chains.specs.Maps.{by_address, by_link, key_of_address, key_of_link, led_dst, led_in, led_out, led_src, link_of};
ghost use Rattle.nf_chains.specs.Courses.{now_is};
ghost use Rattle.nf_chains.specs.Scenes.{leaving_of};

use crate::course::Course;
use crate::scene::Scene;
use fw_addr::{Addr, Iface, Net};
use fw_base::Text;
use fw_model::Origin;
use nf_rules::{MapBody, Ruleset};
use nf_sound::map_called;

/// The chain that a map has for the interface by which the packet came.
pub fn led_in<'a>(scene: &Scene<'a>, name: &str) -> Option<&'a str>
    requires { AreByName scene.now.rules.now }
    ensures { option_copied result ≡ led_in scene.now.rules.now scene.now.packet.now name.now }
{
    by_link(
        link_of(&scene.packet.origin),
        body_called(scene.rules, name)?,
    )
}

/// The chain that a map has for the interface by which the packet leaves.
pub fn led_out<'a>(scene: &Scene<'a>, name: &str) -> Option<&'a str>
    requires { AreByName scene.now.rules.now }
    ensures { option_copied result ≡ led_out scene.now.rules.now (leaving_of scene.now) name.now }
{
    by_link(scene.leaving, body_called(scene.rules, name)?)
}

/// The chain that a map has for the packet's source.
pub fn led_src<'a>(scene: &Scene<'a>, name: &str) -> Option<&'a str>
    requires { AreByName scene.now.rules.now }
    ensures { option_copied result ≡ led_src scene.now.rules.now scene.now.packet.now name.now }
{
    by_address(&scene.packet.src, body_called(scene.rules, name)?)
}

/// The chain that a map has for the packet's destination as it is now.
pub fn led_dst<'a>(scene: &Scene<'a>, course: &Course, name: &str) -> Option<&'a str>
    requires { AreByName scene.now.rules.now }
    ensures { option_copied result ≡ led_dst scene.now.rules.now (now_is scene.now.packet.now course.now) name.now }
{
    by_address(&course.parts.dst, body_called(scene.rules, name)?)
}

/// The interface by which a packet came, where it came by one.
fn link_of(origin: &Origin) -> Option<&str>
    ensures { option_copied result ≡ link_of origin.now }
{
    match origin {
        Origin::Host => None,
        Origin::Link(name) => Some(name.as_str()),
    }
}

/// What the map of a name holds.
fn body_called<'a>(rules: &'a Ruleset, name: &str) -> Option<&'a MapBody>
    requires { AreByName rules.now }
    ensures { option_copied result ≡ option_map (λ map. map.body) (map_of rules.now.maps name.now) }
{
    match map_called(rules.maps.as_slice(), name) {
        Some(map) => Some(&map.body),
        None => None,
    }
}

/// What a map has for an interface, where there is one.
fn by_link<'a>(link: Option<&str>, body: &'a MapBody) -> Option<&'a str>
    ensures { option_copied result ≡ by_link (option_copied link.entry) body.now }
{
    let link = link?;
    match body {
        MapBody::Ifaces(pairs) => key_of_link(link, pairs.as_slice()),
        MapBody::Nets(_) => None,
    }
}

/// What a map has for an address.
fn by_address<'a>(address: &Addr, body: &'a MapBody) -> Option<&'a str>
    ensures { option_copied result ≡ by_address address.now body.now }
{
    match body {
        MapBody::Ifaces(_) => None,
        MapBody::Nets(pairs) => key_of_address(address, pairs.as_slice()),
    }
}

/// The chain of the first key that stands for an interface.
fn key_of_link<'a>(link: &str, pairs: &'a [(Iface, Text)]) -> Option<&'a str>
    ensures { option_copied result ≡ key_of_link link.now pairs.now }
{
    match pair_of_link(link, pairs) {
        Some(pair) => Some(pair.1.as_str()),
        None => None,
    }
}

fn pair_of_link<'a>(link: &str, pairs: &'a [(Iface, Text)]) -> Option<&'a (Iface, Text)>
    ensures { option_copied result ≡ find (λ pair. matches pair.0 link.now) pairs.now }
{
    pairs.iter().find(|pair| pair.0.matches(link))
}

/// The chain of the first key in whose net an address lies.
fn key_of_address<'a>(address: &Addr, pairs: &'a [(Net, Text)]) -> Option<&'a str>
    ensures { option_copied result ≡ key_of_address address.now pairs.now }
{
    match pair_of_address(address, pairs) {
        Some(pair) => Some(pair.1.as_str()),
        None => None,
    }
}

fn pair_of_address<'a>(address: &Addr, pairs: &'a [(Net, Text)]) -> Option<&'a (Net, Text)>
    ensures { option_copied result ≡ find (λ pair. in_net pair.0 address.now) pairs.now }
{
    pairs.iter().find(|pair| pair.0.contains(address))
}
