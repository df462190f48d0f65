//! The printed form of sets and maps.
ghost use Rattle.std.specs.Prelude.{◌≡◌, ◌++◌, OnOk, string_bytes};
ghost use Rattle.nf_rules.specs.Printed.{element_texts, entry_texts, in_braces};

use super::matches::push_interface;
use super::part::{Part, push_braced};
use crate::{MapBody, NfMap, NfSet, SetBody};
use fw_addr::{Iface, Mac, Net, PortRange};
use fw_base::{Memory, Text};

impl Part for Net {
    ghost use Rattle.fw_addr.specs.Nets.{net_text};

    ghost text = { net_text };

    fn push(&self, out: &mut String) -> Result<(), Memory> {
        write!(out, "{self}")?;
        Ok(())
    }
}

impl Part for Mac {
    ghost use Rattle.fw_addr.specs.Hardware.{mac_text};

    ghost text = { mac_text };

    fn push(&self, out: &mut String) -> Result<(), Memory> {
        write!(out, "{self}")?;
        Ok(())
    }
}

impl Part for PortRange {
    ghost use Rattle.fw_addr.specs.Ports.{ports_text};

    ghost text = { ports_text };

    fn push(&self, out: &mut String) -> Result<(), Memory> {
        write!(out, "{self}")?;
        Ok(())
    }
}

impl Part for (Iface, Text) {
    ghost use Rattle.nf_rules.specs.Matches.{interface_text};
    ghost use Rattle.nf_rules.specs.Printed.{entry_text};

    ghost text = { λ pair. entry_text (interface_text pair.0) pair.1 };

    fn push(&self, out: &mut String) -> Result<(), Memory> {
        let (key, chain) = self;
        push_interface(out, key)?;
        write!(out, " : goto {chain}")?;
        Ok(())
    }
}

impl Part for (Net, Text) {
    ghost use Rattle.fw_addr.specs.Nets.{net_text};
    ghost use Rattle.nf_rules.specs.Printed.{entry_text};

    ghost text = { λ pair. entry_text (net_text pair.0) pair.1 };

    fn push(&self, out: &mut String) -> Result<(), Memory> {
        let (key, chain) = self;
        write!(out, "{key} : goto {chain}")?;
        Ok(())
    }
}

impl Part for NfSet {
    ghost use Rattle.nf_rules.specs.Printed.{set_line};

    ghost text = { set_line };

    fn push(&self, out: &mut String) -> Result<(), Memory> {
        write!(out, "\tset {} ", self.name)?;
        push_elements(out, &self.body)?;
        out.push('\n')?;
        Ok(())
    }
}

impl Part for NfMap {
    ghost use Rattle.nf_rules.specs.Printed.{map_line};

    ghost text = { map_line };

    fn push(&self, out: &mut String) -> Result<(), Memory> {
        write!(out, "\tmap {} ", self.name)?;
        push_entries(out, &self.body)?;
        out.push('\n')?;
        Ok(())
    }
}

fn push_elements(out: &mut String, body: &SetBody) -> Result<(), Memory>
    ensures { OnOk result (string_bytes out.new ≡ string_bytes out.old ++ in_braces (element_texts body.now)) }
{
    match body {
        SetBody::Nets(nets) => push_braced(out, nets.as_slice()),
        SetBody::Macs(macs) => push_braced(out, macs.as_slice()),
        SetBody::Ports(ports) => push_braced(out, ports.as_slice()),
    }
}

fn push_entries(out: &mut String, body: &MapBody) -> Result<(), Memory>
    ensures { OnOk result (string_bytes out.new ≡ string_bytes out.old ++ in_braces (entry_texts body.now)) }
{
    match body {
        MapBody::Ifaces(pairs) => push_braced(out, pairs.as_slice()),
        MapBody::Nets(pairs) => push_braced(out, pairs.as_slice()),
    }
}
