//! Values that are told by one text, a truth or a number.
ghost use Rattle.std.specs.Prelude.{◌≡◌, IfOk, codes};
ghost use Rattle.fw_addr.specs.Protocols.{proto_text};
ghost use Rattle.fw_rich.specs.Canonical.{canon};
ghost use Rattle.fw_store.specs.Texts.{destination_text, entry_text, kind_text, log_denied_text, policy_target_text, set_family_text, source_text, zone_target_text};
ghost use Rattle.serde_json.specs.Data.{boolean, number, string};
ghost use Rattle.serde_json.specs.Find.{of_integer};
ghost use Rattle.serde_json.specs.View.{view};

use crate::stored::Stored;
use fw_addr::{Family, Iface, Net, Proto};
use fw_base::{Memory, Text};
use fw_model::{Binding, Item, LogDenied, PolicyTarget, Rich, SetKind, ZoneTarget};
use fw_rich::print_rich;
use serde_json::Value;
use std::alloc::Global;

/// A text as a value.
pub fn text_value(alloc: Global, text: &str) -> Result<Value, Memory>
    ensures { IfOk result (λ value. view value ≡ string text.now) }
{
    Ok(Value::try_from_str(alloc, text)?)
}

impl Stored for Text {
    ghost json = { λ text. string text };

    fn to_value(&self, alloc: Global) -> Result<Value, Memory> {
        text_value(alloc, self.as_str())
    }
}

impl Stored for bool {
    ghost json = { λ truth. boolean truth };

    fn to_value(&self, _alloc: Global) -> Result<Value, Memory> {
        Ok(Value::from(*self))
    }
}

impl Stored for i32 {
    ghost json = { λ whole. number (of_integer whole) };

    fn to_value(&self, _alloc: Global) -> Result<Value, Memory> {
        Ok(Value::from(*self))
    }
}

impl Stored for Iface {
    ghost json = { λ interface. string interface };

    fn to_value(&self, alloc: Global) -> Result<Value, Memory> {
        text_value(alloc, self.as_str())
    }
}

impl Stored for Proto {
    ghost json = { λ proto. string (proto_text proto) };

    fn to_value(&self, alloc: Global) -> Result<Value, Memory> {
        Ok(Value::String(format!(in alloc; "{self}")?))
    }
}

impl Stored for Rich {
    ghost json = { λ rule. string (canon rule) };

    fn to_value(&self, alloc: Global) -> Result<Value, Memory> {
        let text = print_rich(alloc, self)?;
        text_value(alloc, text.as_str())
    }
}

impl Stored for Binding {
    ghost json = { λ source. string (source_text source) };

    fn to_value(&self, alloc: Global) -> Result<Value, Memory> {
        match self {
            Binding::Net(net) => Ok(Value::String(format!(in alloc; "{net}")?)),
            Binding::Mac(mac) => Ok(Value::String(format!(in alloc; "{mac}")?)),
            Binding::Set(name) => Ok(Value::String(format!(in alloc; "ipset:{}", name.as_str())?)),
        }
    }
}

impl Stored for Item {
    ghost json = { λ entry. string (entry_text entry) };

    fn to_value(&self, alloc: Global) -> Result<Value, Memory> {
        match self {
            Item::Net(net) => Ok(Value::String(format!(in alloc; "{net}")?)),
            Item::Mac(mac) => Ok(Value::String(format!(in alloc; "{mac}")?)),
        }
    }
}

impl Stored for Option<Net> {
    ghost json = { λ net. string (destination_text net) };

    fn to_value(&self, alloc: Global) -> Result<Value, Memory> {
        match self {
            Some(net) => Ok(Value::String(format!(in alloc; "{net}")?)),
            None => text_value(alloc, ""),
        }
    }
}

impl Stored for LogDenied {
    ghost json = { λ denied. string (log_denied_text denied) };

    fn to_value(&self, alloc: Global) -> Result<Value, Memory> {
        match self {
            LogDenied::Off => text_value(alloc, "off"),
            LogDenied::All => text_value(alloc, "all"),
            LogDenied::Unicast => text_value(alloc, "unicast"),
            LogDenied::Broadcast => text_value(alloc, "broadcast"),
            LogDenied::Multicast => text_value(alloc, "multicast"),
        }
    }
}

impl Stored for ZoneTarget {
    ghost json = { λ target. string (zone_target_text target) };

    fn to_value(&self, alloc: Global) -> Result<Value, Memory> {
        match self {
            ZoneTarget::Default => text_value(alloc, "default"),
            ZoneTarget::Accept => text_value(alloc, "ACCEPT"),
            ZoneTarget::Reject => text_value(alloc, "%%REJECT%%"),
            ZoneTarget::Drop => text_value(alloc, "DROP"),
        }
    }
}

impl Stored for PolicyTarget {
    ghost json = { λ target. string (policy_target_text target) };

    fn to_value(&self, alloc: Global) -> Result<Value, Memory> {
        match self {
            PolicyTarget::Continue => text_value(alloc, "CONTINUE"),
            PolicyTarget::Accept => text_value(alloc, "ACCEPT"),
            PolicyTarget::Reject => text_value(alloc, "REJECT"),
            PolicyTarget::Drop => text_value(alloc, "DROP"),
        }
    }
}

impl Stored for SetKind {
    ghost json = { λ kind. string (kind_text kind) };

    fn to_value(&self, alloc: Global) -> Result<Value, Memory> {
        match self {
            SetKind::Ip => text_value(alloc, "hash:ip"),
            SetKind::Net => text_value(alloc, "hash:net"),
            SetKind::Mac => text_value(alloc, "hash:mac"),
        }
    }
}

impl Stored for Family {
    ghost json = { λ family. string (set_family_text family) };

    fn to_value(&self, alloc: Global) -> Result<Value, Memory> {
        match self {
            Family::V4 => text_value(alloc, "inet"),
            Family::V6 => text_value(alloc, "inet6"),
        }
    }
}
