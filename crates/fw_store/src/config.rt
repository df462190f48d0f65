//! The text of a whole configuration.
ghost use Rattle.std.specs.Prelude.{◌≡◌, IfOk, Some};
ghost use Rattle.fw_store.specs.Objects.{config_data};
ghost use Rattle.serde_json.specs.Read.{read};
ghost use Rattle.serde_json.specs.Written.{compact_text};

use crate::stored::{Stored, put_member};
use fw_base::Memory;
use fw_model::Config;
use serde_json::{Map, Value};
use std::alloc::Global;

/// The first format of the settings' text.
const FORMAT: i32 = 1;

/// The permanent settings as one JSON object, compact, with keys in byte order and the canonical text of each value.
///
/// Refuses for want of memory alone.
pub fn config_to_text(alloc: Global, config: &Config) -> Result<Vec<u8>, Memory>
    ensures text { IfOk result (λ bytes. bytes.items ≡ compact_text (config_data config.now)) }
    ensures read_back { IfOk result (λ bytes. read bytes.items ≡ Some (config_data config.now)) }
{
    let value = config.to_value(alloc)?;
    Ok(value.to_vec(alloc)?)
}

impl Stored for Config {
    ghost json = { config_data };

    #[tactic(auto, unfolding(crate::specs::Objects::config_data))]
    fn to_value(&self, alloc: Global) -> Result<Value, Memory> {
        let mut members = Map::new(alloc);
        put_member(alloc, &mut members, "format", &FORMAT)?;
        put_member(alloc, &mut members, "default_zone", &self.default_zone)?;
        put_member(alloc, &mut members, "log_denied", &self.log_denied)?;
        put_member(alloc, &mut members, "zones", &self.zones)?;
        put_member(alloc, &mut members, "policies", &self.policies)?;
        put_member(alloc, &mut members, "services", &self.services)?;
        put_member(alloc, &mut members, "ipsets", &self.ipsets)?;
        Ok(Value::Object(members))
    }
}
