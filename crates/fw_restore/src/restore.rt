//! The permanent settings from their text.
ghost use Rattle.std.specs.Prelude.{◌≡◌, IfOk, MatchResult};
ghost use Rattle.fw_restore.specs.Reads.{IsFirstFault, IsJson, Reads, path};
ghost use Rattle.fw_valid.specs.Valid.{IsValid};
ghost use Rattle.serde_json.specs.View.{view};

use crate::error::ConfigError;
use fw_base::{Memory, Text};
use fw_broken::find_broken_rule;
use fw_load::{Stop, Told};
use fw_model::Config;
use fw_words::after_key;
use serde_json::Value;
use std::alloc::Global;

/// The valid configuration that a text of the permanent settings says. The text needn't be compact, nor its values canonical; of equal keys
/// of an object the last one counts.
///
/// Refuses with the first fault: Json where the text is no JSON, Field with the path to the first value that isn't as it must be (`format`
/// first, then the least key that is missing or unknown, then what stands under the keys in the order of the file's table), Rule with
/// the first rule that the configuration breaks.
pub fn config_from_text(alloc: Global, text: &[u8]) -> Result<Config, ConfigError>
    ensures { MatchResult result (λ config. Reads text.now config × IsValid config) (IsFirstFault text.now) }
{
    let value = json_of(alloc, text)?;
    match Config::read(alloc, &value) {
        Ok(config) => match find_broken_rule(alloc, &config) {
            Ok(None) => Ok(config),
            Ok(Some(rule)) => Err(ConfigError::Rule(rule)),
            Err(Memory) => Err(ConfigError::Memory),
        },
        Err(Stop::Fault(way)) => Err(ConfigError::Field(path(alloc, way.as_str())?)),
        Err(Stop::Memory) => Err(ConfigError::Memory),
    }
}

/// The JSON value of a text.
fn json_of(alloc: Global, text: &[u8]) -> Result<Value, ConfigError>
    ensures { MatchResult result (λ value. IsJson text.now (view value)) (IsFirstFault text.now) }
{
    match Value::from_slice(alloc, text) {
        Ok(value) => Ok(value),
        Err(error) => {
            if error.is_memory() {
                return Err(ConfigError::Memory);
            }
            Err(ConfigError::Json)
        }
    }
}

/// A way without the dot that it begins with.
fn path(alloc: Global, way: &str) -> Result<Text, Memory>
    ensures { IfOk result (λ text. text ≡ path way.now) }
{
    Text::of(alloc, after_key(".", way).unwrap_or(way))
}
