//! Lists of texts in JSON.
ghost use Rattle.std.specs.Prelude.{◌≡◌, IfOk};
ghost use Rattle.fw_json.specs.Texts.{json_texts, texts_in, texts_of};
ghost use Rattle.serde_json.specs.View.{items_view, view};

use fw_base::{Memory, Seq, Text};
use serde_json::Value;
use std::alloc::Global;

/// The list of texts that a JSON text says, such as `["10.0.0.1","10.0.0.2"]`.
///
/// None is answered exactly where the text isn't an array of texts as `serde_json` reads it.
#[tactic(auto, unfolding(crate::specs::Texts::json_texts))]
pub fn read_texts(alloc: Global, json: &str) -> Result<Option<Seq<Text>>, Memory>
    ensures { IfOk result (λ texts. texts ≡ json_texts json.now) }
{
    match Value::from_str(alloc, json) {
        Ok(value) => texts_of(alloc, &value),
        Err(error) => {
            if error.is_memory() {
                return Err(Memory);
            }
            Ok(None)
        }
    }
}

/// The texts of an array of texts.
fn texts_of(alloc: Global, value: &Value) -> Result<Option<Seq<Text>>, Memory>
    ensures { IfOk result (λ texts. texts ≡ texts_of (view value.now)) }
{
    match value.as_array() {
        Some(items) => texts_in(alloc, items.as_slice()),
        None => Ok(None),
    }
}

/// The texts that items of an array are, where each is one.
fn texts_in(alloc: Global, items: &[Value]) -> Result<Option<Seq<Text>>, Memory>
    ensures { IfOk result (λ texts. texts ≡ texts_in (items_view items.now)) }
{
    let mut texts = Seq::new(alloc);
    for item in items {
        let Some(text) = item.as_str() else {
            return Ok(None);
        };
        texts.push(Text::of(alloc, text)?)?;
    }
    Ok(Some(texts))
}
