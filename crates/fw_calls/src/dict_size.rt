//! Sizes of dicts of settings.
ghost use Rattle.std.specs.Prelude.{◌≡◌};
ghost use Rattle.fw_calls.specs.Weight.{capped, rows_size, texts_size};

use super::size::{Measure, sum, times, total};
use super::{Dict, DictField};
use fw_base::{Seq, Text};

/// The size of a list of texts, each of which is an element.
#[tactic(auto, unfolding(crate::specs::Weight::texts_size), using(crate::proofs::Capped::capped_sum))]
pub fn texts_size(texts: &[Text]) -> u64
    ensures { result ≡ capped (texts_size texts.now) }
{
    sum(times(8, texts.len()), total(texts))
}

/// The size of a list of rows, each of which is an element, while its texts are none.
#[tactic(auto, unfolding(crate::specs::Weight::rows_size), using(crate::proofs::Capped::capped_sum))]
fn rows_size(rows: &[Seq<Text>]) -> u64
    ensures { result ≡ capped (rows_size rows.now) }
{
    sum(times(8, rows.len()), total(rows))
}

impl Measure for DictField {
    ghost use Rattle.fw_calls.specs.Weight.{field_size};

    ghost size = { field_size };

    fn size(&self) -> u64 {
        match self {
            DictField::Text(text) => text.size(),
            DictField::Bool(_) => 0,
            DictField::Int(_) => 8,
            DictField::Texts(texts) => texts_size(texts.as_slice()),
            DictField::Rows(rows) => rows_size(rows.as_slice()),
            DictField::Unknown => 0,
        }
    }
}

impl Measure for (Text, DictField) {
    ghost use Rattle.fw_calls.specs.Weight.{entry_size};

    ghost size = { entry_size };

    #[tactic(auto, using(crate::proofs::Capped::capped_sum))]
    fn size(&self) -> u64 {
        let (key, value) = self;
        sum(key.size(), value.size())
    }
}

impl Measure for Dict {
    ghost use Rattle.fw_calls.specs.Weight.{dict_size};

    ghost size = { dict_size };

    #[tactic(auto, unfolding(crate::specs::Weight::dict_size))]
    fn size(&self) -> u64 {
        total(self.fields.as_slice())
    }
}
