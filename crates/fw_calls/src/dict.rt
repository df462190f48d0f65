//! Dicts of settings, as a call's argument has them.
use fw_base::{Memory, Seq, Text, TryCopy, copy_pairs};
use std::alloc::Global;

/// The settings of a zone or a policy by their keys, which are as they came and in the order in which they came.
#[derive(Drop)]
pub struct Dict {
    pub fields: Seq<(Text, DictField)>,
}

/// The value of a key.
#[derive(Drop)]
pub enum DictField {
    Text(Text),
    Bool(bool),
    Int(i32),
    Texts(Seq<Text>),
    /// Rows of texts: ports with their protocols, or forward ports.
    Rows(Seq<Seq<Text>>),
    /// The value of a key that isn't known.
    Unknown,
}

impl TryCopy for Dict {
    fn copy(&self, alloc: Global) -> Result<Dict, Memory> {
        Ok(Dict {
            fields: copy_pairs(alloc, &self.fields)?,
        })
    }
}

impl TryCopy for DictField {
    fn copy(&self, alloc: Global) -> Result<DictField, Memory> {
        match self {
            DictField::Text(text) => Ok(DictField::Text(text.copy(alloc)?)),
            DictField::Bool(flag) => Ok(DictField::Bool(*flag)),
            DictField::Int(number) => Ok(DictField::Int(*number)),
            DictField::Texts(texts) => Ok(DictField::Texts(texts.copy(alloc)?)),
            DictField::Rows(rows) => Ok(DictField::Rows(rows.copy(alloc)?)),
            DictField::Unknown => Ok(DictField::Unknown),
        }
    }
}
