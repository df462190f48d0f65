//! Lists of names.
ghost use Rattle.std.specs.Prelude.{◌≡◌, IfOk, map};

use fw_base::{Memory, Seq, Text};
use std::alloc::Global;

/// The texts of a list, in memory of their own.
pub fn texts(alloc: Global, texts: &[&str]) -> Result<Seq<Text>, Memory>
    ensures { IfOk result (λ made. made ≡ map (λ text. text.now) texts.now) }
{
    let mut made = Seq::new(alloc);
    for text in texts {
        made.push(Text::of(alloc, text)?)?;
    }
    Ok(made)
}
