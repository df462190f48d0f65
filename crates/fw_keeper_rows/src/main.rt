//! A keeper in memory and one in a file, each loaded and saved in turn. The file stdout beside src/ says what each call is to
//! answer.
#![tactic(auto)]

ghost use Rattle.std.specs.Prelude.{◌≤◌, ◌≡◌, ◌+◌, OnOk};

use anyhow::Result;
use fw_base::Text;
use fw_keeper::{FileKeeper, KeepError, Keeper, ListKeeper};
use std::alloc::Global;
use std::fs;

const PATH: &str = "kept.txt";

fn main(rt: HostRuntime) -> Result<()> {
    in_memory(&rt)?;
    in_a_file(&rt)?;
    in_no_folder(&rt)?;
    beside_a_half_written_file(&rt)
}

/// A keeper in memory.
fn in_memory(rt: &HostRuntime) -> Result<()> {
    let mut list = ListKeeper::new(None, [2u64, 5].to_vec(rt.alloc())?);
    let told = six_calls(rt.alloc(), &mut list)?;
    println!(rt;
        "in memory, where calls 2 and 5 fail:\n{told}held: {}",
        held(rt.alloc(), list.text())?
    )?;
    Ok(())
}

/// A keeper in a file, which isn't there at first.
fn in_a_file(rt: &HostRuntime) -> Result<()> {
    let _ = fs::remove_file(rt, PATH);
    let mut file = FileKeeper::new(rt, Text::of(rt.alloc(), PATH)?);
    let told = six_calls(rt.alloc(), &mut file)?;
    println!(rt; "in a file:\n{told}held: {}", fs::read_to_string(rt, PATH)?)?;
    println!(rt;
        "beside it: {}",
        if fs::exists(rt, "kept.txt.new")? {
            "left"
        } else {
            "nothing"
        }
    )?;
    fs::remove_file(rt, PATH)?;
    Ok(())
}

/// A keeper in a file that can't be made.
fn in_no_folder(rt: &HostRuntime) -> Result<()> {
    let mut file = FileKeeper::new(rt, Text::of(rt.alloc(), "nowhere/kept.txt")?);
    let told = six_calls(rt.alloc(), &mut file)?;
    print!(rt; "in a folder that isn't there:\n{told}")?;
    Ok(())
}

/// A keeper whose last save was cut off: half of a text stands in the file that a save makes first. Between its saves somebody else reads.
fn beside_a_half_written_file(rt: &HostRuntime) -> Result<()> {
    fs::write(rt, "kept.txt.new", "half of a te")?;
    let mut file = FileKeeper::new(rt, Text::of(rt.alloc(), PATH)?);
    let mut told = String::new(rt.alloc());
    push_load(rt.alloc(), &mut file, &mut told)?;
    push_save(rt.alloc(), &mut file, "a whole text", &mut told)?;
    let between = fs::read_to_string(rt, PATH)?;
    push_save(rt.alloc(), &mut file, "x", &mut told)?;
    push_load(rt.alloc(), &mut file, &mut told)?;
    println!(rt; "beside a half-written file:\n{told}read between the saves: {between}")?;
    println!(rt;
        "beside it: {}",
        if fs::exists(rt, "kept.txt.new")? {
            "left"
        } else {
            "nothing"
        }
    )?;
    fs::remove_file(rt, PATH)?;
    Ok(())
}

/// Loads and saves in turn, and what they answer.
fn six_calls<K: Keeper>(alloc: Global, keeper: &mut K) -> Result<String>
    requires { (K.Keeper.kept keeper.old).calls ≤ 10 }
{
    let mut told = String::new(alloc);
    push_load(alloc, keeper, &mut told)?;
    push_save(alloc, keeper, "first", &mut told)?;
    push_load(alloc, keeper, &mut told)?;
    push_save(alloc, keeper, "second", &mut told)?;
    push_save(alloc, keeper, "third text", &mut told)?;
    push_load(alloc, keeper, &mut told)?;
    Ok(told)
}

/// One load, and what it answers.
fn push_load<K: Keeper>(alloc: Global, keeper: &mut K, told: &mut String) -> Result<()>
    requires { (K.Keeper.kept keeper.old).calls ≤ 20 }
    ensures { (K.Keeper.kept keeper.new).calls ≡ (K.Keeper.kept keeper.old).calls + 1 }
{
    match keeper.load(alloc) {
        Ok(Some(text)) => write!(told, "  load: {}\n", held(alloc, Some(text.as_slice()))?)?,
        Ok(None) => write!(told, "  load: nothing\n")?,
        Err(KeepError::Failed) => write!(told, "  load: failed\n")?,
        Err(KeepError::Memory) => write!(told, "  load: no memory\n")?,
    }
    Ok(())
}

/// One save, and what it answers.
fn push_save<K: Keeper>(alloc: Global, keeper: &mut K, text: &str, told: &mut String) -> Result<()>
    requires { (K.Keeper.kept keeper.old).calls ≤ 20 }
    ensures { OnOk result ((K.Keeper.kept keeper.new).calls ≡ (K.Keeper.kept keeper.old).calls + 1) }
{
    match keeper.save(text.as_bytes().to_vec(alloc)?) {
        Ok(()) => write!(told, "  save {text}: done\n")?,
        Err(_) => write!(told, "  save {text}: failed\n")?,
    }
    Ok(())
}

/// A text that is held, or a word for none.
fn held(alloc: Global, text: Option<&[u8]>) -> Result<String> {
    match text {
        Some(text) => Ok(String::from_utf8_lossy(alloc, text)?),
        None => Ok(String::from_str(alloc, "nothing")?),
    }
}
