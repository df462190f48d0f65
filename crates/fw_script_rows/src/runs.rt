ghost use Rattle.std.specs.Prelude.{◌≤◌};

use fw_base::{ListSink, ListSource};
use fw_script::{Ran, Status, top_run};
use std::alloc::{AllocError, Global};
use std::test::Fail;

const ADD_80: &str = "call 1 zone.addPort public 80 tcp 0\n";

const ADDED_80: &str =
    "signal 1 zone.PortAdded \"public\" \"80\" \"tcp\" 0\nreply 1 ok \"public\"\n";

fn words(alloc: Global, word: &str) -> Result<Vec<String>, AllocError> {
    let mut words = Vec::new(alloc);
    words.push(String::from_str(alloc, word)?)?;
    Ok(words)
}

fn source(
    alloc: Global,
    script: &str,
    cut: usize,
    failing: &[u64],
) -> Result<ListSource, AllocError>
    requires { 1 ≤ cut }
{
    let bytes = script.as_bytes().to_vec(alloc)?;
    Ok(ListSource::new(bytes, cut, failing.to_vec(alloc)?))
}

fn run(alloc: Global, source: &mut ListSource, sink: &mut ListSink) -> Result<Ran, AllocError> {
    Ok(top_run(alloc, words(alloc, "run")?.as_slice(), source, sink))
}

#[test]
fn blames_the_end_that_failed(rt: HostRuntime) -> Result<(), Fail> {
    let alloc = rt.alloc();
    let script = "call 1 zone.addPort public 80 tcp 0\ncall 1 zone.addPort public 81 tcp 0\n";
    let mut sink = ListSink::new(alloc, 4096, Vec::new(alloc))?;
    let ran = run(alloc, &mut source(alloc, script, 50, &[2])?, &mut sink)?;
    assert_eq!(rt; ran.status, Status::ReadFault);
    assert_eq!(rt; sink.written(), ADDED_80.as_bytes());

    let mut sink = ListSink::new(alloc, 4096, [1u64].to_vec(alloc)?)?;
    let ran = run(alloc, &mut source(alloc, ADD_80, 4096, &[])?, &mut sink)?;
    assert_eq!(rt; ran.status, Status::WriteFault);
    assert_eq!(rt; sink.written(), b"".as_slice());
    Ok(())
}

#[test]
fn runs_whatever_the_cuts(rt: HostRuntime) -> Result<(), Fail> {
    let alloc = rt.alloc();
    for cut in [1usize, 4096] {
        let mut sink = ListSink::new(alloc, 4096, Vec::new(alloc))?;
        let ran = run(alloc, &mut source(alloc, ADD_80, cut, &[])?, &mut sink)?;
        assert_eq!(rt; ran.status, Status::Done);
        assert_eq!(rt; sink.written(), ADDED_80.as_bytes());
    }
    Ok(())
}

#[test]
fn refuses_other_words(rt: HostRuntime) -> Result<(), Fail> {
    let alloc = rt.alloc();
    let walk = words(alloc, "walk")?;
    let mut sink = ListSink::new(alloc, 4096, Vec::new(alloc))?;
    let mut source = source(alloc, ADD_80, 1, &[])?;
    let ran = top_run(alloc, walk.as_slice(), &mut source, &mut sink);
    assert_eq!(rt; ran.status, Status::Usage);
    assert_eq!(rt; sink.written(), b"".as_slice());
    Ok(())
}
