//! The settings of a daemon on which lines are played.
use super::error::PlayError;
use super::told::{Results, push_results, push_told};
use fw_base::Memory;
use fw_calls::{Applied, Event};
use fw_event_line::{Asked, EventLine, read_event};
use fw_event_told::push_unfit;
use fw_line::push_outcome;
use fw_machine::step;
use fw_model::Runtime;
use fw_packet::read_packet;
use fw_restore::config_from_text;
use fw_service::built_in_config;
use fw_settings::{Proposal, Settings, settle, start};
use fw_verdict::verdict;
use fw_words::split_words;
use std::alloc::Global;

/// The client that is told of ticks and links.
const WATCHER: u16 = 0;

/// The latest time that the machine can be told, in seconds.
const LAST_TIME: u64 = 1 << 62;

/// What became of an event that needs neither a save nor a commit.
const NOTHING: Results = Results {
    save: Applied::Skipped,
    commit: Applied::Skipped,
};

/// The settings of a daemon, and what is to fail of its next event.
#[derive(Drop)]
pub struct Play {
    settings: Settings,
    save_fails: bool,
    commit_fails: bool,
}

impl Play {
    /// A daemon that starts from the built-in configuration.
    ///
    /// Refuses for want of memory alone.
    pub fn new(alloc: Global) -> Result<Play, Memory> {
        Ok(Play {
            settings: start(alloc, built_in_config(alloc)?)?,
            save_fails: false,
            commit_fails: false,
        })
    }

    /// Plays a line, and appends what is printed of it; of a line that is none of these, `bad line`.
    ///
    /// | Line | Does | Prints |
    /// |---|---|---|
    /// | `start` | a daemon starts from the built-in configuration | |
    /// | `settings JSON` | a daemon starts from the permanent settings of this text | |
    /// | `save fails`, `commit fails` | the save or the commit of the next event is to fail | |
    /// | `# TEXT`, or an empty line | | the line |
    /// | `call K NAME ARGUMENTS`, `end K` | an event | signals, the reply, and what was saved and committed |
    /// | `tick N`, `link up NAME`, `link gone NAME` | an event | the line of its result, signals, and what was saved and committed |
    /// | `packet WORDS` | asks what becomes of a packet | its outcome, and its log lines |
    ///
    /// Refuses for want of memory alone.
    pub fn line(&mut self, alloc: Global, out: &mut String, line: &str) -> Result<(), Memory> {
        match self.told(alloc, out, line) {
            Ok(results) => push_results(out, results),
            Err(PlayError::BadLine) => push_line(out, "bad line"),
            Err(PlayError::Memory) => Err(Memory),
        }
    }

    /// The same without what was saved and committed, which is answered, and a line that is none of these is refused.
    pub fn told(
        &mut self,
        alloc: Global,
        out: &mut String,
        line: &str,
    ) -> Result<Results, PlayError> {
        match line {
            "" => Ok(printed(push_line(out, line))?),
            "start" => Ok(printed(restart(alloc, &mut self.settings))?),
            "save fails" => {
                self.save_fails = true;
                Ok(NOTHING)
            }
            "commit fails" => {
                self.commit_fails = true;
                Ok(NOTHING)
            }
            line => self.other_line(alloc, out, line),
        }
    }

    /// Plays a line that has more words.
    fn other_line(
        &mut self,
        alloc: Global,
        out: &mut String,
        line: &str,
    ) -> Result<Results, PlayError> {
        if line.starts_with('#') {
            return Ok(printed(push_line(out, line))?);
        }
        if let Some(text) = line.strip_prefix("settings ") {
            return restore(alloc, &mut self.settings, text);
        }
        if let Some(words) = line.strip_prefix("packet ") {
            return push_packet(alloc, out, &self.settings.runtime, words);
        }
        self.event_line(alloc, out, line)
    }

    fn event_line(
        &mut self,
        alloc: Global,
        out: &mut String,
        line: &str,
    ) -> Result<Results, PlayError> {
        let words = split_words(alloc, line)?;
        match read_event(alloc, words.as_slice()) {
            Ok(said) => self.said(alloc, out, said),
            Err(error) => Err(PlayError::from(error)),
        }
    }

    fn said(
        &mut self,
        alloc: Global,
        out: &mut String,
        said: EventLine,
    ) -> Result<Results, PlayError> {
        let session = WATCHER as u64;
        match said {
            EventLine::Call { client, asked } => self.asked(alloc, out, client, asked),
            EventLine::End { client } => self.shut(alloc, out, client),
            EventLine::Tick { now } => {
                self.event(alloc, out, WATCHER, &Event::Tick { session, now })
            }
            EventLine::Link { up, name } => {
                self.event(alloc, out, WATCHER, &Event::Link { session, up, name })
            }
        }
    }

    fn asked(
        &mut self,
        alloc: Global,
        out: &mut String,
        client: u16,
        asked: Asked,
    ) -> Result<Results, PlayError> {
        let session = client as u64;
        match asked {
            Asked::Call(call) => self.event(alloc, out, client, &Event::Call { session, call }),
            Asked::Unfit(letters) => Ok(printed(push_unfit(out, client, &letters))?),
        }
    }

    fn shut(&mut self, alloc: Global, out: &mut String, client: u16) -> Result<Results, PlayError> {
        let session = client as u64;
        self.event(alloc, out, client, &Event::Shut { session })
    }

    /// Proposes what an event is to do, does it by what is to fail, and appends what a client is told of it.
    fn event(
        &mut self,
        alloc: Global,
        out: &mut String,
        client: u16,
        event: &Event,
    ) -> Result<Results, PlayError> {
        if self.settings.now > LAST_TIME {
            return Err(PlayError::BadLine);
        }
        match step(alloc, &self.settings, event) {
            Ok(proposal) => self.settled(alloc, out, client, event, proposal),
            Err(error) => Err(PlayError::from(error)),
        }
    }

    fn settled(
        &mut self,
        alloc: Global,
        out: &mut String,
        client: u16,
        event: &Event,
        proposal: Proposal,
    ) -> Result<Results, PlayError> {
        let results = results_of(&proposal, self.save_fails, self.commit_fails);
        self.save_fails = false;
        self.commit_fails = false;
        let (reply, signals) = settle(&mut self.settings, proposal, results.save, results.commit);
        match push_told(alloc, out, client, event, &reply, signals.as_slice()) {
            Ok(()) => Ok(results),
            Err(error) => Err(PlayError::from(error)),
        }
    }
}

/// What becomes of the save and of the commit of a proposal. After a save that fails no commit is tried.
fn results_of(proposal: &Proposal, save_fails: bool, commit_fails: bool) -> Results {
    let save = became(proposal.needs_save, save_fails);
    let commit = became(
        proposal.needs_commit && save != Applied::Failed,
        commit_fails,
    );
    Results { save, commit }
}

fn became(is_needed: bool, fails: bool) -> Applied {
    match (is_needed, fails) {
        (false, _) => Applied::Skipped,
        (true, false) => Applied::Done,
        (true, true) => Applied::Failed,
    }
}

/// What became of a line that is no event.
fn printed(done: Result<(), Memory>) -> Result<Results, Memory> {
    match done {
        Ok(()) => Ok(NOTHING),
        Err(error) => Err(error),
    }
}

fn push_line(out: &mut String, line: &str) -> Result<(), Memory> {
    write!(out, "{line}\n")?;
    Ok(())
}

fn push_packet(
    alloc: Global,
    out: &mut String,
    runtime: &Runtime,
    words: &str,
) -> Result<Results, PlayError> {
    let words = split_words(alloc, words)?;
    let packet = read_packet(alloc, words.as_slice())?;
    push_outcome(out, &verdict(alloc, runtime, &packet)?)?;
    Ok(NOTHING)
}

fn restart(alloc: Global, settings: &mut Settings) -> Result<(), Memory> {
    let config = built_in_config(alloc)?;
    *settings = start(alloc, config)?;
    Ok(())
}

fn restore(alloc: Global, settings: &mut Settings, text: &str) -> Result<Results, PlayError> {
    let config = config_from_text(alloc, text.as_bytes())?;
    *settings = start(alloc, config)?;
    Ok(NOTHING)
}
