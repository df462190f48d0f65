//! Files that are replaced whole.
use std::fs::{self, OpenFile};
use std::io;
use std::io::Write;
use std::rt::Files;

/// Makes the bytes what the file at `path` has. Who reads it meanwhile sees either all of the old bytes or all of the new ones.
///
/// They are written to a file beside it, which is synced and then takes its name. After an error the file is as before.
pub fn replace_file<R: Files>(files: &R, path: &str, beside: &str, bytes: &[u8]) -> io::Result<()> {
    let done = replace_by(files, path, beside, bytes);
    if done.is_err() {
        let _ = fs::remove_file(files, beside);
    }
    done
}

/// Writes the bytes to the file beside, and gives it the name.
fn replace_by<R: Files>(files: &R, path: &str, beside: &str, bytes: &[u8]) -> io::Result<()> {
    let mut file = fs::create(files, beside)?;
    file.write_all(bytes)?;
    file.flush()?;
    file.sync_all()?;
    fs::rename(files, beside, path)
}
