// The standard streams.
use cube_io::Failed;
use std::fs::{File, OpenOptions};
use std::io::{Stderr, Stdin, Stdout};
use std::os::fd::{AsFd, IntoRawFd};
use std::rt::Files;

// Opens the null device, and keeps it open until the program ends.
fn open_null<R: Files<File = File>>(rt: &R) -> Result<(), Failed> {
    match OpenOptions::new()
        .read(true)
        .write(true)
        .open(rt, "/dev/null")
    {
        Ok(file) => {
            let _ = file.into_raw_fd();
            Ok(())
        }
        Err(_) => Err(Failed),
    }
}

// Opens the null device in the place of a stream that is closed: what is opened gets the lowest number that is free.
fn hold<R: Files<File = File>, S: AsFd>(rt: &R, stream: &S) -> Result<(), Failed> {
    if stream.as_fd().try_clone_to_owned().is_ok() {
        return Ok(());
    }
    open_null(rt)
}

/// Sees that standard input, output and error are open, and opens the null device for each that is not: else the next
/// file would get its number, and what is said there would be written into that file. To be called before anything is
/// opened.
pub fn hold_streams<R: Files<File = File>>(
    rt: &R,
    input: &Stdin,
    out: &Stdout,
    notes: &Stderr,
) -> Result<(), Failed> {
    hold(rt, input)?;
    hold(rt, out)?;
    hold(rt, notes)
}
