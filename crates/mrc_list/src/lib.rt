// The listing of standard input on standard output: what the program `list` does. What it decides is promised, in `input` and `listing`;
// the functions here move bytes between those and a reader and a writer.
#![tactic(auto)]

pub mod input;
pub mod listing;

ghost use Rattle.std.specs.Prelude.{◌≡◌, ◌≤◌, ◌<◌, length, IfSome, IfOk, IfErr, OnOk, MatchResult};
ghost use Rattle.mrc_line.specs.Target.{offsets};
ghost use Rattle.mrc_list.specs.declared.input.NotAnImage.TheVariants.{TooLong};
ghost use Rattle.mrc_list.specs.declared.NotListed.{NotListed};
ghost use Rattle.mrc_instruction.specs.declared.reading.Reading.TheVariants.{One};
ghost use Rattle.mrc_line.specs.Page.{lines_of, text_of};
ghost use Rattle.mrc_list.specs.Listing.{text_for, too_long_text};
ghost use Rattle.std.specs.Io.KnownBytes.{Appends, Keeps};

use crate::input::{NotAnImage, after_read, start, wanted};
use crate::listing::{next_page, too_long};
use mrc_line::line::OFFSETS;
use std::io::{self, ErrorKind, Read, Write};
use std::ops::ControlFlow::{Break, Continue};
use std::process::ExitCode;
use thiserror::Error;

// The room for an image, and for the byte that shows that an input is too long for one.
const IMAGE_ROOM: usize = OFFSETS + 1;

// The room for a page.
const PAGE_ROOM: usize = 8192;

// What a program ends with that writes to a pipe whose reader went away.
const BROKEN_PIPE: u8 = 141;

// Reads the input to its end, or until a byte too many is there, and answers the image. The loop is written out, since `wanted` and `after_read` decide on
// each read, of which `only_input` speaks, and the library's `read_to_end` reads into memory of the heap.
fn read_input<'a, R: Read>(from: &mut R, room: &'a mut [u8]) -> Result<&'a [u8], NotAnImage>
    requires { offsets < length room.old }
    ensures fits { IfOk result (λ image. length image.now ≤ offsets) }
    ensures bytes { IfSome (R.remaining from.old) (λ xs. MatchResult result (λ image. image.now ≡ xs) (λ e. e ≡ TooLong → offsets < length xs)) }
{
    let mut there = start();
    loop {
        let end = there + wanted(there);
        match after_read(there, from.read(&mut room[there..end])) {
            Continue(filled) => there = filled,
            Break(input) => {
                let n = input?;
                return Ok(&room[..n]);
            }
        }
    }
}

// Writes the image's listing a page at a time.
fn write_listing<W: Write>(to: &mut W, image: &[u8]) -> io::Result<()>
    requires { length image.now ≤ offsets }
    ensures { OnOk result (Appends (W.contents to.old) (W.contents to.new) (text_of One image.now (lines_of One image.now))) }
{
    let mut out = [0u8; PAGE_ROOM];
    let mut at = start();
    while let Some(page) = next_page(image, at, &mut out) {
        to.write_all(&out[..page.len])?;
        at = page.next;
    }
    Ok(())
}

fn write_too_long<W: Write>(to: &mut W) -> io::Result<()>
    ensures { OnOk result (Appends (W.contents to.old) (W.contents to.new) too_long_text) }
{
    let line = too_long();
    to.write_all(&line)
}

// Why an input was not listed: it could not be read, or its listing not written.
#[derive(Debug, Drop, Error)]
pub enum NotListed {
    #[error("cannot read standard input")]
    Read,
    #[error("cannot write standard output")]
    Write(io::Error),
}

// Lists the image that the input is. For an input that is too long it says only that.
pub fn list_input<R: Read, W: Write>(from: &mut R, to: &mut W) -> Result<(), NotListed>
    ensures listed { OnOk result (IfSome (R.remaining from.old) (λ xs. Appends (W.contents to.old) (W.contents to.new) (text_for xs))) }
    ensures unread { IfErr result (λ e. e ≡ NotListed.Read → Keeps (W.contents to.old) (W.contents to.new)) }
{
    let mut room = [0u8; IMAGE_ROOM];
    match read_input(from, &mut room) {
        Ok(image) => write_listing(to, image).map_err(NotListed::Write),
        Err(NotAnImage::TooLong) => write_too_long(to).map_err(NotListed::Write),
        Err(NotAnImage::Failed) => Err(NotListed::Read),
    }
}

// Lists standard input on standard output, and answers with what status the program ends.
pub fn list(rt: &(impl io::Input + Print + Eprint)) -> ExitCode {
    match list_input(&mut rt.reader(), &mut io::writer(rt)) {
        Ok(()) => ExitCode::SUCCESS,
        Err(NotListed::Write(error)) if error.kind() == ErrorKind::BrokenPipe => {
            ExitCode::from(BROKEN_PIPE)
        }
        Err(why) => {
            let _ = eprintln!(rt; "list: {why}");
            ExitCode::SUCCESS
        }
    }
}
