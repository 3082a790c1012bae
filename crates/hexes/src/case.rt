// One text, read onto an image and marks that hold something, so that what is kept shows.
ghost use Rattle.std.specs.Prelude.{◌+◌, ◌≤◌, ◌<◌};

use fields::overlay::overlay;
use hexread::read::read;
use hexverdict::marks::set_bytes;
use hexverdict::verdict::verdict;
use hexwrite::write::{WriteRefusal, write};
use program::print::text;
use std::rt::Stdout;

// The verdict; then the records that the writer makes of what was read, and whether all else is as it was.
pub fn run(out: Stdout, hex: &[u8]) {
    let mut image = image_before();
    let mut marks = marks_before();
    let answer = read(hex, &mut image, &mut marks);
    text(out, verdict(answer, set_bytes(&marks)).as_bytes());
    match answer {
        Ok(()) => accepted(out, &image, &marks),
        Err(_) => refused(out, &image, &marks),
    }
}

fn accepted(out: Stdout, image: &[u8; 256], marks: &[u8; 256]) {
    let mut records = [0u8; 4096];
    match write(image, marks, &mut records) {
        Ok(length) => text(out, &records[..length]),
        Err(WriteRefusal::NoRoom(_)) => text(out, b"no room\n"),
        Err(WriteRefusal::NoImage) => text(out, b"no image\n"),
    }
    if is_kept(image, marks) {
        text(out, b"rest kept\n");
    } else {
        text(out, b"rest changed\n");
    }
}

// Whether each byte without a mark is as before, and each mark 0 or 1.
fn is_kept(image: &[u8; 256], marks: &[u8; 256]) -> bool {
    overlay(image_before(), image, marks) == *image && overlay([0; 256], &[1; 256], marks) == *marks
}

fn refused(out: Stdout, image: &[u8; 256], marks: &[u8; 256]) {
    if *image == image_before() && *marks == marks_before() {
        text(out, b"as found\n");
    } else {
        text(out, b"changed\n");
    }
}

// No byte is 0, and none is as the one beside it.
fn image_before() -> [u8; 256] {
    counted(1, 251)
}

// Clear ones, set ones, and set ones that are not 1.
fn marks_before() -> [u8; 256] {
    counted(0, 3)
}

// The numbers from the least on, so many, over and over.
fn counted(least: u8, many: u8) -> [u8; 256]
    requires many_nonzero { 0 < many }
    requires many_bound { least + many ≤ 256 }
{
    let mut bytes = [0; 256];
    for (i, byte) in bytes.iter_mut().enumerate() {
        *byte = least + (i % usize::from(many)) as u8;
    }
    bytes
}
