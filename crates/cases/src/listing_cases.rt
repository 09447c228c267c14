// Cases of the listings: stored bytes, and the texts of both.
use case_text::{Arguments, show};
use graft::Engine;
use listing_text::Last;
use std::io;

// Prints a text as the bytes that it has. Where the other engine gives another, a line is printed that no expected text has.
fn show_text(rt: &impl Print, text: &[u8], other: &[u8]) -> io::Result<()> {
    show(rt, text)?;
    if text != other {
        println!(rt; "the two engines differ")?;
    }
    Ok(())
}

// Reads the bytes, makes the calls, and prints the texts.
pub fn listing_case(rt: &impl Print, arguments: &mut Arguments<'_>) -> io::Result<()> {
    let mut given = [0u8; 5900];
    let bytes = arguments.take(&mut given);
    print!(rt; "0")?;
    let text = listing_text::listing(bytes);
    let other = listing_text::listing_with(Engine::Fours, Last::FarEnd, bytes);
    show_text(rt, &text.bytes[..text.length], &other.bytes[..other.length])?;
    let text = listing_text::listing_last_n(bytes);
    let other = listing_text::listing_with(Engine::Fours, Last::ImageN, bytes);
    show_text(rt, &text.bytes[..text.length], &other.bytes[..other.length])
}
