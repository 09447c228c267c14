// The text of the listing programs: the exact reading of one stored cost table, in either form. The two programs differ in the last image
// of the order alone. Every function that writes answers the place behind its text.
#![tactic(auto)]

ghost use Rattle.std.specs.Prelude.{◌≡◌, ◌≤◌, length};
ghost use Rattle.listing_lines.specs.Lines.{room};
ghost use Rattle.listing_text.specs.LastImage.{last_image};
ghost use Rattle.listing_text.specs.Listing.{Listed, Within, listing_text};
ghost use Rattle.listing_text.specs.declared.Last.TheVariants.{FarEnd, ImageN};
ghost use Rattle.text.specs.Putting.{Put};

use graft::Engine;
use tables::Costs;
use text::Text;

// The last image of an order: the far end, or image n.
#[derive(Clone, Copy, PartialEq, Eq)]
pub enum Last {
    FarEnd,
    ImageN,
}

// The last image that is asked for, counted from 1.
#[tactic(auto, using(crate::proofs::Laws::Read::far_small))]
fn last_image(which: Last, t: &Costs<'_>) -> usize
    ensures { result ≡ last_image which t.now.n t.now.entries.now }
{
    match which {
        Last::FarEnd => far_end::far_end(t) + 1,
        Last::ImageN => t.n,
    }
}

// The listing of the stored cost table at the start of the bytes, in the form that they tell.
#[tactic(auto, using(listing_lines::specs::Laws::Lengths::refused_fits))]
fn write_stored(out: &mut [u8], engine: Engine, which: Last, bytes: &[u8]) -> usize
    requires { room ≤ length out.old }
    ensures { Put (listing_text which bytes.now) 0 out.old result out.new }
{
    let mut t = [0u32; 4096];
    match stored_costs::read_costs(bytes, 0, &mut t) {
        Err(q) => listing_lines::put_refusal(out, 0, q),
        Ok(read) => {
            let n = read.n;
            let table = Costs {
                n,
                entries: &t[..n * n],
            };
            table_text::write_table(out, engine, &table, last_image(which, &table))
        }
    }
}

// How many bytes the longest stored cost table has, in either form. Nothing behind them can matter to a listing: `listing_ignores` in proofs/Ignored.antt.
pub const LONGEST_TABLE: usize = 5798;

// What both programs print: the exact reading of the stored cost table at the start of the bytes, in either form and whatever follows it,
// or one line with the refusal. The text is the same whichever engine reads: the promise does not name it.
#[tactic(auto, using(crate::proofs::Laws::Read::whole))]
pub fn listing_with(engine: Engine, which: Last, bytes: &[u8]) -> Text<10240>
    ensures listed { Listed which bytes.now result.length result.bytes }
    ensures within { Within result.length result.bytes }
{
    let mut text = [0u8; 10240];
    let length = write_stored(&mut text, engine, which, bytes);
    Text {
        length,
        bytes: text,
    }
}

// The listing whose order ends at the far end, so that the ring closes over the long link. The engine that grafts reads here and below:
// at 64 images it is the faster one by far, and both give the same text.
pub fn listing(bytes: &[u8]) -> Text<10240>
    ensures listed { Listed FarEnd bytes.now result.length result.bytes }
    ensures within { Within result.length result.bytes }
{
    listing_with(Engine::Grafts, Last::FarEnd, bytes)
}

// The listing whose order ends with image n, on which the keeper's ring scripts were built.
pub fn listing_last_n(bytes: &[u8]) -> Text<10240>
    ensures listed { Listed ImageN bytes.now result.length result.bytes }
    ensures within { Within result.length result.bytes }
{
    listing_with(Engine::Grafts, Last::ImageN, bytes)
}
