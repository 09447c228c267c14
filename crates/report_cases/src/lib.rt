// The cases of the term report: how many bytes of the case before are kept in front, the pieces of bytes behind these, each with how
// often it stands there, and the three lent slices, each as its length and the number that it is full of. What a call leaves in a slice is
// printed as the places in front, as many as there are far sides, and how many behind them hold what they held.
#![tactic(auto)]

ghost use Rattle.std.specs.Prelude.{◌≤◌, length};

use case_text::{Arguments, Element, show, show_table_refusal};
use figures::Figures;
use report::TermReport;
use std::io;

// A lent slice, and the number that it is full of.
#[derive(Drop)]
struct Lent<'a, T> {
    places: &'a mut [T],
    fill: T,
}

impl<'a, T: Element> Lent<'a, T> {
    // The front of the lent places, as far as there are places, full of the number.
    fn new(arguments: &mut Arguments<'_>, places: &'a mut [T]) -> Lent<'a, T>
        ensures within { length result.places.now ≤ length places.old }
    {
        let count = arguments.size().min(places.len());
        let fill = T::narrowed(arguments.number());
        let places = &mut places[..count];
        for place in places.iter_mut() {
            *place = fill;
        }
        Lent { places, fill }
    }

    // Prints the places in front, and how many behind them hold the number, up to the first that does not.
    fn show(&self, rt: &impl Print, sides: usize) -> io::Result<()> {
        if sides <= self.places.len() {
            let (front, behind) = self.places.split_at(sides);
            show(rt, front)?;
            let holding = behind.iter().take_while(|x| **x == self.fill).count();
            print!(rt; " {holding}")?;
        }
        Ok(())
    }
}

// Prints the answer of the report. The figures stand behind a refusal too.
fn show_report(rt: &impl Print, answer: TermReport) -> io::Result<()> {
    match answer.stop {
        Ok(()) => print!(rt; "0")?,
        Err(r) => show_table_refusal(rt, r)?,
    }
    let Figures {
        images,
        tables,
        accepted,
        apart,
        sides,
        pairs,
        count_sum,
        largest_count,
        used,
    } = answer.figures;
    print!(rt;
        " {images} {tables} {accepted} {apart} {sides} {pairs} {count_sum} {largest_count} {used}"
    )
}

// A case behind its bytes.
fn slices_case(rt: &impl Print, bytes: &[u8], arguments: &mut Arguments<'_>) -> io::Result<()> {
    let mut sides = [0u64; 1100];
    let fars = Lent::new(arguments, &mut sides);
    let mut numbers = [0u32; 1100];
    let trees = Lent::new(arguments, &mut numbers);
    let mut totals = [0u64; 1100];
    let sums = Lent::new(arguments, &mut totals);
    let answer = report::report(bytes, fars.places, trees.places, sums.places);
    show_report(rt, answer)?;
    fars.show(rt, answer.figures.sides)?;
    trees.show(rt, answer.figures.sides)?;
    sums.show(rt, answer.figures.sides)
}

// Puts bytes behind so many of the output, as far as there are places, and gives how many stand there then.
fn put_bytes(bytes: &[u8], count: usize, out: &mut [u8]) -> usize {
    let mut end = count;
    for byte in bytes {
        if out.len() <= end {
            return end;
        }
        out[end] = *byte;
        end += 1;
    }
    end
}

// Puts the next piece, as often as the arguments say, behind so many bytes of the output, and gives how many stand there then.
fn put_piece(arguments: &mut Arguments<'_>, count: usize, out: &mut [u8]) -> usize {
    let repeat = arguments.number();
    let mut places = [0u8; 5900];
    let piece = arguments.take(&mut places);
    let mut end = count;
    for _ in 0..repeat {
        end = put_bytes(piece, end, out);
    }
    end
}

// Reads the arguments, makes the call, and prints what it answers and leaves. The given bytes are those of the case before. More bytes than
// there are places for are no case, and none behind it is run.
pub fn report_case(
    rt: &impl Print,
    arguments: &mut Arguments<'_>,
    given: &mut [u8],
) -> io::Result<()> {
    let mut count = arguments.size();
    for _ in 0..arguments.number() {
        count = put_piece(arguments, count, given);
    }
    if given.len() < count {
        *arguments = Arguments::new(&[]);
        return Ok(());
    }
    slices_case(rt, &given[..count], arguments)
}
