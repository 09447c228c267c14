// Cases that begin with n and a cost table. Each function reads the arguments, makes its call, and prints what the call answers and leaves.
use case_text::{Arguments, show, show_answer, show_table_refusal};
use counts::Difference;
use ground::Refusal;
use std::io;

pub fn index_case(rt: &impl Print, arguments: &mut Arguments<'_>) -> io::Result<()> {
    let n = arguments.size();
    let mut entries = [0u32; 4200];
    let t = arguments.take(&mut entries);
    let s = arguments.number();
    show_answer(rt, index::index(n, t, s))
}

pub fn order_case(rt: &impl Print, arguments: &mut Arguments<'_>) -> io::Result<()> {
    let n = arguments.size();
    let mut entries = [0u32; 4200];
    let t = arguments.take(&mut entries);
    let first = arguments.size();
    let last = arguments.size();
    let mut places = [0u32; 4200];
    let out = arguments.take(&mut places);
    show_answer(rt, order::order(n, t, first, last, out))?;
    show(rt, out)
}

// The calls that read a cost table: the measured reading, and the exact one by each engine.
#[derive(Clone, Copy, PartialEq, Eq, Debug)]
enum Reading {
    Measured,
    Exact,
    ExactGrafted,
}

// What a reading answers, and what it leaves.
#[derive(PartialEq, Drop)]
struct Outcome<'a> {
    answer: Result<usize, Refusal>,
    fars: &'a [u64],
    costs: &'a [u32],
}

impl Reading {
    // The same reading by the other engine. The measured one has no other.
    fn by_the_other_engine(self) -> Option<Reading> {
        match self {
            Reading::Measured => None,
            Reading::Exact => Some(Reading::ExactGrafted),
            Reading::ExactGrafted => Some(Reading::Exact),
        }
    }

    // Reads the table, and leaves the rows in the lent places, as far as the arguments say, which fill them before.
    fn outcome<'a>(
        self,
        n: usize,
        t: &[u32],
        arguments: &mut Arguments<'_>,
        sides: &'a mut [u64],
        doubled: &'a mut [u32],
    ) -> Outcome<'a> {
        let fars = arguments.take(sides);
        let costs = arguments.take(doubled);
        let answer = match self {
            Reading::Measured => tree::measured(n, t, fars, costs),
            Reading::Exact => tree::exact(n, t, fars, costs),
            Reading::ExactGrafted => graft::exact(n, t, fars, costs),
        };
        Outcome {
            answer,
            fars,
            costs,
        }
    }
}

// The other engine reads the same table, with places of its own that are filled from the arguments once more. Where it answers or leaves
// something else, a line is printed that no expected text has.
fn hold_engines(
    rt: &impl Print,
    other: Reading,
    n: usize,
    t: &[u32],
    arguments: &mut Arguments<'_>,
    outcome: &Outcome<'_>,
) -> io::Result<()> {
    let mut sides = [0u64; 4200];
    let mut doubled = [0u32; 4200];
    if other.outcome(n, t, arguments, &mut sides, &mut doubled) != *outcome {
        println!(rt; "the two engines differ")?;
    }
    Ok(())
}

// A case of the exact reading is read by both engines; what is printed is of the one that is asked.
fn reading_case(
    rt: &impl Print,
    reading: Reading,
    arguments: &mut Arguments<'_>,
) -> io::Result<()> {
    let n = arguments.size();
    let mut entries = [0u32; 4200];
    let t = arguments.take(&mut entries);
    let mut again = *arguments;
    let mut sides = [0u64; 4200];
    let mut doubled = [0u32; 4200];
    let outcome = reading.outcome(n, t, arguments, &mut sides, &mut doubled);
    if let Some(other) = reading.by_the_other_engine() {
        hold_engines(rt, other, n, t, &mut again, &outcome)?;
    }
    show_answer(rt, outcome.answer)?;
    show(rt, outcome.fars)?;
    show(rt, outcome.costs)
}

pub fn measured_case(rt: &impl Print, arguments: &mut Arguments<'_>) -> io::Result<()> {
    reading_case(rt, Reading::Measured, arguments)
}

pub fn exact_case(rt: &impl Print, arguments: &mut Arguments<'_>) -> io::Result<()> {
    reading_case(rt, Reading::Exact, arguments)
}

pub fn exact_grafted_case(rt: &impl Print, arguments: &mut Arguments<'_>) -> io::Result<()> {
    reading_case(rt, Reading::ExactGrafted, arguments)
}

pub fn compare_case(rt: &impl Print, arguments: &mut Arguments<'_>) -> io::Result<()> {
    let n = arguments.size();
    let mut entries = [0u32; 4200];
    let one = arguments.take(&mut entries);
    let mut other_entries = [0u32; 4200];
    let other = arguments.take(&mut other_entries);
    match compare::compare(n, one, other) {
        Ok(
            Difference {
                first,
                second,
                common,
                count,
                over,
            },
        ) => print!(rt; "0 {first} {second} {common} {count} {over}"),
        Err(r) => show_table_refusal(rt, r),
    }
}
